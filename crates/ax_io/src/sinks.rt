ghost use Rattle.std.specs.Prelude.{◌≡◌, ℕ, List, Option, OnOk, OnErr};
ghost use Rattle.std.specs.List.{flat_map};
ghost use Rattle.ax_io.specs.Count as counts;
ghost use Rattle.ax_io.specs.Content as ax_io_content;

use super::Failed;
use std::convert::AsSlice;

/// Where bytes go.
pub trait Sink {
    /// The faults so far, as a count that never falls and stands still at 2^64 - 1.
    ghost faults: { Self → ℕ };

    /// The bytes taken so far, where they are told.
    ghost content: { Self → Option (List ℕ) };

    /// Hands over the bytes. After a failure some front of them was taken.
    fn put(&mut self, bytes: &[u8]) -> Result<(), Failed>
        ensures counted { counts.Counted (faults self.old) (faults self.new) result }
        ensures ok { OnOk result (content self.new ≡ ax_io_content.append_told (content self.old) bytes.now) }
        ensures failed { OnErr result (ax_io_content.TakesFront (content self.old) (content self.new) bytes.now) };
}

/// Hands over pieces in order, one call of the sink for each. After a failure some front of their
/// bytes was taken, and no later piece was handed over.
pub fn put_all<K: Sink, P: AsSlice<u8>>(sink: &mut K, pieces: &[P]) -> Result<(), Failed>
    ensures counted { counts.Counted (K.faults sink.old) (K.faults sink.new) result }
    ensures ok { OnOk result (K.content sink.new ≡ ax_io_content.append_told (K.content sink.old) (flat_map P.items pieces.now)) }
    ensures failed { OnErr result (ax_io_content.TakesFront (K.content sink.old) (K.content sink.new) (flat_map P.items pieces.now)) }
{
    'pieces: for piece in pieces {
        sink.put(piece.as_slice())?;
    }
    Ok(())
}
