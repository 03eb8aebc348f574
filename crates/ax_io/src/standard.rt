ghost use Rattle.std.specs.Prelude.{◌≡◌, ◌<◌, ◌≤◌, length, take, None, IfOk, OnOk, OnErr, IfSome};
ghost use Rattle.std.specs.Io.KnownBytes.{Appends, Consumes, IsAtEnd};
ghost use Rattle.ax_io.specs.Count as counts;
ghost use Rattle.ax_io.specs.Content as content;

use super::{Failed, Faults, Sink, Source};
use std::io::{ErrorKind, Read, Write};
use std::marker::Model;

/// Real input, as a source that tells nothing of its content: `StdSource::new(rt.reader())`.
#[derive(Drop)]
pub struct StdSource<R: Read> {
    reader: R,
    faults: Faults,
}

impl<R: Read> Model for StdSource<R> {
    ghost use Rattle.ax_io.specs.Adapted as adapted;

    ghost Value = { adapted.Adapted R };

    ghost view = { λ a. record { inner = a.reader; faults = a.faults } };
}

impl<R: Read> StdSource<R> {
    /// The source of what the reader gives.
    pub fn new(reader: R) -> StdSource<R>
        ensures { result ≡ record { inner = reader; faults = 0 } }
    {
        StdSource {
            reader,
            faults: Faults::new(),
        }
    }
}

impl<R: Read> Source for StdSource<R> {
    ghost faults = { λ s. s.faults };

    ghost content = { λ _. None };

    fn read(&mut self, buf: &mut [u8]) -> Result<usize, Failed>
        ensures counted { counts.Counted self.old.faults self.new.faults result }
        ensures ok { IfOk result (λ n. content.Moves None None n buf.old buf.new) }

        // Where it is known what the reader holds, that loses what was moved, and 0 is its end.
        ensures moved { IfOk result (λ n. Consumes
            (R.remaining self.old.inner) (R.remaining self.new.inner) (take n buf.new)) }
        ensures ends { IfOk result (λ n. n ≡ 0 → 0 < length buf.old → IsAtEnd (R.remaining self.new.inner)) }
    {
        match read_some(&mut self.reader, buf) {
            Some(n) => Ok(n),
            None => Err(self.faults.raise()),
        }
    }
}

/// One read, or `None` where it failed. A read that a signal interrupted is tried again.
fn read_some<R: Read>(reader: &mut R, buf: &mut [u8]) -> Option<usize>
    ensures within { IfSome result (λ n. n ≤ length buf.old) }
    ensures moved { IfSome result (λ n. Consumes
        (R.remaining reader.old) (R.remaining reader.new) (take n buf.new)) }
    ensures ends { IfSome result (λ n. n ≡ 0 → 0 < length buf.old → IsAtEnd (R.remaining reader.new)) }
{
    'tries: for _ in 0..u64::MAX {
        match reader.read(buf) {
            Ok(n) => return Some(n),
            Err(error) => {
                if error.kind() != ErrorKind::Interrupted {
                    return None;
                }
            }
        }
    }
    None
}

/// Real output, as a sink that tells nothing of its content: `StdSink::new(io::writer(&rt))`.
#[derive(Drop)]
pub struct StdSink<W: Write> {
    writer: W,
    faults: Faults,
}

impl<W: Write> Model for StdSink<W> {
    ghost use Rattle.ax_io.specs.Adapted as adapted;

    ghost Value = { adapted.Adapted W };

    ghost view = { λ a. record { inner = a.writer; faults = a.faults } };
}

impl<W: Write> StdSink<W> {
    /// The sink that hands its bytes to the writer.
    pub fn new(writer: W) -> StdSink<W>
        ensures { result ≡ record { inner = writer; faults = 0 } }
    {
        StdSink {
            writer,
            faults: Faults::new(),
        }
    }
}

impl<W: Write> Sink for StdSink<W> {
    ghost faults = { λ s. s.faults };

    ghost content = { λ _. None };

    /// Writes all of the bytes, in as many writes as that takes, and flushes the writer, so that a
    /// full or closed output is noticed here. A write that takes nothing is a fault.
    fn put(&mut self, bytes: &[u8]) -> Result<(), Failed>
        ensures counted { counts.Counted self.old.faults self.new.faults result }
        ensures failed { OnErr result (content.TakesFront None None bytes.now) }

        // Where it is known what the writer holds, it holds the bytes too.
        ensures taken { OnOk result (Appends
            (W.contents self.old.inner) (W.contents self.new.inner) bytes.now) }
    {
        if self.writer.write_all(bytes).is_ok() && self.writer.flush().is_ok() {
            return Ok(());
        }
        Err(self.faults.raise())
    }
}
