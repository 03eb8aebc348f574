ghost use Rattle.std.specs.Prelude.{◌≡◌, IfOk, OnOk, IsTrue};
ghost use Rattle.spec_wire.specs.Ranges as ranges;
ghost use Rattle.spec_wire.specs.Spelling as spelling;
ghost use Rattle.spec_reading.specs.Packets as packets;

use crate::reader::Reader;
use crate::unread::Unread;
use crate::writer::{put_entry, put_payload};
use ax_types::{Entry, List, NoMemory, Payload};
use std::alloc::Global;

/// Bytes that most spellings have room in.
const FIRST_ROOM: usize = 128;

/// The spelling of a payload. Each value of the type is within its ranges, so it is read again.
pub fn write(alloc: Global, payload: &Payload) -> Result<List<u8>, NoMemory>
    requires { IsTrue (spelling.is_spelled payload.now) }
    ensures bytes { IfOk result (λ bytes. bytes ≡ spelling.payload_bytes payload.now) }
    ensures fits { OnOk result (ranges.FitsPayload payload.now) }
{
    let mut out = Vec::with_capacity(alloc, FIRST_ROOM)?;
    put_payload(&mut out, payload)?;
    Ok(List::from_vec(out))
}

/// The spelling of an entry. Each value of the type is within its ranges, so it is read again.
pub fn write_entry(alloc: Global, entry: &Entry) -> Result<List<u8>, NoMemory>
    ensures bytes { IfOk result (λ bytes. bytes ≡ spelling.entry_bytes entry.now) }
    ensures fits { OnOk result (ranges.FitsEntry entry.now) }
{
    let mut out = Vec::with_capacity(alloc, FIRST_ROOM)?;
    put_entry(&mut out, entry)?;
    Ok(List::from_vec(out))
}

/// The payload with whose spelling the bytes begin, and how many bytes it has; `None` exactly where no front of the bytes
/// is a spelling.
pub fn read(alloc: Global, bytes: &[u8]) -> Result<Option<(Payload, usize)>, NoMemory>
    ensures { IfOk result (λ found. found ≡ packets.payload_read bytes.now) }
{
    let mut reader = Reader::new(alloc, bytes);
    match reader.read_payload() {
        Ok(payload) => Ok(Some((payload, bytes.len().saturating_sub(reader.left())))),
        Err(Unread::NoMemory) => Err(NoMemory),
        Err(_) => Ok(None),
    }
}

/// The entry with whose spelling the bytes begin, and how many bytes it has; `None` exactly where no front of the bytes
/// is a spelling.
pub fn read_entry(alloc: Global, bytes: &[u8]) -> Result<Option<(Entry, usize)>, NoMemory>
    ensures { IfOk result (λ found. found ≡ packets.entry_read bytes.now) }
{
    let mut reader = Reader::new(alloc, bytes);
    match reader.read_entry() {
        Ok(entry) => Ok(Some((entry, bytes.len().saturating_sub(reader.left())))),
        Err(Unread::NoMemory) => Err(NoMemory),
        Err(_) => Ok(None),
    }
}
