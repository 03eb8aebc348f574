ghost use Rattle.std.specs.Prelude.{◌≡◌, true, IfOk, OnOk, IsTrue};
ghost use Rattle.spec_wire.specs.Ranges as ranges;
ghost use Rattle.spec_wire.specs.Spelling as spelling;
ghost use Rattle.spec_reading.specs.Reading as reading;
ghost use Rattle.spec_reading.specs.Packets as packets;
ghost use Rattle.net_arrival.specs.Arrivals as arrivals;

use ax_types::limits::MAX_APPEND;
use ax_types::{Level, NoMemory, Payload, Reply};
use net_wire::{put_payload, read};
use std::alloc::Global;

/// Whether the count of a list of members fits its four bytes.
fn reply_is_spelled(reply: &Reply) -> bool
    ensures { result ≡ spelling.reply_is_spelled reply.now }
{
    match reply {
        Reply::Members(sessions) => (sessions.len() as u64) < 0x1_0000_0000,
        _ => true,
    }
}

/// Whether an answer at this level may name this term and this arrival.
fn reach_is_spelled(level: Level, term: u64, arrival: u64) -> bool
    ensures { result ≡ spelling.reach_is_spelled level term arrival }
{
    match level {
        Level::Seq => term == 0 && arrival == 0,
        Level::Lin => true,
    }
}

/// Whether a payload has a spelling.
fn is_spelled(payload: &Payload) -> bool
    ensures { result ≡ spelling.is_spelled payload.now }
{
    match payload {
        Payload::Append { entries, .. } => entries.len() <= MAX_APPEND,
        Payload::Reply { reply, .. } => reply_is_spelled(reply),
        Payload::Answer {
            level,
            term,
            arrival,
            reply,
            ..
        } => reach_is_spelled(*level, *term, *arrival) && reply_is_spelled(reply),
        Payload::Batch { events, .. } => {
            1 <= events.len() && (events.len() as u64) < 0x1_0000_0000
        }
        _ => true,
    }
}

/// The bytes of a payload, in place of what the buffer held.
fn spell(buffer: &mut Vec<u8>, payload: &Payload) -> Result<(), NoMemory>
    requires { IsTrue (spelling.is_spelled payload.now) }
    ensures bytes { OnOk result (buffer.new.items ≡ spelling.payload_bytes payload.now) }
    ensures are_bytes { OnOk result (reading.IsBytes buffer.new.items) }
    ensures fits { OnOk result (ranges.FitsPayload payload.now) }
{
    buffer.clear();
    put_payload(buffer, payload)
}

/// Keeps the first so many bytes alone, where a number is given.
fn cut_to(buffer: &mut Vec<u8>, most: Option<u64>)
    ensures { buffer.new.items ≡ arrivals.front most buffer.old.items }
{
    if let Some(bytes) = most {
        buffer.truncate(bytes as usize);
    }
}

/// The payload that the bytes are, where they are one.
fn whole(alloc: Global, bytes: &[u8]) -> Result<Option<Payload>, NoMemory>
    ensures { IfOk result (λ whole. whole ≡ arrivals.payload_in (packets.payload_read bytes.now)) }
{
    match read(alloc, bytes)? {
        Some((payload, _)) => Ok(Some(payload)),
        None => Ok(None),
    }
}

#[tactic(auto, using(crate::proofs::Arrived::arrives))]
/// What arrives of a payload: it is spelled, in a buffer that is left with the bytes, cut where only so many of them arrive, and
/// read. A payload without a spelling is never sent, and counts as want of memory.
pub fn arrive(
    alloc: Global,
    buffer: &mut Vec<u8>,
    payload: &Payload,
    most: Option<u64>,
) -> Result<Option<Payload>, NoMemory>
    ensures { IfOk result (λ arrived. arrived ≡ arrivals.arrived most payload.now) }
{
    if !is_spelled(payload) {
        return Err(NoMemory);
    }
    spell(buffer, payload)?;
    cut_to(buffer, most);
    whole(alloc, buffer.as_slice())
}
