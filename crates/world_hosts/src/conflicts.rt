ghost use Rattle.std.specs.Prelude.{◌≡◌, Some, IfOk};
ghost use Rattle.spec_raft.specs.Log as logs;
ghost use Rattle.world_hosts.specs.InConflict as conflicts;

use ax_types::{Entry, List, NoMemory, Payload, ServerInput};
use raft_log::{copies, first_conflict};
use std::alloc::Global;

/// The entries of a log that a step for an input may cut off, which are few and rare: those from the first conflict with an
/// append packet on (Ongaro 2014, 3.5).
pub(crate) fn in_conflict(
    alloc: Global,
    log: &[Entry],
    input: &ServerInput,
) -> Result<List<Entry>, NoMemory>
    ensures { IfOk result (λ tail. tail ≡ conflicts.tail_from log.now (conflicts.conflict_with log.now input.now)) }
{
    match conflict_with(log, input) {
        None => Ok(List::new(alloc)),
        Some(place) => tail_from(alloc, log, place),
    }
}

/// The entries from a place on.
fn tail_from(alloc: Global, log: &[Entry], place: u64) -> Result<List<Entry>, NoMemory>
    ensures { IfOk result (λ tail. tail ≡ conflicts.tail_from log.now (Some place)) }
{
    let start = log.len().min(place.saturating_sub(1) as usize);
    Ok(List::from_vec(copies(alloc, &log[start..])?))
}

/// The place of the first entry of a log that is in conflict with an input.
fn conflict_with(log: &[Entry], input: &ServerInput) -> Option<u64>
    ensures { result ≡ conflicts.conflict_with log.now input.now }
{
    match input {
        ServerInput::Packet { packet, .. } => payload_conflict(log, &packet.payload),
        _ => None,
    }
}

/// The place of the first entry of a log that is in conflict with what is sent.
fn payload_conflict(log: &[Entry], payload: &Payload) -> Option<u64>
    ensures { result ≡ conflicts.payload_conflict log.now payload.now }
{
    match payload {
        Payload::Append { prev, entries, .. } => conflict_behind(log, *prev, entries.as_slice()),
        _ => None,
    }
}

/// The same of entries sent for the places after `prev`, of which the log may have none.
fn conflict_behind(log: &[Entry], prev: u64, sent: &[Entry]) -> Option<u64>
    ensures { result ≡ logs.first_conflict log.now prev sent.now }
{
    if prev > log.len() as u64 {
        return None;
    }
    first_conflict(log, prev, sent)
}
