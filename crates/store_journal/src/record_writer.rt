ghost use Rattle.std.specs.Prelude.{◌≡◌, ◌<◌, ◌+◌, ◌^◌, [], ◌∷◌, ◌++◌, length, IfOk, OnOk};
ghost use Rattle.std.specs.List.{AllByRecursion};
ghost use Rattle.spec_wire.specs.Ranges as ranges;
ghost use Rattle.spec_journal.specs.Records as journal_records;
ghost use Rattle.spec_journal.specs.Journal as journals;
ghost use Rattle.store_journal.specs.Journaled as journaled;

use ax_types::{Entry, NoMemory, NodeId};
use net_wire::{put_entry, put_u64};
use std::alloc::Global;

/// Bytes of a record of the number of entries, and of the longest of the other records without an entry.
const COUNT_BYTES: usize = 9;

const VOTE_BYTES: usize = 10;

/// Bytes in which most entries are spelled with their place.
const ENTRY_BYTES: usize = 64;

/// The record of the number of entries.
fn put_count(out: &mut Vec<u8>, entries: u64) -> Result<(), NoMemory>
    ensures { OnOk result (out.new.items ≡ out.old.items ++ journal_records.record_bytes (journal_records.Count entries)) }
{
    out.push(0x14)?;
    put_u64(out, entries)
}

/// Room for so many bytes, and the record with which an append begins where none of the number of entries stands yet.
fn begun(alloc: Global, counted: bool, entries: u64, room: usize) -> Result<Vec<u8>, NoMemory>
    ensures bytes { IfOk result (λ out. out.items ≡ journals.records_bytes (journaled.first_of counted entries)) }
{
    let mut out = Vec::with_capacity(alloc, room)?;
    if !counted {
        put_count(&mut out, entries)?;
    }
    Ok(out)
}

/// The node that was voted for, or 0.
fn vote_byte(vote: Option<NodeId>) -> u8
    ensures { journal_records.vote_bytes vote ≡ result ∷ [] }
{
    match vote {
        None => 0,
        Some(node) => node.number(),
    }
}

/// What keeping a term and a vote appends.
pub fn vote_bytes(
    alloc: Global,
    counted: bool,
    entries: u64,
    term: u64,
    vote: Option<NodeId>,
) -> Result<Vec<u8>, NoMemory>
    ensures bytes { IfOk result (λ out. out.items ≡ journals.records_bytes (journaled.first_of counted entries ++ journal_records.Vote term vote ∷ [])) }
    ensures fits { OnOk result (journal_records.IsVote vote) }
{
    let mut out = begun(alloc, counted, entries, COUNT_BYTES + VOTE_BYTES)?;
    out.push(0x11)?;
    put_u64(&mut out, term)?;
    out.push(vote_byte(vote))?;
    Ok(out)
}

/// What cutting the log appends.
pub fn cut_bytes(alloc: Global, counted: bool, entries: u64, last: u64) -> Result<Vec<u8>, NoMemory>
    ensures bytes { IfOk result (λ out. out.items ≡ journals.records_bytes (journaled.first_of counted entries ++ journal_records.Cut last ∷ [])) }
{
    let mut out = begun(alloc, counted, entries, COUNT_BYTES + VOTE_BYTES)?;
    out.push(0x12)?;
    put_u64(&mut out, last)?;
    Ok(out)
}

/// An entry with its place.
fn put_placed_entry(out: &mut Vec<u8>, place: u64, entry: &Entry) -> Result<(), NoMemory>
    ensures bytes { OnOk result (out.new.items ≡ out.old.items ++ journal_records.record_bytes (journal_records.Placed place entry.now)) }
    ensures fits { OnOk result (ranges.FitsEntry entry.now) }
{
    out.push(0x15)?;
    put_u64(out, place)?;
    put_entry(out, entry)
}

/// The entries, each with its place, of which the one before the first is `last`.
fn put_placed(out: &mut Vec<u8>, last: u64, entries: &[Entry]) -> Result<(), NoMemory>
    requires { last + length entries.now < 2 ^ 64 }
    ensures bytes { OnOk result (out.new.items ≡ out.old.items ++ journals.records_bytes (journals.placed_records (last + 1) entries.now)) }
    ensures fits { OnOk result (AllByRecursion ranges.FitsEntry entries.now) }
{
    let mut place = last;
    'entries: for entry in entries {
        put_placed_entry(out, place + 1, entry)?;
        place += 1;
    }
    Ok(())
}

/// What adding these entries appends.
pub fn add_bytes(
    alloc: Global,
    counted: bool,
    last: u64,
    entries: &[Entry],
) -> Result<Vec<u8>, NoMemory>
    requires { last + length entries.now < 2 ^ 64 }
    ensures bytes { IfOk result (λ out. out.items ≡ journals.records_bytes (journaled.first_of counted last ++ journals.placed_records (last + 1) entries.now)) }
    ensures fits { OnOk result (AllByRecursion ranges.FitsEntry entries.now) }
{
    let room = COUNT_BYTES.saturating_add(entries.len().saturating_mul(ENTRY_BYTES));
    let mut out = begun(alloc, counted, last, room)?;
    put_placed(&mut out, last, entries)?;
    Ok(out)
}

/// What an upgrade of a journal of version 1 appends.
pub fn count_bytes(alloc: Global, entries: u64) -> Result<Vec<u8>, NoMemory>
    ensures bytes { IfOk result (λ out. out.items ≡ journals.records_bytes (journal_records.Count entries ∷ [])) }
{
    begun(alloc, false, entries, COUNT_BYTES)
}
