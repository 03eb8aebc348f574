ghost use Rattle.std.specs.Prelude.{◌≡◌, ℕ, ◌+◌, ◌-◌, ◌^◌, ◌≤◌, ◌<◌, [], ◌∷◌, ◌++◌, Some, length, drop, IfOk, IfErr, OnOk, OnErr};
ghost use Rattle.std.specs.Option.{option_copied};
ghost use Rattle.ax_types.specs.Places as lists;
ghost use Rattle.spec_raft.specs.Log as logs;

use ax_types::limits::MAX_APPEND;
use ax_types::{Change, Duplicate, Entry, List, NoMemory};
use std::alloc::Global;
use std::marker::Model;

/// The entries of a node by their places, from 1, which contracts see as their list (Ongaro 2014, 3.5).
#[derive(Drop)]
pub struct Log {
    entries: Vec<Entry>,
}

impl Model for Log {
    ghost use Rattle.std.specs.Prelude.{List as Items};
    ghost use Rattle.ax_types.specs.declared.entries.Entry.{Entry};

    ghost Value = { Items Entry };

    ghost view = { λ a. a.entries.items };
}

impl Log {
    /// No entry. It takes no memory.
    pub fn new(alloc: Global) -> Self
        ensures { result ≡ [] }
    {
        Log {
            entries: Vec::new(alloc),
        }
    }

    /// The log of these entries.
    pub fn from_entries(entries: List<Entry>) -> Self
        ensures { result ≡ entries }
    {
        Log {
            entries: entries.into_vec(),
        }
    }

    /// The entries. It takes no memory.
    pub fn into_entries(self) -> List<Entry>
        ensures { result ≡ self }
    {
        List::from_vec(self.entries)
    }

    /// The entries, from the first to the last.
    pub fn as_slice(&self) -> &[Entry]
        ensures { result.now ≡ self.now }
    {
        self.entries.as_slice()
    }

    /// The place of the last entry, 0 where there is none.
    pub fn last(&self) -> u64
        ensures last { result ≡ length self.now }
        ensures small { result < 2 ^ 63 }
    {
        self.entries.len() as u64
    }

    /// The entry at a place, where there is one.
    fn at(&self, place: u64) -> Option<&Entry>
        ensures { option_copied result ≡ lists.at_place self.now place }
    {
        if place == 0 || place > self.last() {
            return None;
        }
        self.entries.get(place as usize - 1)
    }

    /// The term of the entry at a place, 0 where there is none.
    pub fn term_at(&self, place: u64) -> u64
        ensures { result ≡ logs.term_at self.now place }
    {
        match self.at(place) {
            None => 0,
            Some(entry) => entry.term,
        }
    }

    /// The term of the last entry, 0 where there is none.
    pub fn last_term(&self) -> u64
        ensures { result ≡ logs.last_term self.now }
    {
        self.term_at(self.last())
    }

    /// The time of the last entry, 0 where there is none.
    pub fn last_time(&self) -> u64
        ensures { result ≡ logs.last_time self.now }
    {
        match self.at(self.last()) {
            None => 0,
            Some(entry) => entry.time,
        }
    }

    /// The entry at a place.
    pub fn entry(&self, place: u64) -> &Entry
        requires above { 1 ≤ place }
        requires within { place ≤ length self.now }
        ensures { lists.at_place self.now place ≡ Some result.now }
    {
        &self.entries[place as usize - 1]
    }

    /// Appends an entry, and answers its place. After want of memory the log is unchanged, and the entry comes back.
    pub fn append(&mut self, entry: Entry) -> Result<u64, Entry>
        ensures place { IfOk result (λ place. place ≡ length self.new) }
        ensures ok { OnOk result (self.new ≡ self.old ++ entry ∷ []) }
        ensures back { IfErr result (λ back. back ≡ entry) }
        ensures err { OnErr result (self.new ≡ self.old) }
    {
        match self.entries.push(entry) {
            Ok(()) => Ok(self.last()),
            Err(refused) => Err(refused.value),
        }
    }

    /// Whether the log holds the entry before those of an append packet: one of this term at this place. Place 0
    /// always matches (Ongaro 2014, 3.5).
    pub fn match_at(&self, prev: u64, prev_term: u64) -> bool
        ensures { result ≡ logs.match_at self.now prev prev_term }
    {
        prev == 0 || (prev <= self.last() && self.term_at(prev) == prev_term)
    }

    /// Whether a log so described is at least as up to date as this one (Ongaro 2014, 3.6.1).
    pub fn newer_or_equal(&self, last_term: u64, last: u64) -> bool
        ensures { result ≡ logs.newer_or_equal self.now last_term last }
    {
        self.last_term() < last_term || (last_term == self.last_term() && self.last() <= last)
    }

    /// The place of the first entry whose term is not that of the one sent for it, where these were sent for the places
    /// after `prev`.
    pub fn first_conflict(&self, prev: u64, sent: &[Entry]) -> Option<u64>
        requires { prev ≤ length self.now }
        ensures { result ≡ logs.first_conflict self.now prev sent.now }
    {
        first_conflict(self.entries.as_slice(), prev, sent)
    }

    /// Cuts the entry at a place and all after it, where a place is given, and then adds entries. The log is unchanged
    /// after want of memory.
    pub fn replace(&mut self, cut: Option<u64>, mut added: Vec<Entry>) -> Result<(), NoMemory>
        ensures ok { OnOk result (self.new ≡ logs.cut_before self.old cut ++ added.items) }
        ensures err { OnErr result (self.new ≡ self.old) }
    {
        self.entries.reserve(added.len())?;
        if let Some(place) = cut {
            self.entries.truncate(place.saturating_sub(1) as usize);
        }
        self.entries.append(&mut added)?;
        Ok(())
    }

    /// Makes the log hold the entries sent for the places after `prev`, the first of them in conflict at `cut`: that one
    /// and all after it are cut, and those that are lacking added (Ongaro 2014, 3.5). Answers copies of those that were
    /// lacking. The log is unchanged after want of memory.
    pub fn hold(
        &mut self,
        prev: u64,
        cut: Option<u64>,
        sent: Vec<Entry>,
    ) -> Result<Vec<Entry>, NoMemory>
        requires { cut ≡ logs.first_conflict self.old prev sent.items }
        ensures added { IfOk result (λ added. added.items ≡ logs.added self.old prev sent.items) }
        ensures ok { OnOk result (self.new ≡ logs.cut_and_added self.old prev sent.items) }
        ensures err { OnErr result (self.new ≡ self.old) }
    {
        let alloc = *self.entries.allocator();
        let held = self.held_after(prev, cut).min(sent.len());
        let lacking = without_first(sent, held)?;
        let added = copies(alloc, lacking.as_slice())?;
        self.replace(cut, lacking)?;
        Ok(added)
    }

    /// Makes the log hold the entries sent for the places after `prev`: those in conflict with them are cut, and those
    /// that are lacking added (Ongaro 2014, 3.5). The log is unchanged after want of memory.
    pub fn cut_and_add(&mut self, prev: u64, sent: &[Entry]) -> Result<Change, NoMemory>
        requires { prev ≤ length self.old }
        ensures change { IfOk result (λ change. change ≡ logs.change_of self.old prev sent.now) }
        ensures ok { OnOk result (self.new ≡ logs.cut_and_added self.old prev sent.now) }
        ensures err { OnErr result (self.new ≡ self.old) }
    {
        let cut = self.first_conflict(prev, sent);
        let held = self.held_after(prev, cut).min(sent.len());
        let added = copies(*self.entries.allocator(), &sent[held..])?;
        let change = Change {
            cut,
            added: added.len() as u64,
        };
        self.replace(cut, added)?;
        Ok(change)
    }

    /// How many entries stand after a place, where the one at another and all after it are cut.
    pub fn held_after(&self, prev: u64, cut: Option<u64>) -> usize
        ensures { result ≡ length (logs.cut_before self.now cut) - prev }
    {
        let stay = match cut {
            None => self.last(),
            Some(place) => self.last().min(place.saturating_sub(1)),
        };
        stay.saturating_sub(prev) as usize
    }

    /// Copies of the entries from a place on, at most 16.
    pub fn run_from(&self, place: u64) -> Result<List<Entry>, NoMemory>
        ensures { IfOk result (λ run. run ≡ logs.run_from self.now place) }
    {
        let start = place.saturating_sub(1).min(self.last()) as usize;
        let rest = &self.entries.as_slice()[start..];
        let run = copies(
            *self.entries.allocator(),
            &rest[..MAX_APPEND.min(rest.len())],
        )?;
        Ok(List::from_vec(run))
    }
}

impl Duplicate for Log {
    fn copy(&self) -> Result<Log, NoMemory> {
        let entries = copies(*self.entries.allocator(), self.entries.as_slice())?;
        Ok(Log { entries })
    }
}

/// The place of the first of these entries of a log whose term is not that of the one sent for it, where those sent are for
/// the places after `prev`.
pub fn first_conflict(entries: &[Entry], prev: u64, sent: &[Entry]) -> Option<u64>
    requires { prev ≤ length entries.now }
    ensures { result ≡ logs.first_conflict entries.now prev sent.now }
{
    let own = &entries[prev as usize..];
    'pairs: for i in 0..own.len().min(sent.len()) {
        if own[i].term != sent[i].term {
            return Some(prev + i as u64 + 1);
        }
    }
    None
}

/// The entries without so many of the first. They are copied only where there are some to leave out.
fn without_first(entries: Vec<Entry>, held: usize) -> Result<Vec<Entry>, NoMemory>
    requires { held ≤ length entries.items }
    ensures { IfOk result (λ rest. rest.items ≡ drop held entries.items) }
{
    if held == 0 {
        return Ok(entries);
    }
    copies(*entries.allocator(), &entries[held..])
}

/// Copies of entries, in their order.
pub fn copies(alloc: Global, entries: &[Entry]) -> Result<Vec<Entry>, NoMemory>
    ensures { IfOk result (λ others. others.items ≡ entries.now) }
{
    let mut others = Vec::with_capacity(alloc, entries.len())?;
    'entries: for entry in entries {
        others.push(entry.copy()?)?;
    }
    Ok(others)
}
