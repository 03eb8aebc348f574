ghost use Rattle.std.specs.Prelude.{◌≡◌, ◌↔◌, ◌≤◌, ◌++◌, [], None, Some, true, false, length, take, min, unwrap_or, IsErrOf, IsTrue, OnOk, OnErr, IfOk, if◌then◌else◌};
ghost use Rattle.ax_types.specs.Loads as loads;
ghost use Rattle.ax_types.specs.declared.refusals.StoreError.TheVariants as store_error;
ghost use Rattle.ax_io.specs.Count as counts;
ghost use Rattle.spec_node.specs.Saving as saving;
ghost use Rattle.store_journal.specs.StoreTold as stores;
ghost use Rattle.store_journal.specs.MemStores as memory;

use crate::NodeStore;
use crate::calls::Calls;
use ax_types::{Duplicate, Entry, List, Loaded, NoMemory, NodeId, StoreError, Upgraded};
use std::alloc::Global;
use std::marker::Model;

/// Copies of entries.
fn copies(alloc: Global, entries: &[Entry]) -> Result<Vec<Entry>, NoMemory>
    ensures { IfOk result (λ copies. copies.items ≡ entries.now) }
{
    let mut copies = Vec::with_capacity(alloc, entries.len())?;
    'entries: for entry in entries {
        copies.push(entry.copy()?)?;
    }
    Ok(copies)
}

/// A store in memory, which fails at given calls.
#[derive(Drop)]
pub struct MemStore {
    term: u64,
    vote: Option<NodeId>,
    log: Vec<Entry>,
    calls: Calls,
    needs_load: bool,
}

impl Model for MemStore {
    ghost use Rattle.store_journal.specs.MemStores as memory;

    ghost Value = { memory.MemKept };

    ghost view = { λ a. record {
      content = record { term = a.term; vote = a.vote; log = a.log.items };
      calls = a.calls;
      needs_load = a.needs_load;
    } };
}

impl MemStore {
    /// A store that keeps nothing yet. The first of each pair names a call that fails, counted from 1 over all calls of
    /// this store, and the second is the number of entries kept of it, where it adds so many. Of two pairs for one call
    /// the first counts.
    pub fn new(alloc: Global, failing: List<(u64, u64)>) -> MemStore
        ensures { result ≡ record { content = loads.nothing_loaded; calls = record { failing = failing; made = 0; faults = 0 }; needs_load = false } }
    {
        MemStore {
            term: 0,
            vote: None,
            log: Vec::new(alloc),
            calls: Calls::new(failing),
            needs_load: false,
        }
    }

    /// Counts a call, and answers whether it fails. After one that fails the store is in need of a load.
    fn fails(&mut self) -> bool
        ensures fails { result ≡ memory.call_fails self.old.calls }
        ensures content { self.new.content ≡ self.old.content }
        ensures calls { self.new.calls ≡ memory.after_call self.old.calls }
        ensures needs_load { self.new.needs_load ≡ (if result then true else self.old.needs_load) }
        ensures counted { self.old.calls.faults ≤ self.new.calls.faults }
        ensures rises { IsTrue result → counts.Rose self.old.calls.faults self.new.calls.faults }
    {
        if self.calls.next().is_some() {
            self.needs_load = true;
            return true;
        }
        false
    }

    /// Appends copies of entries. The store is unchanged after want of memory.
    fn append(&mut self, entries: &[Entry]) -> Result<(), NoMemory>
        ensures ok { OnOk result (self.new.content ≡ saving.saved self.old.content (saving.Add entries.now)) }
        ensures err { OnErr result (self.new.content ≡ self.old.content) }
        ensures calls { self.new.calls ≡ self.old.calls }
        ensures needs_load { self.new.needs_load ≡ self.old.needs_load }
    {
        let mut added = copies(*self.log.allocator(), entries)?;
        self.log.append(&mut added)?;
        Ok(())
    }

    /// The version of what is kept.
    fn version_found(&self) -> u8
        ensures { result ≡ memory.version_of_kept self.now.content }
    {
        if self.term == 0 && self.vote.is_none() && self.log.is_empty() {
            0
        } else {
            2
        }
    }
}

impl NodeStore for MemStore {
    ghost use Rattle.store_journal.specs.StoreTold as stores;
    ghost use Rattle.store_journal.specs.MemStores as memory;

    ghost faults = { λ s. s.calls.faults };

    ghost told = { λ s. stores.Content s.content };

    ghost version = { λ s. memory.version_of_kept s.content };

    ghost needs_load = { λ s. s.needs_load };

    fn load(&mut self) -> Result<Loaded, StoreError>
        ensures counted { stores.StoreCounted self.old.calls.faults self.new.calls.faults result }
        ensures loaded { stores.IsLoaded (stores.Content self.old.content) result }
        ensures told { stores.Content self.new.content ≡ stores.Content self.old.content }
        ensures version { memory.version_of_kept self.new.content ≡ memory.version_of_kept self.old.content }
        ensures ready { OnOk result (self.new.needs_load ≡ false) }
        ensures failed { IsErrOf result store_error.Failed → self.new.needs_load ≡ true }

        ensures named { IsErrOf result store_error.Failed ↔ IsTrue (memory.call_fails self.old.calls) }
        ensures calls { self.new.calls ≡ memory.after_call self.old.calls }
    {
        if self.fails() {
            return Err(StoreError::Failed);
        }
        let log = List::from_vec(copies(*self.log.allocator(), &self.log)?);
        self.needs_load = false;
        Ok(Loaded {
            term: self.term,
            vote: self.vote,
            log,
        })
    }

    fn set_vote(&mut self, term: u64, vote: Option<NodeId>) -> Result<(), StoreError>
        requires loaded { self.old.needs_load ≡ false }
        ensures counted { stores.StoreCounted self.old.calls.faults self.new.calls.faults result }
        ensures saved { stores.Saves (saving.Vote term vote) (stores.Content self.old.content) (stores.Content self.new.content) result }
        ensures ready { OnOk result (self.new.needs_load ≡ false) }
        ensures failed { IsErrOf result store_error.Failed → self.new.needs_load ≡ true }

        ensures named { IsErrOf result store_error.Failed ↔ IsTrue (memory.call_fails self.old.calls) }
        ensures calls { self.new.calls ≡ memory.after_call self.old.calls }
    {
        if self.fails() {
            return Err(StoreError::Failed);
        }
        self.term = term;
        self.vote = vote;
        Ok(())
    }

    fn cut(&mut self, last: u64) -> Result<(), StoreError>
        requires loaded { self.old.needs_load ≡ false }
        requires within { stores.CutsWithin (stores.Content self.old.content) last }
        ensures counted { stores.StoreCounted self.old.calls.faults self.new.calls.faults result }
        ensures saved { stores.Saves (saving.Cut last) (stores.Content self.old.content) (stores.Content self.new.content) result }
        ensures ready { OnOk result (self.new.needs_load ≡ false) }
        ensures failed { IsErrOf result store_error.Failed → self.new.needs_load ≡ true }

        ensures named { IsErrOf result store_error.Failed ↔ IsTrue (memory.call_fails self.old.calls) }
        ensures calls { self.new.calls ≡ memory.after_call self.old.calls }
    {
        if self.fails() {
            return Err(StoreError::Failed);
        }
        self.log.truncate(last as usize);
        Ok(())
    }

    /// Of a call that fails the entries are kept up to its number, or none where memory is wanting.
    fn add(&mut self, entries: &[Entry]) -> Result<(), StoreError>
        requires loaded { self.old.needs_load ≡ false }
        ensures counted { stores.StoreCounted self.old.calls.faults self.new.calls.faults result }
        ensures saved { stores.Saves (saving.Add entries.now) (stores.Content self.old.content) (stores.Content self.new.content) result }
        ensures ready { OnOk result (self.new.needs_load ≡ false) }
        ensures failed { IsErrOf result store_error.Failed → self.new.needs_load ≡ true }

        ensures named { IsErrOf result store_error.Failed ↔ IsTrue (memory.call_fails self.old.calls) }
        ensures calls { self.new.calls ≡ memory.after_call self.old.calls }
    {
        match self.calls.next() {
            None => {
                self.append(entries)?;
                Ok(())
            }
            Some(kept) => {
                self.needs_load = true;
                let count = entries.len().min(kept as usize);
                let _ = self.append(&entries[..count]);
                Err(StoreError::Failed)
            }
        }
    }

    fn upgrade(&mut self) -> Result<Upgraded, StoreError>
        ensures counted { stores.StoreCounted self.old.calls.faults self.new.calls.faults result }
        ensures upgraded { stores.Upgrades (stores.Content self.old.content) (memory.version_of_kept self.old.content) (memory.version_of_kept self.new.content) result }
        ensures told { stores.Content self.new.content ≡ stores.Content self.old.content }
        ensures ready { OnOk result (self.new.needs_load ≡ false) }
        ensures failed { IsErrOf result store_error.Failed → self.new.needs_load ≡ true }

        ensures named { IsErrOf result store_error.Failed ↔ IsTrue (memory.call_fails self.old.calls) }
        ensures calls { self.new.calls ≡ memory.after_call self.old.calls }
    {
        if self.fails() {
            return Err(StoreError::Failed);
        }
        self.needs_load = false;
        Ok(Upgraded {
            version: self.version_found(),
            entries: self.log.len() as u64,
        })
    }
}
