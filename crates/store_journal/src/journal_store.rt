ghost use Rattle.std.specs.Prelude.{◌≡◌, ◌≢◌, ◌++◌, [], true, false, length, OnOk, IsErrOf};
ghost use Rattle.ax_types.specs.declared.refusals.StoreError.TheVariants as store_error;
ghost use Rattle.ax_io.specs.Content as contents;
ghost use Rattle.spec_reading.specs.Reading as reading;
ghost use Rattle.spec_node.specs.Saving as saving;
ghost use Rattle.spec_journal.specs.Journal as journals;
ghost use Rattle.store_journal.specs.StoreTold as stores;
ghost use Rattle.store_journal.specs.KeeperTold as keepers;
ghost use Rattle.store_journal.specs.Journaled as journaled;

use crate::reading::{Journal, read_journal};
use crate::record_writer::{add_bytes, count_bytes, cut_bytes, vote_bytes};
use crate::{Keeper, NodeStore};
use ax_types::{Entry, KeeperError, Loaded, NodeId, StoreError, Upgraded};
use std::alloc::Global;
use std::marker::Model;

/// Keeps the bytes of the whole records alone, of these bytes that are kept.
fn trim_to<K: Keeper>(keeper: &mut K, bytes: &[u8], whole: u64) -> Result<(), KeeperError>
    requires told { keepers.AreBytes (K.content keeper.old) (Ok bytes.now) }
    requires whole { whole ≡ journals.whole (journals.records_of bytes.now) }
    requires part { (journals.journal_of bytes.now).why ≡ reading.Part }
    ensures counted { keepers.KeeperCounted (K.faults keeper.old) (K.faults keeper.new) result }
    ensures read { OnOk result (journaled.IsWholeTold (K.content keeper.new) (journals.has_count (journals.records_of bytes.now)) (length (journals.content (journals.records_of bytes.now)).log)) }
    ensures same { journaled.AreSameRecords (K.content keeper.old) (K.content keeper.new) }
{
    if whole < bytes.len() as u64 {
        return keeper.trim(whole);
    }
    Ok(())
}

/// A store over a keeper of bytes, which are a journal of version 2, or of version 1 where nothing was kept in it since.
#[derive(Drop)]
pub struct JournalStore<K: Keeper> {
    alloc: Global,
    keeper: K,
    /// Whether a record of the number of entries stands, and that number: after a load.
    counted: bool,
    entries: u64,
    needs_load: bool,
}

impl<K: Keeper> Model for JournalStore<K> {
    ghost use Rattle.std.specs.Prelude.{◌≡◌, false};
    ghost use Rattle.store_journal.specs.Journaled as journaled;

    ghost Value = { journaled.Journaled K };

    ghost view = { λ a. record { keeper = a.keeper; needs_load = a.needs_load } };

    ghost invariant = { λ a. a.needs_load ≡ false → journaled.IsWholeTold (K.content a.keeper) a.counted a.entries };
}

impl<K: Keeper> JournalStore<K> {
    /// A store over the bytes of this keeper, in need of a load.
    pub fn new(alloc: Global, keeper: K) -> JournalStore<K>
        ensures { result ≡ record { keeper = keeper; needs_load = true } }
    {
        JournalStore {
            alloc,
            keeper,
            counted: false,
            entries: 0,
            needs_load: true,
        }
    }

    /// Reads the journal, and trims what stands behind its whole records.
    fn read(&mut self) -> Result<Journal, StoreError>
        ensures counted { stores.StoreCounted (K.faults self.old.keeper) (K.faults self.new.keeper) result }
        ensures read { journaled.IsRead (K.content self.old.keeper) result }
        ensures same { journaled.AreSameRecords (K.content self.old.keeper) (K.content self.new.keeper) }
        ensures ready { OnOk result (self.new.needs_load ≡ false) }
        ensures failed { IsErrOf result store_error.Failed → self.new.needs_load ≡ true }
    {
        self.needs_load = true;
        let bytes = self.keeper.bytes()?;
        let journal = read_journal(self.alloc, bytes.as_slice())?;
        if journal.is_bad {
            return Err(StoreError::Bad { at: journal.whole });
        }
        trim_to(&mut self.keeper, bytes.as_slice(), journal.whole)?;
        self.counted = journal.left.is_counted();
        self.entries = journal.left.entries();
        self.needs_load = false;
        Ok(journal)
    }

    /// Appends records, behind which so many entries stand.
    fn append(&mut self, bytes: &[u8], entries: u64) -> Result<(), StoreError>
        requires loaded { self.old.needs_load ≡ false }
        requires some { bytes.now ≢ [] }
        requires whole { reading.IsBytes bytes.now → journaled.IsWholeTold (contents.append_told (K.content self.old.keeper) bytes.now) true entries }
        ensures counted { stores.StoreCounted (K.faults self.old.keeper) (K.faults self.new.keeper) result }
        ensures appended { journaled.Appended (K.content self.old.keeper) (K.content self.new.keeper) bytes.now result }
        ensures are_bytes { reading.IsBytes bytes.now }
        ensures ready { OnOk result (self.new.needs_load ≡ false) }
        ensures failed { IsErrOf result store_error.Failed → self.new.needs_load ≡ true }
    {
        self.needs_load = true;
        match self.keeper.append(bytes) {
            Ok(()) => {
                self.counted = true;
                self.entries = entries;
                self.needs_load = false;
                Ok(())
            }
            Err(KeeperError::Failed) => Err(StoreError::Failed),
            Err(KeeperError::NoMemory) => {
                self.needs_load = false;
                Err(StoreError::NoMemory)
            }
        }
    }

    /// Appends the record of the number of entries.
    fn append_count(&mut self) -> Result<(), StoreError>
        requires loaded { self.old.needs_load ≡ false }
        requires plain { journaled.IsPlainTold (K.content self.old.keeper) }
        ensures counted { stores.StoreCounted (K.faults self.old.keeper) (K.faults self.new.keeper) result }
        ensures told { journaled.journal_told (K.content self.new.keeper) ≡ journaled.journal_told (K.content self.old.keeper) }
        ensures version { OnOk result (journaled.IsCountedTold (K.content self.old.keeper) (K.content self.new.keeper)) }
        ensures not_bad { journaled.IsNotBad result }
        ensures ready { OnOk result (self.new.needs_load ≡ false) }
        ensures failed { IsErrOf result store_error.Failed → self.new.needs_load ≡ true }
    {
        let entries = self.entries;
        let out = count_bytes(self.alloc, entries)?;
        let bytes = out.as_slice();
        self.append(bytes, entries)
    }
}

impl<K: Keeper> NodeStore for JournalStore<K> {
    ghost use Rattle.store_journal.specs.Journaled as journaled;

    ghost faults = { λ s. K.faults s.keeper };

    ghost told = { λ s. journaled.journal_told (K.content s.keeper) };

    ghost version = { λ s. journaled.version_told (K.content s.keeper) };

    ghost needs_load = { λ s. s.needs_load };

    fn load(&mut self) -> Result<Loaded, StoreError> {
        Ok(self.read()?.left.into_loaded())
    }

    fn set_vote(&mut self, term: u64, vote: Option<NodeId>) -> Result<(), StoreError> {
        let entries = self.entries;
        let out = vote_bytes(self.alloc, self.counted, entries, term, vote)?;
        let bytes = out.as_slice();
        self.append(bytes, entries)
    }

    fn cut(&mut self, last: u64) -> Result<(), StoreError> {
        let entries = self.entries;
        let out = cut_bytes(self.alloc, self.counted, entries, last)?;
        let bytes = out.as_slice();
        self.append(bytes, last.min(entries))
    }

    /// Of a call that fails the first entries may be kept. Places beyond their type count as want of memory.
    fn add(&mut self, entries: &[Entry]) -> Result<(), StoreError> {
        if entries.is_empty() {
            return Ok(());
        }
        let Some(last) = self.entries.checked_add(entries.len() as u64) else {
            return Err(StoreError::NoMemory);
        };
        let out = add_bytes(self.alloc, self.counted, self.entries, entries)?;
        let bytes = out.as_slice();
        self.append(bytes, last)
    }

    fn upgrade(&mut self) -> Result<Upgraded, StoreError> {
        let journal = self.read()?;
        let version = journal.version();
        if version == 1 {
            self.append_count()?;
        }
        Ok(Upgraded {
            version,
            entries: journal.left.entries(),
        })
    }
}
