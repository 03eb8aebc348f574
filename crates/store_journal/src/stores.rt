ghost use Rattle.std.specs.Prelude.{◌≡◌, ℕ, Bool, true, false, length, IfOk, OnOk, IsErrOf};
ghost use Rattle.ax_types.specs.declared.refusals.StoreError.TheVariants as store_error;
ghost use Rattle.spec_node.specs.Saving as saving;
ghost use Rattle.store_journal.specs.StoreTold as stores;

use ax_types::{Entry, Loaded, NodeId, StoreError, Upgraded};

/// What keeps a node's term, vote and log over its halts (Ongaro 2014, 3.8). Each call that answers `Failed` counts one
/// fault more. After it the store is in need of a load.
pub trait NodeStore: Drop {
    /// The faults so far, as a count that never falls and stands still at 2^64 - 1.
    ghost faults: { Self → ℕ };

    /// What is kept, where it is told.
    ghost told: { Self → stores.Told };

    /// The version of what is kept, where that is told: 0 of nothing.
    ghost version: { Self → ℕ };

    /// Whether the store has to be loaded before anything is kept in it.
    ghost needs_load: { Self → Bool };

    /// The kept term, vote and log.
    fn load(&mut self) -> Result<Loaded, StoreError>
        ensures counted { stores.StoreCounted (faults self.old) (faults self.new) result }
        ensures loaded { stores.IsLoaded (told self.old) result }
        ensures told { told self.new ≡ told self.old }
        ensures version { version self.new ≡ version self.old }
        ensures ready { OnOk result (needs_load self.new ≡ false) }
        ensures failed { IsErrOf result store_error.Failed → needs_load self.new ≡ true };

    /// Keeps a term and the vote in it.
    fn set_vote(&mut self, term: u64, vote: Option<NodeId>) -> Result<(), StoreError>
        requires loaded { needs_load self.old ≡ false }
        ensures counted { stores.StoreCounted (faults self.old) (faults self.new) result }
        ensures saved { stores.Saves (saving.Vote term vote) (told self.old) (told self.new) result }
        ensures ready { OnOk result (needs_load self.new ≡ false) }
        ensures failed { IsErrOf result store_error.Failed → needs_load self.new ≡ true };

    /// Keeps the log up to its entry `last`, and no more of it.
    fn cut(&mut self, last: u64) -> Result<(), StoreError>
        requires loaded { needs_load self.old ≡ false }
        requires within { stores.CutsWithin (told self.old) last }
        ensures counted { stores.StoreCounted (faults self.old) (faults self.new) result }
        ensures saved { stores.Saves (saving.Cut last) (told self.old) (told self.new) result }
        ensures ready { OnOk result (needs_load self.new ≡ false) }
        ensures failed { IsErrOf result store_error.Failed → needs_load self.new ≡ true };

    /// Keeps more entries, behind those of the log. After `Failed` the first of them may be kept.
    fn add(&mut self, entries: &[Entry]) -> Result<(), StoreError>
        requires loaded { needs_load self.old ≡ false }
        ensures counted { stores.StoreCounted (faults self.old) (faults self.new) result }
        ensures saved { stores.Saves (saving.Add entries.now) (told self.old) (told self.new) result }
        ensures ready { OnOk result (needs_load self.new ≡ false) }
        ensures failed { IsErrOf result store_error.Failed → needs_load self.new ≡ true };

    /// Loads the store, and brings what it keeps to the newest version. Answers the version that was found, and the
    /// number of entries.
    fn upgrade(&mut self) -> Result<Upgraded, StoreError>
        ensures counted { stores.StoreCounted (faults self.old) (faults self.new) result }
        ensures upgraded { stores.Upgrades (told self.old) (version self.old) (version self.new) result }
        ensures told { told self.new ≡ told self.old }
        ensures ready { OnOk result (needs_load self.new ≡ false) }
        ensures failed { IsErrOf result store_error.Failed → needs_load self.new ≡ true };
}
