ghost use Rattle.std.specs.Prelude.{◌≡◌, ◌≢◌, ℕ, List as Items, [], Option as Maybe};
ghost use Rattle.store_journal.specs.KeeperTold as keepers;

use ax_types::{KeeperError, List};

/// What keeps bytes. Each call that answers `Failed` counts one fault more.
pub trait Keeper: Drop {
    /// The faults so far, as a count that never falls and stands still at 2^64 - 1.
    ghost faults: { Self → ℕ };

    /// The bytes that are kept, where they are told.
    ghost content: { Self → Maybe (Items ℕ) };

    /// Keeps more bytes, behind those that are kept. After `Failed` a strict front of them is kept.
    fn append(&mut self, bytes: &[u8]) -> Result<(), KeeperError>
        requires { bytes.now ≢ [] }
        ensures counted { keepers.KeeperCounted (faults self.old) (faults self.new) result }
        ensures appended { keepers.Appends (content self.old) (content self.new) bytes.now result };

    /// Keeps the first `length` bytes, and no more.
    fn trim(&mut self, length: u64) -> Result<(), KeeperError>
        ensures counted { keepers.KeeperCounted (faults self.old) (faults self.new) result }
        ensures trimmed { keepers.Trims (content self.old) (content self.new) length result };

    /// The bytes that are kept.
    fn bytes(&mut self) -> Result<List<u8>, KeeperError>
        ensures counted { keepers.KeeperCounted (faults self.old) (faults self.new) result }
        ensures bytes { keepers.AreBytes (content self.old) result }
        ensures content { content self.new ≡ content self.old };
}
