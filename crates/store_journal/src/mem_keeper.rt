ghost use Rattle.std.specs.Prelude.{◌≡◌, ◌≢◌, ◌↔◌, [], Some, IsErrOf, IsTrue};
ghost use Rattle.ax_types.specs.declared.refusals.KeeperError.TheVariants as keeper_error;
ghost use Rattle.store_journal.specs.KeeperTold as keepers;
ghost use Rattle.store_journal.specs.MemStores as memory;

use crate::Keeper;
use crate::calls::Calls;
use ax_types::{KeeperError, List};
use std::alloc::Global;
use std::marker::Model;

/// A keeper of bytes in memory, which fails at given calls.
#[derive(Drop)]
pub struct MemKeeper {
    content: Vec<u8>,
    calls: Calls,
}

impl Model for MemKeeper {
    ghost use Rattle.store_journal.specs.MemStores as memory;

    ghost Value = { memory.MemBytes };

    ghost view = { λ a. record { content = a.content.items; calls = a.calls } };
}

impl MemKeeper {
    /// A keeper of no bytes yet. The first of each pair names a call that fails, counted from 1 over all calls of this
    /// keeper, and the second is the number of bytes kept of it, where it appends more. Of two pairs for one call the
    /// first counts.
    pub fn new(alloc: Global, failing: List<(u64, u64)>) -> MemKeeper
        ensures { result ≡ record { content = []; calls = record { failing = failing; made = 0; faults = 0 } } }
    {
        MemKeeper {
            content: Vec::new(alloc),
            calls: Calls::new(failing),
        }
    }
}

impl Keeper for MemKeeper {
    ghost use Rattle.store_journal.specs.MemStores as memory;
    ghost use Rattle.std.specs.Prelude.{Some};

    ghost faults = { λ k. k.calls.faults };

    ghost content = { λ k. Some k.content };

    /// Of a call that fails the bytes are kept up to its number, or none where memory is wanting.
    fn append(&mut self, bytes: &[u8]) -> Result<(), KeeperError>
        requires { bytes.now ≢ [] }
        ensures counted { keepers.KeeperCounted self.old.calls.faults self.new.calls.faults result }
        ensures appended { keepers.Appends (Some self.old.content) (Some self.new.content) bytes.now result }

        ensures named { IsErrOf result keeper_error.Failed ↔ IsTrue (memory.call_fails self.old.calls) }
        ensures calls { self.new.calls ≡ memory.after_call self.old.calls }
    {
        match self.calls.next() {
            None => {
                if self.content.extend_from_slice(bytes).is_err() {
                    return Err(KeeperError::NoMemory);
                }
                Ok(())
            }
            Some(kept) => {
                let count = (bytes.len() - 1).min(kept as usize);
                let _ = self.content.extend_from_slice(&bytes[..count]);
                Err(KeeperError::Failed)
            }
        }
    }

    fn trim(&mut self, length: u64) -> Result<(), KeeperError>
        ensures counted { keepers.KeeperCounted self.old.calls.faults self.new.calls.faults result }
        ensures trimmed { keepers.Trims (Some self.old.content) (Some self.new.content) length result }

        ensures named { IsErrOf result keeper_error.Failed ↔ IsTrue (memory.call_fails self.old.calls) }
        ensures calls { self.new.calls ≡ memory.after_call self.old.calls }
    {
        if self.calls.next().is_some() {
            return Err(KeeperError::Failed);
        }
        self.content.truncate(length as usize);
        Ok(())
    }

    fn bytes(&mut self) -> Result<List<u8>, KeeperError>
        ensures counted { keepers.KeeperCounted self.old.calls.faults self.new.calls.faults result }
        ensures bytes { keepers.AreBytes (Some self.old.content) result }
        ensures content { Some self.new.content ≡ Some self.old.content }

        ensures named { IsErrOf result keeper_error.Failed ↔ IsTrue (memory.call_fails self.old.calls) }
        ensures calls { self.new.calls ≡ memory.after_call self.old.calls }
    {
        if self.calls.next().is_some() {
            return Err(KeeperError::Failed);
        }
        match self.content.clone() {
            Ok(bytes) => Ok(List::from_vec(bytes)),
            Err(_) => Err(KeeperError::NoMemory),
        }
    }
}
