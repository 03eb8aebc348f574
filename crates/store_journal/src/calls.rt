ghost use Rattle.std.specs.Prelude.{◌≡◌, OnSome, ◌≤◌};
ghost use Rattle.ax_io.specs.Count as counts;
ghost use Rattle.store_journal.specs.MemStores as memory;

use ax_io::Faults;
use ax_types::List;
use std::marker::Model;

/// The calls of an object in memory, some of which fail.
#[derive(Drop)]
pub struct Calls {
    failing: List<(u64, u64)>,
    made: u64,
    faults: Faults,
}

impl Model for Calls {
    ghost use Rattle.store_journal.specs.MemStores as memory;

    ghost Value = { memory.Calls };

    ghost view = { λ a. record { failing = a.failing; made = a.made; faults = a.faults } };
}

impl Calls {
    /// No call was made yet.
    pub fn new(failing: List<(u64, u64)>) -> Calls
        ensures { result ≡ record { failing = failing; made = 0; faults = 0 } }
    {
        Calls {
            failing,
            made: 0,
            faults: Faults::new(),
        }
    }

    /// How much is kept of the next call, where it is one that fails.
    fn kept_of_call(&self) -> Option<u64>
        ensures { result ≡ memory.kept_of_call self.now }
    {
        let call = self.made.saturating_add(1);
        self.failing
            .iter()
            .find(|pair| pair.0 == call)
            .map(|pair| pair.1)
    }

    /// Counts a call, and answers how much is kept of it, where it is one that fails.
    pub fn next(&mut self) -> Option<u64>
        ensures kept { result ≡ memory.kept_of_call self.old }
        ensures after { self.new ≡ memory.after_call self.old }
        ensures never_falls { self.old.faults ≤ self.new.faults }
        ensures rises { OnSome result (counts.Rose self.old.faults self.new.faults) }
    {
        let kept = self.kept_of_call();
        self.made = self.made.saturating_add(1);
        if kept.is_some() {
            let _ = self.faults.raise();
        }
        kept
    }
}
