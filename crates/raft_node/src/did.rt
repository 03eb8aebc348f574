ghost use Rattle.std.specs.Prelude.{◌≡◌, [], None, false};

use ax_types::{Entry, List, Packet};
use std::alloc::Global;

/// What a rule gives beside the node: the place of the first entry that it cut, the entries that it added, its packets,
/// the number of the read that it took, and whether the node became leader.
#[derive(Drop)]
pub struct Did {
    pub cut: Option<u64>,
    pub add: List<Entry>,
    pub packets: List<Packet>,
    pub reached: Option<u64>,
    pub led: bool,
}

impl Did {
    /// Nothing. It takes no memory.
    pub fn nothing(alloc: Global) -> Self
        ensures { result ≡ record { cut = None; add = []; packets = []; reached = None; led = false } }
    {
        Did::sending(alloc, List::new(alloc))
    }

    /// Packets alone.
    pub fn sending(alloc: Global, packets: List<Packet>) -> Self
        ensures { result ≡ record { cut = None; add = []; packets = packets; reached = None; led = false } }
    {
        Did {
            cut: None,
            add: List::new(alloc),
            packets,
            reached: None,
            led: false,
        }
    }
}
