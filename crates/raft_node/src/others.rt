ghost use Rattle.std.specs.Prelude.{◌≡◌, ◌≤◌, ◌<◌, ◌-◌, ◌^◌, ◌∷◌, [], IfSome, IfNone};
ghost use Rattle.ax_types.specs.declared.limits.TheConstants.{MAX_NODES};
ghost use Rattle.spec_raft.specs.Majority as counts;
ghost use Rattle.raft_node.specs.Others as rest;

use ax_types::NodeId;
use std::marker::Model;

/// The other nodes of a cluster that are still to be named, in ascending order, which contracts see as their list.
#[derive(Drop)]
pub struct Others {
    me: NodeId,
    nodes: u8,
    next: u8,
}

impl Model for Others {
    ghost use Rattle.std.specs.Prelude.{ℕ, ◌+◌, ◌≤◌, List as Items};
    ghost use Rattle.ax_types.specs.declared.limits.TheConstants.{MAX_NODES};
    ghost use Rattle.raft_node.specs.Others as rest;

    ghost Value = { Items ℕ };

    ghost view = { λ a. rest.others_from a.me a.nodes a.next };

    ghost invariant = { λ a. (1 ≤ a.next) × (a.next ≤ a.nodes + 1) × (a.nodes ≤ MAX_NODES) };
}

impl Others {
    /// All nodes but one.
    pub fn new(me: NodeId, nodes: u8) -> Self
        requires { nodes ≤ MAX_NODES }
        ensures { result ≡ counts.others nodes me }
    {
        Others { me, nodes, next: 1 }
    }

    /// Takes the first of them.
    pub fn pop(&mut self) -> Option<NodeId>
        ensures none { IfNone result (self.old ≡ []) }
        ensures some { IfSome result (λ node. self.old ≡ node ∷ self.new) }
    {
        let number = next_other(self.me, self.next);
        if number > self.nodes {
            return None;
        }
        self.next = number + 1;
        NodeId::new(number)
    }
}

/// The first number from one on that is not this node's.
fn next_other(me: NodeId, number: u8) -> u8
    requires { number < 2 ^ 8 - 1 }
    ensures { result ≡ rest.next_from me number }
{
    if number == me.number() {
        number + 1
    } else {
        number
    }
}
