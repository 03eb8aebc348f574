//! The server that a client talks to, and the openings of its sessions.
#![tactic(auto)]

ghost use Rattle.std.specs.Prelude.{◌≡◌, ℕ, suc, ◌<◌, ◌^◌};
ghost use Rattle.spec_sequencer.specs.Sequencers as sequencers;

use ax_types::NodeId;
use std::marker::Model;

/// The connected server, and the number of the last opening. Contracts also see how many calls changed it.
#[derive(Drop)]
pub struct Switch {
    server: Option<NodeId>,
    opening: u64,
    is_open: bool,
    calls: u64,
}

impl Model for Switch {
    ghost use Rattle.std.specs.Prelude.{◌≤◌, ◌^◌};
    ghost use Rattle.server_switch.specs.CountedSwitch as counted;

    ghost Value = { counted.SwitchState };

    ghost view = { λ a. record { switch = record { server = a.server; opening = a.opening; is_open = a.is_open }; calls = a.calls } };

    ghost invariant = { λ a. (a.opening ≤ a.calls) × (a.calls ≤ 2 ^ 62) };
}

impl Switch {
    /// No server, and no opening yet.
    pub fn new() -> Self
        ensures { result ≡ record { switch = sequencers.new_switch; calls = 0 } }
    {
        Switch {
            server: None,
            opening: 0,
            is_open: false,
            calls: 0,
        }
    }

    /// The connected server.
    pub fn server(&self) -> Option<NodeId>
        ensures { result ≡ self.now.switch.server }
    {
        self.server
    }

    /// The number of the last opening, 0 before the first.
    pub fn opening(&self) -> u64
        ensures { result ≡ self.now.switch.opening }
    {
        self.opening
    }

    /// Connects to a server.
    pub fn move_to(&mut self, node: NodeId)
        requires { self.old.calls < 2 ^ 62 }
        ensures { self.new ≡ record { switch = sequencers.moved_to self.old.switch node; calls = suc self.old.calls } }
    {
        self.server = Some(node);
        self.calls += 1;
    }

    /// The number of a new opening, whose answer is to come.
    pub fn next_opening(&mut self) -> u64
        requires { self.old.calls < 2 ^ 62 }
        ensures after { self.new ≡ record { switch = sequencers.with_opening self.old.switch; calls = suc self.old.calls } }
        ensures number { result ≡ self.new.switch.opening }
    {
        self.opening += 1;
        self.is_open = true;
        self.calls += 1;
        self.opening
    }

    /// Whether an answer is that to the last opening, and none to it has come.
    pub fn accepts(&self, opening: u64) -> bool
        ensures { result ≡ sequencers.accepts self.now.switch opening }
    {
        self.is_open && opening == self.opening
    }

    /// The answer to the last opening has come.
    pub fn answered(&mut self)
        requires { self.old.calls < 2 ^ 62 }
        ensures { self.new ≡ record { switch = sequencers.with_opened self.old.switch; calls = suc self.old.calls } }
    {
        self.is_open = false;
        self.calls += 1;
    }
}
