ghost use Rattle.std.specs.Prelude.{◌≡◌, ℕ, ◌≤◌, ◌<◌, ◌++◌, ◌∷◌, [], ◌↔◌, SomeIff, IsTrue, Some, codes};
ghost use Rattle.std.specs.Option.{SomeIff};
ghost use Rattle.ax_types.specs.declared.limits.TheConstants.{MAX_NODES, MAX_CLIENTS};

use crate::limits::{MAX_CLIENTS, MAX_NODES};
use std::fmt;
use std::marker::Model;

/// A node of a cluster: a number from 1 to 9. It is written as its number.
#[derive(Clone, Copy, PartialEq)]
pub struct NodeId {
    number: u8,
}

impl Model for NodeId {
    ghost use Rattle.std.specs.Prelude.{ℕ, ◌≤◌};
    ghost use Rattle.ax_types.specs.declared.limits.TheConstants.{MAX_NODES};

    ghost Value = { ℕ };

    ghost view = { λ a. a.number };

    ghost invariant = { λ a. (1 ≤ a.number) × (a.number ≤ MAX_NODES) };

    ghost inverse = { λ n. record { number = n } };
}

impl NodeId {
    /// The node with this number; `None` exactly outside 1 to 9.
    pub fn new(number: u8) -> Option<NodeId>
        ensures { SomeIff result ((1 ≤ number) × (number ≤ MAX_NODES)) number }
    {
        if number == 0 || number > MAX_NODES {
            return None;
        }
        Some(NodeId { number })
    }

    /// Its number.
    pub fn number(self) -> u8
        ensures number { result ≡ self }
        ensures within { (1 ≤ self) × (self ≤ MAX_NODES) }
    {
        self.number
    }
}

impl fmt::Display for NodeId {
    ghost use Rattle.std.specs.Prelude.{Some};
    ghost use Rattle.std.specs.Fmt.{decimal};

    ghost output = { λ n. Some (decimal n) };

    fn fmt<W: fmt::Write>(&self, f: &mut fmt::Formatter<W>) -> fmt::Result {
        let number = self.number;
        write!(f, "{number}")
    }
}

/// A client of a cluster: a number from 1 to 16. It is written as its number.
#[derive(Clone, Copy, PartialEq)]
pub struct ClientId {
    number: u8,
}

impl Model for ClientId {
    ghost use Rattle.std.specs.Prelude.{ℕ, ◌≤◌};
    ghost use Rattle.ax_types.specs.declared.limits.TheConstants.{MAX_CLIENTS};

    ghost Value = { ℕ };

    ghost view = { λ a. a.number };

    ghost invariant = { λ a. (1 ≤ a.number) × (a.number ≤ MAX_CLIENTS) };

    ghost inverse = { λ n. record { number = n } };
}

impl ClientId {
    /// The client with this number; `None` exactly outside 1 to 16.
    pub fn new(number: u8) -> Option<ClientId>
        ensures { SomeIff result ((1 ≤ number) × (number ≤ MAX_CLIENTS)) number }
    {
        if number == 0 || number > MAX_CLIENTS {
            return None;
        }
        Some(ClientId { number })
    }

    /// Its number.
    pub fn number(self) -> u8
        ensures number { result ≡ self }
        ensures within { (1 ≤ self) × (self ≤ MAX_CLIENTS) }
    {
        self.number
    }
}

impl fmt::Display for ClientId {
    ghost use Rattle.std.specs.Prelude.{Some};
    ghost use Rattle.std.specs.Fmt.{decimal};

    ghost output = { λ n. Some (decimal n) };

    fn fmt<W: fmt::Write>(&self, f: &mut fmt::Formatter<W>) -> fmt::Result {
        let number = self.number;
        write!(f, "{number}")
    }
}

/// An end of a link or a packet's way. It is written `nK` or `cC`.
#[derive(Clone, Copy, PartialEq)]
pub enum End {
    Node(NodeId),
    Client(ClientId),
}

impl fmt::Display for End {
    ghost use Rattle.ax_types.specs.Ends as ends;
    ghost use Rattle.std.specs.Prelude.{Some};

    ghost output = { λ e. Some (ends.link_end_text e) };

    fn fmt<W: fmt::Write>(&self, f: &mut fmt::Formatter<W>) -> fmt::Result {
        match self {
            End::Node(node) => write!(f, "n{node}"),
            End::Client(client) => write!(f, "c{client}"),
        }
    }
}
