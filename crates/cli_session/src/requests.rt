ghost use Rattle.std.specs.Prelude.{◌≡◌, ℕ, IfOk};
ghost use Rattle.spec_client.specs.Clients as clients;
ghost use Rattle.spec_client.specs.Receipts as receipts;
ghost use Rattle.cli_session.specs.GivingOut as giving;

use ax_types::{Got, Item, WindowCall};
use std::marker::Model;

/// What a call without an outcome asks, with its sequence, of a query the number of commands called before it.
#[derive(Drop)]
pub struct Request {
    pub number: u64,
    pub seq: u64,
    pub call: WindowCall,
}

impl Model for Request {
    ghost use Rattle.spec_client.specs.Clients as clients;

    ghost Value = { clients.Request };

    ghost view = { λ a. record { number = a.number; seq = a.seq; call = a.call } };
}

impl Request {
    /// Its call's number.
    pub fn number(&self) -> u64
        ensures { result ≡ self.now.number }
    {
        self.number
    }

    /// Whether it is a command above the last one that the session state knows.
    pub fn is_command_above(&self, last: u64) -> bool
        ensures { result ≡ receipts.is_command_above last self.now self.now.call }
    {
        match &self.call {
            WindowCall::Command { .. } => last < self.seq,
            WindowCall::Query { .. } => false,
        }
    }

    /// The item of its answer.
    pub fn answer_item(&self, session: u64, got: Got) -> Item
        ensures { result ≡ receipts.answer_item session got self.now self.now.call }
    {
        match &self.call {
            WindowCall::Command { .. } => Item::Reply {
                session,
                number: self.number,
                place: got.place,
                reply: got.reply,
            },
            WindowCall::Query { level, .. } => Item::Read {
                session,
                number: self.number,
                level: *level,
                place: got.place,
                reach: got.reach,
                reply: got.reply,
            },
        }
    }

    /// The item of its call where the session ends before an outcome: a command is in doubt, a query lost.
    pub fn item_at_end(&self, session: u64) -> Item
        ensures { result ≡ giving.item_at_end session self.now }
    {
        let number = self.number;
        match &self.call {
            WindowCall::Command { .. } => Item::Doubt { session, number },
            WindowCall::Query { .. } => Item::Lost { session, number },
        }
    }
}
