ghost use Rattle.std.specs.Prelude.{◌≡◌, ◌+◌, length, OnOk, OnErr};
ghost use Rattle.std.specs.Option.{option_copied};
ghost use Rattle.spec_sessions.specs.Outboxes as outbox;

use ax_types::{KeptReply, NoMemory};
use std::alloc::Global;
use std::collections::VecDeque;
use std::marker::Model;

/// The replies of a session's commands, by the commands' sequences, which count from 1. Those that the client has are
/// let go from the front.
#[derive(Drop)]
pub struct Cache {
    /// The sequence of the last command whose reply was put, or 0.
    last: u64,
    replies: VecDeque<KeptReply>,
}

impl Model for Cache {
    ghost use Rattle.spec_sessions.specs.Outboxes as outbox;
    ghost use Rattle.std.specs.Prelude.{◌-◌, ◌≤◌, length};
    ghost use Rattle.reply_cache.specs.Sequences as sequences;

    ghost Value = { outbox.Cache };

    ghost view = { λ a. record { last = a.last; replies = a.replies.items } };

    ghost invariant = { λ a. (length a.replies.items ≤ a.last) × sequences.Follow (a.last - length a.replies.items) a.replies.items };
}

impl Cache {
    /// No reply. It takes no memory.
    pub fn new(alloc: Global) -> Self
        ensures { result ≡ outbox.new_cache }
    {
        Cache {
            last: 0,
            replies: VecDeque::new(alloc),
        }
    }

    /// Keeps the reply of the next command. The cache is unchanged after want of memory.
    pub fn put(&mut self, kept: KeptReply) -> Result<(), NoMemory>
        requires { kept.seq ≡ self.old.last + 1 }
        ensures ok { OnOk result (self.new ≡ outbox.cached self.old kept) }
        ensures err { OnErr result (self.new ≡ self.old) }
    {
        let seq = kept.seq;
        self.replies.push_back(kept)?;
        self.last = seq;
        Ok(())
    }

    /// The reply of the command with this sequence; `None` exactly for one that was never put or is let go.
    pub fn get(&self, seq: u64) -> Option<&KeptReply>
        ensures { option_copied result ≡ outbox.reply_of self.now seq }
    {
        let before = self.before();
        if seq <= before || seq > self.last {
            return None;
        }
        Some(&self.replies[(seq - before - 1) as usize])
    }

    /// The sequence of the last command whose reply was put, or 0.
    pub fn last(&self) -> u64
        ensures { result ≡ self.now.last }
    {
        self.last
    }

    /// Lets go the replies of commands up to this sequence.
    pub fn trim(&mut self, answered: u64)
        ensures { self.new ≡ outbox.without_replies self.old answered }
    {
        for _ in self.before()..self.last.min(answered) {
            self.replies.pop_front();
        }
    }

    /// The sequence of the last command whose reply was let go, or 0.
    fn before(&self) -> u64
        ensures { result + length self.now.replies ≡ self.now.last }
    {
        self.last - self.replies.len() as u64
    }
}
