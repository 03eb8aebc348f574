ghost use Rattle.std.specs.Prelude.{◌≡◌, ◌+◌, ◌<◌, IfOk, OnOk, OnErr};
ghost use Rattle.std.specs.Option.{option_copied};
ghost use Rattle.spec_sessions.specs.Outboxes as outbox;

use ax_types::{Batch, Duplicate, Event, KeptReply, List, NoMemory};
use event_batch::Batches;
use reply_cache::Cache;
use std::alloc::Global;
use std::marker::Model;

/// What is kept for one live session: the replies of its commands, and its batches of events.
#[derive(Drop)]
pub struct Outbox {
    session: u64,
    cache: Cache,
    batches: Batches,
}

impl Model for Outbox {
    ghost use Rattle.spec_sessions.specs.Outboxes as outbox;

    ghost Value = { outbox.Outbox };

    ghost view = { λ a. record { session = a.session; cache = a.cache; batches = a.batches } };
}

impl Outbox {
    /// An empty one. It takes no memory.
    pub fn new(alloc: Global, session: u64) -> Self
        ensures { result ≡ outbox.new_outbox session }
    {
        Outbox {
            session,
            cache: Cache::new(alloc),
            batches: Batches::new(alloc),
        }
    }

    /// The session.
    pub fn session(&self) -> u64
        ensures { result ≡ self.now.session }
    {
        self.session
    }

    /// The sequence of the last command whose reply was kept, or 0.
    pub fn last_seq(&self) -> u64
        ensures { result ≡ self.now.cache.last }
    {
        self.cache.last()
    }

    /// The place of the last batch, or 0.
    pub fn last_batch(&self) -> u64
        ensures { result ≡ self.now.batches.last }
    {
        self.batches.last()
    }

    /// The reply of the command with this sequence, unless it is let go.
    pub fn reply(&self, seq: u64) -> Option<&KeptReply>
        ensures { option_copied result ≡ outbox.reply_of self.now.cache seq }
    {
        self.cache.get(seq)
    }

    /// The first 256 batches with places above `heard`.
    pub fn after(&self, heard: u64) -> Result<List<Batch>, NoMemory>
        ensures { IfOk result (λ batches. batches ≡ outbox.after_heard self.now.batches heard) }
    {
        self.batches.after(heard)
    }

    /// Lets go what the client says that it has: replies up to `answered`, and batches up to `heard`.
    pub fn trim(&mut self, answered: u64, heard: u64)
        ensures { self.new ≡ outbox.trimmed answered heard self.old }
    {
        self.cache.trim(answered);
        self.batches.trim(heard);
    }

    /// Keeps the reply of the next command. Nothing changes after want of memory.
    pub fn keep_reply(&mut self, kept: KeptReply) -> Result<(), NoMemory>
        requires { kept.seq ≡ self.old.cache.last + 1 }
        ensures ok { OnOk result (self.new ≡ outbox.with_reply kept self.old) }
        ensures err { OnErr result (self.new ≡ self.old) }
    {
        self.cache.put(kept)
    }

    /// Keeps the events of a place as one batch, and answers it. Nothing changes after want of memory.
    pub fn tell(&mut self, place: u64, events: List<Event>) -> Result<Batch, NoMemory>
        requires { self.old.batches.last < place }
        ensures ok { IfOk result (λ batch. batch ≡ outbox.batch_of self.old.batches place events) }
        ensures after { OnOk result (self.new ≡ record self.old { batches = outbox.with_batch self.old.batches place events }) }
        ensures err { OnErr result (self.new ≡ self.old) }
    {
        let batch = Batch {
            place,
            prev: self.batches.last(),
            events: events.copy()?,
        };
        self.batches.append(place, events)?;
        Ok(batch)
    }
}
