ghost use Rattle.std.specs.Prelude.{◌≡◌, ◌<◌, ◌≤◌, nat_lt, filter, drop, length, IfOk, OnOk, OnErr};
ghost use Rattle.spec_sessions.specs.Outboxes as outbox;

use ax_types::limits::MAX_BATCHES;
use ax_types::{Batch, Duplicate, Event, List, NoMemory};
use std::alloc::Global;
use std::collections::VecDeque;
use std::marker::Model;

/// The batches of a session, by the places at which it was told events. Those that the client has heard are let go from
/// the front.
#[derive(Drop)]
pub struct Batches {
    alloc: Global,
    /// The place of the last batch, or 0.
    last: u64,
    kept: VecDeque<Batch>,
}

impl Model for Batches {
    ghost use Rattle.spec_sessions.specs.Outboxes as outbox;
    ghost use Rattle.event_batch.specs.BatchOrder as batch_order;

    ghost Value = { outbox.Batches };

    ghost view = { λ a. record { last = a.last; kept = a.kept.items } };

    ghost invariant = { λ a. batch_order.RiseTo a.last a.kept.items };
}

impl Batches {
    /// No batch. It takes no memory.
    pub fn new(alloc: Global) -> Self
        ensures { result ≡ outbox.new_batches }
    {
        Batches {
            alloc,
            last: 0,
            kept: VecDeque::new(alloc),
        }
    }

    /// Keeps the events of a place as one batch, which names the place of the batch before. The batches are unchanged
    /// after want of memory.
    pub fn append(&mut self, place: u64, events: List<Event>) -> Result<(), NoMemory>
        requires { self.old.last < place }
        ensures ok { OnOk result (self.new ≡ outbox.with_batch self.old place events) }
        ensures err { OnErr result (self.new ≡ self.old) }
    {
        self.kept.push_back(Batch {
            place,
            prev: self.last,
            events,
        })?;
        self.last = place;
        Ok(())
    }

    /// The place of the last batch, or 0.
    pub fn last(&self) -> u64
        ensures { result ≡ self.now.last }
    {
        self.last
    }

    /// The first 256 batches with places above `heard`.
    pub fn after(&self, heard: u64) -> Result<List<Batch>, NoMemory>
        ensures { IfOk result (λ batches. batches ≡ outbox.after_heard self.now heard) }
    {
        let start = self.heard_count(heard);
        let end = self.kept.len().min(start + MAX_BATCHES);
        let mut batches = List::with_capacity(self.alloc, end - start)?;
        for index in start..end {
            batches.push(self.kept[index].copy()?)?;
        }
        Ok(batches)
    }

    /// Lets go the batches with places up to `heard`.
    pub fn trim(&mut self, heard: u64)
        ensures { self.new ≡ outbox.without_batches self.old heard }
    {
        for _ in 0..self.heard_count(heard) {
            self.kept.pop_front();
        }
    }

    /// How many batches have places up to `heard`. They stand at the front.
    fn heard_count(&self, heard: u64) -> usize
        ensures within { result ≤ length self.now.kept }
        ensures front { filter (λ b. nat_lt heard b.place) self.now.kept ≡ drop result self.now.kept }
    {
        self.kept.partition_point(|batch| batch.place <= heard)
    }
}
