ghost use Rattle.std.specs.Prelude.{◌≡◌, ◌+◌, ◌<◌, [], ◌∷◌, ◌++◌, nat_eq, position, slice_get, IfOk, OnOk, OnErr};
ghost use Rattle.std.specs.List.{AllByRecursion};
ghost use Rattle.std.specs.Option.{option_copied};
ghost use Rattle.spec_sessions.specs.Outboxes as outbox;
ghost use Rattle.spec_sessions.specs.Sessions as session_states;
ghost use Rattle.sess_state.specs.BoxOrder as box_order;
ghost use Rattle.sess_state.specs.Batching as batching;

use crate::outbox::Outbox;
use ax_types::{Batch, Event, KeptReply, List, NoMemory};
use std::alloc::Global;
use std::marker::Model;

/// What is kept for the live sessions, in ascending order of session.
#[derive(Drop)]
pub struct Outboxes {
    boxes: Vec<Outbox>,
}

impl Model for Outboxes {
    ghost use Rattle.std.specs.Prelude.{List as Items};
    ghost use Rattle.spec_sessions.specs.Outboxes as outbox;
    ghost use Rattle.sess_state.specs.BoxOrder as box_order;

    ghost Value = { Items outbox.Outbox };

    ghost view = { λ a. a.boxes.items };

    ghost invariant = { λ a. box_order.Ascend a.boxes.items };
}

impl Outboxes {
    /// None. It takes no memory.
    pub fn new(alloc: Global) -> Self
        ensures { result ≡ [] }
    {
        Outboxes {
            boxes: Vec::new(alloc),
        }
    }

    /// Whether the outbox of a session stands there.
    fn is_at(&self, index: usize, session: u64) -> bool
        ensures { result ≡ box_order.is_box_of session (slice_get self.now index) }
    {
        match self.boxes.get(index) {
            Some(found) => found.session() == session,
            None => false,
        }
    }

    /// Where the outbox of a session stands.
    fn index_of(&self, session: u64) -> Option<usize>
        ensures { result ≡ position (λ o. nat_eq o.session session) self.now }
    {
        let index = self.boxes.partition_point(|o| o.session() < session);
        if self.is_at(index, session) {
            Some(index)
        } else {
            None
        }
    }

    /// The outbox of a session.
    fn get(&self, session: u64) -> Option<&Outbox>
        ensures { option_copied result ≡ outbox.outbox_of self.now session }
    {
        match self.index_of(session) {
            Some(index) => {
                let found = &self.boxes[index];
                Some(found)
            }
            None => None,
        }
    }

    /// The sequence of the last command of a session whose reply was kept, or 0.
    pub fn last_seq(&self, session: u64) -> u64
        ensures { result ≡ outbox.last_seq self.now session }
    {
        match self.get(session) {
            Some(found) => found.last_seq(),
            None => 0,
        }
    }

    /// The place of the last batch of a session, or 0.
    pub fn last_batch(&self, session: u64) -> u64
        ensures { result ≡ outbox.last_batch self.now session }
    {
        match self.get(session) {
            Some(found) => found.last_batch(),
            None => 0,
        }
    }

    /// The reply of a command of a session, unless it was never kept or is let go.
    pub fn reply(&self, session: u64, seq: u64) -> Option<&KeptReply>
        ensures { option_copied result ≡ outbox.kept_reply self.now session seq }
    {
        match self.get(session) {
            Some(found) => found.reply(seq),
            None => None,
        }
    }

    /// The first 256 batches of a session with places above `heard`.
    pub fn after(&self, session: u64, heard: u64) -> Result<List<Batch>, NoMemory>
        ensures { IfOk result (λ batches. batches ≡ session_states.after_in (outbox.outbox_of self.now session) heard) }
    {
        match self.get(session) {
            Some(found) => found.after(heard),
            None => Ok(List::new(*self.boxes.allocator())),
        }
    }

    /// One more outbox, of a session with a number above all others. Nothing changes after want of memory.
    pub fn add(&mut self, session: u64) -> Result<(), NoMemory>
        requires { AllByRecursion (λ o. o.session < session) self.old }
        ensures ok { OnOk result (self.new ≡ self.old ++ outbox.new_outbox session ∷ []) }
        ensures err { OnErr result (self.new ≡ self.old) }
    {
        let alloc = *self.boxes.allocator();
        self.boxes.push(Outbox::new(alloc, session))?;
        Ok(())
    }

    #[tactic(auto, using(crate::proofs::BoxAt::without_found, crate::proofs::BoxAt::without_none))]
    /// Lets go the outbox of a session.
    pub fn remove(&mut self, session: u64)
        ensures { self.new ≡ outbox.without_outbox self.old session }
    {
        if let Some(index) = self.index_of(session) {
            self.boxes.remove(index);
        }
    }

    #[tactic(auto, using(crate::proofs::BoxAt::change_found, crate::proofs::BoxAt::change_none))]
    /// Lets go what the client of a session says that it has: replies up to `answered`, and batches up to `heard`.
    pub fn trim(&mut self, session: u64, answered: u64, heard: u64)
        ensures { self.new ≡ outbox.change_outbox (outbox.trimmed answered heard) session self.old }
    {
        if let Some(index) = self.index_of(session) {
            let found = &mut self.boxes[index];
            found.trim(answered, heard);
        }
    }

    #[tactic(auto, using(crate::proofs::BoxAt::change_found, crate::proofs::BoxAt::change_none))]
    /// Keeps the reply of the next command of a session. Nothing changes after want of memory.
    pub fn keep_reply(&mut self, session: u64, kept: KeptReply) -> Result<(), NoMemory>
        requires { kept.seq ≡ outbox.last_seq self.old session + 1 }
        ensures ok { OnOk result (self.new ≡ outbox.change_outbox (outbox.with_reply kept) session self.old) }
        ensures err { OnErr result (self.new ≡ self.old) }
    {
        let Some(index) = self.index_of(session) else {
            return Ok(());
        };
        let found = &mut self.boxes[index];
        found.keep_reply(kept)?;
        Ok(())
    }

    #[tactic(auto, using(crate::proofs::BoxAt::change_found, crate::proofs::BoxAt::change_none))]
    /// Keeps the events of a place as a batch of a session, and answers it; `None` where the session has no outbox.
    /// Nothing changes after want of memory.
    pub fn tell(
        &mut self,
        place: u64,
        session: u64,
        events: List<Event>,
    ) -> Result<Option<Batch>, NoMemory>
        requires { outbox.last_batch self.old session < place }
        ensures ok { IfOk result (λ batch. batch ≡ batching.batch_for place events (outbox.outbox_of self.old session)) }
        ensures after { OnOk result (self.new ≡ outbox.change_outbox (batching.batched place events) session self.old) }
        ensures ascending { box_order.Ascend self.old }
        ensures err { OnErr result (self.new ≡ self.old) }
    {
        let Some(index) = self.index_of(session) else {
            return Ok(None);
        };
        let found = &mut self.boxes[index];
        let batch = found.tell(place, events)?;
        Ok(Some(batch))
    }
}
