ghost use Rattle.std.specs.Prelude.{◌≡◌, ℕ, suc, ◌<◌, length, [], IfSome, IfNone, IfOk, OnOk, OnErr};
ghost use Rattle.spec_sequencer.specs.Sequencers as sequencers;
ghost use Rattle.spec_client.specs.Clients as clients;
ghost use Rattle.cli_sequencer.specs.Numbers as numbers;
ghost use Rattle.cli_sequencer.specs.GivenOut as given;
ghost use Rattle.cli_sequencer.specs.Waiting as waiting;

use crate::unanswered::{Unanswered, answer_at, call_at, command_at, first_open_command, query_at};
use ax_types::{AskedCall, Batch, Got, Heard, Level, List, NoMemory, Released};
use std::alloc::Global;
use std::collections::VecDeque;
use std::marker::Model;

/// A session's calls that lack an outcome, in order of call, and how far it has heard, seen and read. Contracts see the
/// sequencer of the definitions.
#[derive(Drop)]
pub struct Sequencer {
    alloc: Global,
    session: u64,
    calls: VecDeque<Unanswered>,
    last: u64,
    heard: u64,
    seen: u64,
    read: u64,
}

impl Model for Sequencer {
    ghost use Rattle.spec_sequencer.specs.Sequencers as sequencers;
    ghost use Rattle.cli_sequencer.specs.Numbers as numbers;

    ghost Value = { sequencers.Sequencer };

    ghost view = { λ a. record { session = a.session; calls = a.calls.items; last = a.last; heard = a.heard; seen = a.seen; read = a.read } };

    ghost invariant = { λ a. numbers.AreAscending a.calls.items };
}

impl Sequencer {
    /// The sequencer of a new session. It takes no memory.
    pub fn new(alloc: Global, session: u64) -> Self
        ensures { result ≡ sequencers.new_sequencer session }
    {
        Sequencer {
            alloc,
            session,
            calls: VecDeque::new(alloc),
            last: 0,
            heard: 0,
            seen: session,
            read: 0,
        }
    }

    /// A call is made. Nothing changes after want of memory.
    pub fn called(&mut self, call: AskedCall) -> Result<(), NoMemory>
        requires room { length self.old.calls < sequencers.most_unanswered }
        requires number { numbers.AreBelow call.number self.old.calls }
        requires seq { IfSome call.seq (λ seq. seq ≡ suc self.old.last) }
        ensures ok { OnOk result (self.new ≡ sequencers.with_call self.old call) }
        ensures err { OnErr result (self.new ≡ self.old) }
    {
        self.calls.push_back(Unanswered {
            number: call.number,
            seq: call.seq,
            level: call.level,
            got: None,
        })?;
        self.last = call.seq.unwrap_or(self.last);
        Ok(())
    }

    #[tactic(auto, using(crate::proofs::Found::lacks_answer_by_number))]
    /// Whether the call with this number lacks an answer.
    pub fn lacks_answer(&self, number: u64) -> bool
        ensures { result ≡ clients.lacks_answer self.now.calls number }
    {
        match call_at(&self.calls, number) {
            Some(call) => call.is_waiting(),
            None => false,
        }
    }

    /// The number of the command with this sequence, where it lacks an answer.
    pub fn waiting_command(&self, seq: u64) -> Option<u64>
        ensures { result ≡ waiting.waiting_command self.now seq }
    {
        match command_at(&self.calls, seq) {
            Some(call) if call.is_waiting() => Some(call.number()),
            _ => None,
        }
    }

    /// The number of the query with this number and level, where it lacks an answer.
    pub fn waiting_query(&self, number: u64, level: Level) -> Option<u64>
        ensures { result ≡ waiting.waiting_query self.now number level }
    {
        match query_at(&self.calls, number, level) {
            Some(call) if call.is_waiting() => Some(call.number()),
            _ => None,
        }
    }

    /// A call gets its answer. A number that no call has, or one whose call has an answer, is ignored.
    pub fn answered(&mut self, number: u64, got: Got)
        ensures { self.new ≡ sequencers.with_answer self.old number got }
    {
        answer_at(&mut self.calls, number, got);
    }

    /// A batch of events comes. The next one is heard; an old one, and one before which others are missing, changes nothing.
    pub fn batch(&mut self, batch: &Batch) -> Heard
        ensures heard { result ≡ sequencers.heard_of self.old batch.now }
        ensures after { self.new ≡ sequencers.with_heard self.old batch.now }
    {
        if batch.place <= self.heard {
            Heard::Old
        } else if batch.prev == self.heard {
            self.heard = batch.place;
            Heard::Taken
        } else {
            Heard::Missing { heard: self.heard }
        }
    }

    /// Gives the answers out that stand first, in order of call, while their events are heard. A read older than the last
    /// one is asked again. Nothing changes after want of memory.
    pub fn release(&mut self) -> Result<Released, NoMemory>
        ensures ok { IfOk result (λ released. released ≡ sequencers.released_of self.old) }
        ensures after { OnOk result (self.new ≡ sequencers.released self.old) }
        ensures err { OnErr result (self.new ≡ self.old) }
    {
        let mut items = Vec::with_capacity(self.alloc, self.given())?;
        'given: while let Some(item) = self.pop_given() {
            items.push_reserved(item);
        }
        let again = self.ask_again();
        Ok(Released {
            items: List::from_vec(items),
            again,
        })
    }

    /// How many answers a release gives out.
    fn given(&self) -> usize
        ensures { result ≡ given.given_of self.now }
    {
        let mut count = 0;
        let mut read = self.read;
        'counted: while let Some(call) = self.calls.get(count) {
            if !call.is_given(self.heard, read) {
                return count;
            }
            read = call.read_after(read);
            count += 1;
        }
        count
    }

    /// Takes the first call, where its answer is given out.
    fn pop_given(&mut self) -> Option<(u64, Got)>
        ensures none { IfNone result (self.new ≡ self.old) }
        ensures last { IfNone result (given.given_of self.old ≡ 0) }
        ensures some { IfSome result (λ item. given.GivesOne self.old self.new item) }
    {
        let first = self.calls.front()?;
        if !first.is_given(self.heard, self.read) {
            return None;
        }
        let read = first.read_after(self.read);
        let call = self.calls.pop_front()?;
        let got = call.got?;
        self.seen = self.seen.max(got.place);
        self.read = read;
        Some((call.number, got))
    }

    /// The first call, where it is to be asked again, loses its answer.
    fn ask_again(&mut self) -> Option<u64>
        requires { given.given_of self.old ≡ 0 }
        ensures again { result ≡ (sequencers.release_of self.old).again }
        ensures after { self.new ≡ sequencers.released self.old }
    {
        if !self.calls.front()?.is_stale(self.heard, self.read) {
            return None;
        }
        let first = &mut self.calls[0];
        first.got = None;
        Some(first.number)
    }

    /// The session has ended: no call lacks an outcome.
    pub fn clear(&mut self)
        ensures { self.new ≡ record self.old { calls = [] } }
    {
        self.calls.clear();
    }

    /// The place of the last batch heard.
    pub fn heard(&self) -> u64
        ensures { result ≡ self.now.heard }
    {
        self.heard
    }

    /// The greatest place that an outcome has shown.
    pub fn seen(&self) -> u64
        ensures { result ≡ self.now.seen }
    {
        self.seen
    }

    /// How many calls lack an outcome.
    pub fn unanswered(&self) -> usize
        ensures { result ≡ sequencers.unanswered_count self.now }
    {
        self.calls.len()
    }

    #[tactic(auto, using(crate::proofs::Released::received_in_first))]
    /// The greatest n such that each command 1 to n has an answer here, released or not.
    pub fn received(&self) -> u64
        ensures { result ≡ sequencers.received self.now }
    {
        match first_open_command(&self.calls) {
            Some(call) => call.commands_before(),
            None => self.last,
        }
    }
}
