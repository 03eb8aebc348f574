ghost use Rattle.ax_types.specs.declared.limits.TheConstants.{MAX_TIMEOUT};
ghost use Rattle.ax_types.specs.declared.sessions.SessionState.TheVariants as known;
ghost use Rattle.std.specs.Prelude.{◌≡◌, ◌+◌, ◌≤◌, true, false, IfOk, OnOk, OnErr};
ghost use Rattle.spec_sessions.specs.Sessions as session_states;

use crate::effects::body_client;
use crate::outboxes::Outboxes;
use crate::parts::Parts;
use ax_types::{Applied, Asked, Batch, Entry, List, Name, NoMemory, Query, Ready, SessionState};
use res_registry::Book;
use sess_table::Table;
use std::alloc::Global;
use std::marker::Model;

/// The session state of one server: the resources, the sessions, and what is kept for those that are live (Ongaro 2014,
/// 6.3). Contracts see the state of the definitions and whether it is spent: after want of memory in `apply` it is, and
/// no further entry is applied.
#[derive(Drop)]
pub struct SessState {
    applied: u64,
    book: Book,
    parts: Parts,
    is_spent: bool,
}

impl Model for SessState {
    ghost use Rattle.std.specs.Prelude.{◌≡◌, suc, false};
    ghost use Rattle.sess_state.specs.ServerSessions as server_sessions;
    ghost use Rattle.sess_state.specs.SessionParts as session_parts;

    ghost Value = { server_sessions.ServerSessions };

    ghost view = { λ a. record {
      sessions = record { applied = a.applied; book = a.book.resources; table = a.parts.table; boxes = a.parts.boxes };
      is_spent = a.is_spent;
    } };

    ghost invariant = { λ a. a.is_spent ≡ false → (a.book.is_spent ≡ false) × session_parts.LieBelow (suc a.applied) a.parts.table a.parts.boxes };
}

impl SessState {
    /// The state before the first entry. A live session that gives no sign for `timeout` units of log time may be ended.
    /// It takes no memory.
    pub fn new(alloc: Global, timeout: u64) -> Self
        requires low { 1 ≤ timeout }
        requires high { timeout ≤ MAX_TIMEOUT }
        ensures { result ≡ record { sessions = session_states.new_sessions timeout; is_spent = false } }
    {
        SessState {
            applied: 0,
            book: Book::new(alloc),
            parts: Parts {
                alloc,
                table: Table::new(alloc, timeout),
                boxes: Outboxes::new(alloc),
            },
            is_spent: false,
        }
    }

    /// Applies the entry of the next place. Answers what it did, and what is answered and told. After want of memory the
    /// state is spent.
    pub fn apply(&mut self, place: u64, entry: &Entry) -> Result<Applied, NoMemory>
        requires next { place ≡ self.old.sessions.applied + 1 }
        requires fresh { self.old.is_spent ≡ false }
        ensures ok { IfOk result (λ applied. applied ≡ session_states.applied_of self.old.sessions place entry.now) }
        ensures after { OnOk result (self.new ≡ record { sessions = session_states.applying self.old.sessions place entry.now; is_spent = false }) }
        ensures err { OnErr result (self.new.is_spent ≡ true) }
    {
        self.is_spent = true;
        let effect = self.parts.effect(place, entry.time, &entry.body)?;
        let turn = self.book.act(place, entry.time, &effect.act)?;
        let client = body_client(&entry.body);
        let applied = self.parts.settle(place, effect, turn, client)?;
        self.applied = place;
        self.is_spent = false;
        Ok(applied)
    }

    /// How many places were applied.
    pub fn applied(&self) -> u64
        ensures { result ≡ self.now.sessions.applied }
    {
        self.applied
    }

    /// What is known of a session.
    pub fn state_of(&self, session: u64) -> SessionState
        ensures { result ≡ session_states.session_state self.now.sessions session }
    {
        self.parts.table.state_of(session)
    }

    /// What a query of a session is answered: the end of the session, or the reply of the resources as they are.
    pub fn ask(&self, session: u64, name: &Name, query: &Query) -> Result<Asked, NoMemory>
        ensures { IfOk result (λ asked. asked ≡ session_states.asked self.now.sessions session name.now query.now) }
    {
        let state = self.state_of(session);
        self.ask_of(session, name, query, state)
    }

    /// What a query of a session in this state is answered.
    fn ask_of(
        &self,
        session: u64,
        name: &Name,
        query: &Query,
        state: SessionState,
    ) -> Result<Asked, NoMemory>
        ensures { IfOk result (λ asked. asked ≡ session_states.asked_of self.now.sessions session name.now query.now state) }
    {
        match state {
            SessionState::Ended { place, how } => Ok(Asked::Ended { place, how }),
            SessionState::Live => self.answer(session, name, query),
            SessionState::Unknown => self.answer(session, name, query),
        }
    }

    /// The answer to a query, by the resources as they are.
    fn answer(&self, session: u64, name: &Name, query: &Query) -> Result<Asked, NoMemory>
        ensures { IfOk result (λ asked. asked ≡ session_states.asked_of self.now.sessions session name.now query.now known.Live) }
    {
        Ok(Asked::Answer {
            place: self.applied,
            events: self.parts.boxes.last_batch(session),
            reply: self.book.ask(name, query)?,
        })
    }

    /// The first 256 batches of a session with places above `heard`; none where the session is not live.
    pub fn after(&self, session: u64, heard: u64) -> Result<List<Batch>, NoMemory>
        ensures { IfOk result (λ batches. batches ≡ session_states.after self.now.sessions session heard) }
    {
        self.parts.boxes.after(session, heard)
    }

    /// The first 16 live sessions that have given no sign for the timeout, in ascending order.
    pub fn due(&self, time: u64) -> Result<List<u64>, NoMemory>
        ensures { IfOk result (λ due. due ≡ session_states.due_sessions self.now.sessions time) }
    {
        self.parts.table.due(time)
    }
}

/// Whether a session in this state has ended, or has carried out its commands up to `seq`, the last being `last`.
fn is_done(state: SessionState, last: u64, seq: u64) -> bool
    ensures { result ≡ session_states.is_done state last seq }
{
    match state {
        SessionState::Unknown => false,
        SessionState::Live => seq <= last,
        SessionState::Ended { .. } => true,
    }
}

impl Ready for SessState {
    ghost is_ready = { λ s session place seq. session_states.is_ready s.sessions session place seq };

    fn ready(&self, session: u64, place: u64, seq: u64) -> bool {
        place <= self.applied
            && is_done(
                self.state_of(session),
                self.parts.boxes.last_seq(session),
                seq,
            )
    }
}
