ghost use Rattle.ax_types.specs.declared.limits.TheConstants.{MAX_TIMEOUT};
ghost use Rattle.std.specs.Prelude.{◌≡◌, ◌≤◌, IfOk, OnOk, OnErr};
ghost use Rattle.ax_types.specs.declared.sessions.SessionState.TheVariants as state;
ghost use Rattle.spec_sessions.specs.Tables as tables;
ghost use Rattle.sess_table.specs.TableParts as table_parts;

use crate::live::{Origin, first_due, live_index};
use crate::signs::Signs;
use ax_types::{ClientId, How, List, NoMemory, SessionState};
use indexmap::IndexMap;
use std::alloc::Global;
use std::marker::Model;

/// Where and how a session ended.
#[derive(Drop)]
struct Past {
    place: u64,
    how: How,
}

/// The sessions by their numbers, which are the places of their register entries.
#[derive(Drop)]
pub struct Table {
    alloc: Global,
    timeout: u64,
    /// Every session, in the order in which they were registered.
    sessions: IndexMap<u64, Origin>,
    /// Their signs, in the same order.
    signs: Signs,
    /// Those that have ended, in the order in which they did.
    past: IndexMap<u64, Past>,
}

impl Model for Table {
    ghost use Rattle.spec_sessions.specs.Tables as tables;
    ghost use Rattle.std.specs.Prelude.{map};
    ghost use Rattle.sess_table.specs.Live as lives;
    ghost use Rattle.sess_table.specs.TableParts as table_parts;
    ghost use Rattle.sess_table.specs.Endings as endings;

    ghost Value = { tables.Table };

    ghost view = { λ a. record { timeout = a.timeout; live = lives.live_in a.sessions.entries a.signs; past = map endings.past_of a.past.entries } };

    ghost invariant = { λ a. table_parts.AreTable a.timeout a.sessions.entries a.signs a.past.entries };
}

impl Table {
    /// A table of no session. A live session that gives no sign for `timeout` units of log time may be ended. It takes
    /// no memory.
    pub fn new(alloc: Global, timeout: u64) -> Self
        requires low { 1 ≤ timeout }
        requires high { timeout ≤ MAX_TIMEOUT }
        ensures { result ≡ tables.new_table timeout }
    {
        Table {
            alloc,
            timeout,
            sessions: IndexMap::new(alloc),
            signs: Signs::new(alloc),
            past: IndexMap::new(alloc),
        }
    }

    /// A session is opened by the register entry at this place and log time. The table is unchanged after want of
    /// memory.
    pub fn register(
        &mut self,
        place: u64,
        client: ClientId,
        opening: u64,
        time: u64,
    ) -> Result<(), NoMemory>
        requires { table_parts.IsNew self.old place }
        ensures ok { OnOk result (self.new ≡ tables.registered self.old place client opening time) }
        ensures err { OnErr result (self.new ≡ self.old) }
    {
        self.sessions.insert(place, Origin { client, opening })?;
        match self.signs.push(time) {
            Ok(()) => Ok(()),
            Err(NoMemory) => {
                self.sessions.pop();
                Err(NoMemory)
            }
        }
    }

    /// What is known of a session.
    pub fn state_of(&self, session: u64) -> SessionState
        ensures { result ≡ tables.state_of self.now session }
    {
        if live_index(&self.sessions, &self.signs, session).is_some() {
            return SessionState::Live;
        }
        match self.past.get(&session) {
            Some(past) => SessionState::Ended {
                place: past.place,
                how: past.how,
            },
            None => SessionState::Unknown,
        }
    }

    /// A live session gives a sign of life at a log time.
    pub fn sign(&mut self, session: u64, time: u64)
        requires { tables.state_of self.old session ≡ state.Live }
        ensures { self.new ≡ tables.signed self.old session time }
    {
        if let Some(index) = live_index(&self.sessions, &self.signs, session) {
            self.signs.set(index, Some(time));
        }
    }

    /// The first 16 live sessions that have given no sign for the timeout, in ascending order. A time below a sign
    /// counts as no time since it.
    pub fn due(&self, time: u64) -> Result<List<u64>, NoMemory>
        ensures { IfOk result (λ sessions. sessions ≡ tables.due self.now time) }
    {
        match time.checked_sub(self.timeout) {
            Some(limit) => first_due(self.alloc, &self.sessions, &self.signs, limit),
            None => Ok(List::new(self.alloc)),
        }
    }

    /// Whether a session is live and has given no sign for the timeout.
    pub fn may_expire(&self, session: u64, time: u64) -> bool
        ensures { result ≡ tables.may_expire self.now session time }
    {
        match live_index(&self.sessions, &self.signs, session) {
            Some(index) => match (self.signs.at(index), time.checked_sub(self.timeout)) {
                (Some(sign), Some(limit)) => sign <= limit,
                _ => false,
            },
            None => false,
        }
    }

    /// A live session ends at a place. The table is unchanged after want of memory.
    pub fn finish(&mut self, session: u64, place: u64, how: How) -> Result<(), NoMemory>
        requires { tables.state_of self.old session ≡ state.Live }
        ensures ok { OnOk result (self.new ≡ tables.finished self.old session place how) }
        ensures err { OnErr result (self.new ≡ self.old) }
    {
        self.past.insert(session, Past { place, how })?;
        if let Some(index) = live_index(&self.sessions, &self.signs, session) {
            self.signs.set(index, None);
        }
        Ok(())
    }
}
