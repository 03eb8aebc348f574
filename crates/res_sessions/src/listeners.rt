ghost use Rattle.std.specs.Prelude.{◌≡◌, ℕ, ◌<◌, ◌≤◌, ◌^◌, List as Items, [], ◌++◌, length, IfOk, OnOk, OnErr, IsTrue, ◌↔◌};
ghost use Rattle.std.specs.Bool.{OnFalse};
ghost use Rattle.std.specs.Ordering.{nat_cmp};
ghost use Rattle.std.specs.List.Sorted.{IsStrictlySortedBy};
ghost use Rattle.spec_book.specs.Dict as dicts;
ghost use Rattle.spec_book.specs.Scalars as scalars;
ghost use Rattle.spec_book.specs.Resources as resources;

use ax_types::limits::ROOM;
use ax_types::{Duplicate, Event, List, NoMemory, Reply};
use std::alloc::Global;
use std::collections::BTreeSet;
use std::marker::Model;

/// The sessions that listen to a resource, which contracts see as their list in ascending order.
#[derive(Drop)]
pub struct Listeners {
    alloc: Global,
    sessions: BTreeSet<u64>,
}

impl Model for Listeners {
    ghost use Rattle.std.specs.Prelude.{ℕ, List as Items};

    ghost Value = { Items ℕ };

    ghost view = { λ a. a.sessions.keys };
}

impl Listeners {
    /// No session. It takes no memory.
    pub fn new(alloc: Global) -> Self
        ensures { result ≡ [] }
    {
        Listeners {
            alloc,
            sessions: BTreeSet::new(alloc),
        }
    }

    /// How many sessions listen.
    pub fn len(&self) -> usize
        ensures len { result ≡ length self.now }
        ensures small { result < 2 ^ 63 }
        ensures ascending { IsStrictlySortedBy nat_cmp self.now }
    {
        self.sessions.len()
    }

    /// Whether no session listens.
    pub fn is_empty(&self) -> bool
        ensures { IsTrue result ↔ (self.now ≡ []) }
    {
        self.sessions.is_empty()
    }

    /// Whether the session listens.
    pub fn contains(&self, session: u64) -> bool
        ensures { result ≡ dicts.has_session self.now session }
    {
        self.sessions.contains(&session)
    }

    /// The session listens from now on: `Already` where it did before, `Full` where 1,024 others do. The listeners are
    /// unchanged after want of memory.
    pub fn listen(&mut self, session: u64) -> Result<Reply, NoMemory>
        ensures ok { IfOk result (λ reply. reply ≡ scalars.listen_reply self.old session) }
        ensures after { OnOk result (self.new ≡ scalars.listen_after self.old session) }
        ensures err { OnErr result (self.new ≡ self.old) }
    {
        if self.contains(session) {
            return Ok(Reply::Already);
        }
        if self.len() >= ROOM {
            return Ok(Reply::Full);
        }
        self.sessions.insert(session)?;
        Ok(Reply::Done)
    }

    /// The session listens no more. Answers whether it did.
    pub fn unlisten(&mut self, session: u64) -> bool
        ensures listened { result ≡ dicts.has_session self.old session }
        ensures after { self.new ≡ dicts.without_session self.old session }
        ensures unchanged { OnFalse result (self.new ≡ self.old) }
    {
        self.sessions.remove(&session)
    }

    /// The event for each listener, in ascending order of session.
    pub fn tell(&self, event: &Event) -> Result<List<(u64, Event)>, NoMemory>
        ensures { IfOk result (λ told. told ≡ resources.tell self.now event.now) }
    {
        let mut told = List::with_capacity(self.alloc, self.sessions.len())?;
        self.tell_too(&mut told, event)?;
        Ok(told)
    }

    /// Appends the event for each listener, in ascending order of session, to what is told already. After want of
    /// memory the list may have some of them.
    pub fn tell_too(&self, told: &mut List<(u64, Event)>, event: &Event) -> Result<(), NoMemory>
        ensures { OnOk result (told.new ≡ told.old ++ resources.tell self.now event.now) }
    {
        for session in self.sessions.iter() {
            told.push((*session, event.copy()?))?;
        }
        Ok(())
    }

    /// Appends the event for each listener but this session, in ascending order of session, to what is told already. After
    /// want of memory the list may have some of them.
    pub fn tell_others(
        &self,
        told: &mut List<(u64, Event)>,
        session: u64,
        event: &Event,
    ) -> Result<(), NoMemory>
        ensures { OnOk result (told.new ≡ told.old ++ resources.tell (dicts.without_session self.now session) event.now) }
    {
        for other in self.sessions.iter() {
            if *other != session {
                told.push((*other, event.copy()?))?;
            }
        }
        Ok(())
    }
}

impl Duplicate for Listeners {
    fn copy(&self) -> Result<Listeners, NoMemory> {
        Ok(Listeners {
            alloc: self.alloc,
            sessions: self.sessions.clone()?,
        })
    }
}
