ghost use Rattle.std.specs.Prelude.{◌≡◌, ℕ, ◌<◌, ◌^◌, false, List as Items, [], ◌∷◌, ◌++◌, length, position, MatchOption, slice_get, IfOk, OnOk, OnErr, IfSome, IsTrue, ◌↔◌};
ghost use Rattle.std.specs.Bool.{OnFalse};
ghost use Rattle.std.specs.Ordering.{nat_cmp};
ghost use Rattle.std.specs.BTreeMap.{is_at};
ghost use Rattle.spec_book.specs.Dict as dicts;
ghost use Rattle.res_sessions.specs.EachOnce as each_once;

use ax_types::{Duplicate, List, NoMemory};
use std::alloc::Global;
use std::collections::{BTreeSet, VecDeque};
use std::marker::Model;

/// Sessions in the order in which they came, each once. Contracts see them as their list, the first to come first.
#[derive(Drop)]
pub struct SessionQueue {
    alloc: Global,
    sessions: VecDeque<u64>,
    index: BTreeSet<u64>,
}

impl Model for SessionQueue {
    ghost use Rattle.std.specs.Prelude.{ℕ, List as Items};
    ghost use Rattle.res_sessions.specs.EachOnce as each_once;

    ghost Value = { Items ℕ };

    ghost view = { λ a. a.sessions.items };

    ghost invariant = { λ a. each_once.IsIndexed a.index.keys a.sessions.items };
}

impl SessionQueue {
    /// No session. It takes no memory.
    pub fn new(alloc: Global) -> Self
        ensures { result ≡ [] }
    {
        SessionQueue {
            alloc,
            sessions: VecDeque::new(alloc),
            index: BTreeSet::new(alloc),
        }
    }

    /// How many sessions there are.
    pub fn len(&self) -> usize
        ensures len { result ≡ length self.now }
        ensures small { result < 2 ^ 63 }
        ensures each_once { each_once.EachOnce self.now }
    {
        self.sessions.len()
    }

    /// Whether there is no session.
    pub fn is_empty(&self) -> bool
        ensures { IsTrue result ↔ (self.now ≡ []) }
    {
        self.sessions.is_empty()
    }

    /// Whether the session is one of them.
    pub fn contains(&self, session: u64) -> bool
        ensures { result ≡ dicts.has_session self.now session }
    {
        self.index.contains(&session)
    }

    /// The session that came first.
    pub fn first(&self) -> Option<u64>
        ensures { result ≡ slice_get self.now 0 }
    {
        self.at(0)
    }

    /// The session that came first among the others than this one.
    pub fn first_without(&self, session: u64) -> Option<u64>
        ensures { result ≡ slice_get (dicts.without_session self.now session) 0 }
    {
        match self.at(0) {
            None => None,
            Some(first) => {
                if session.cmp(&first).is_eq() {
                    self.at(1)
                } else {
                    Some(first)
                }
            }
        }
    }

    /// The session before which `before` others came.
    fn at(&self, before: usize) -> Option<u64>
        ensures { result ≡ slice_get self.now before }
    {
        self.sessions.get(before).copied()
    }

    /// The session comes last, where it is none of them. The sessions are unchanged after want of memory.
    pub fn push(&mut self, session: u64) -> Result<(), NoMemory>
        requires { dicts.has_session self.old session ≡ false }
        ensures ok { OnOk result (self.new ≡ self.old ++ session ∷ []) }
        ensures err { OnErr result (self.new ≡ self.old) }
    {
        self.sessions.reserve(1)?;
        self.index.insert(session)?;
        match self.sessions.push_back(session) {
            Ok(()) => Ok(()),
            Err(_) => {
                self.index.remove(&session);
                Err(NoMemory)
            }
        }
    }

    /// Takes the session that came first.
    pub fn pop_first(&mut self) -> Option<u64>
        ensures first { MatchOption result ((self.old ≡ []) × (self.new ≡ [])) (λ s. self.old ≡ s ∷ self.new) }
        ensures gone { IfSome result (λ s. dicts.has_session self.new s ≡ false) }
    {
        let first = self.sessions.pop_front()?;
        self.index.remove(&first);
        Some(first)
    }

    /// Takes the session away. Answers whether it was one of them.
    pub fn remove(&mut self, session: u64) -> bool
        ensures found { result ≡ dicts.has_session self.old session }
        ensures after { self.new ≡ dicts.without_session self.old session }
        ensures unchanged { OnFalse result (self.new ≡ self.old) }
    {
        match self.place_of(session) {
            None => false,
            Some(place) => {
                self.sessions.remove(place);
                self.index.remove(&session)
            }
        }
    }

    /// How many sessions stand before this one. Where it is none of them, no session is looked at.
    fn place_of(&self, session: u64) -> Option<usize>
        ensures { result ≡ position (is_at (nat_cmp session)) self.now }
    {
        if !self.contains(session) {
            return None;
        }
        self.sessions
            .iter()
            .position(|other| session.cmp(other).is_eq())
    }

    /// The sessions as a list.
    pub fn to_list(&self) -> Result<List<u64>, NoMemory>
        ensures { IfOk result (λ sessions. sessions ≡ self.now) }
    {
        let mut sessions = List::with_capacity(self.alloc, self.sessions.len())?;
        for session in self.sessions.iter() {
            sessions.push(*session)?;
        }
        Ok(sessions)
    }
}

impl Duplicate for SessionQueue {
    fn copy(&self) -> Result<SessionQueue, NoMemory> {
        Ok(SessionQueue {
            alloc: self.alloc,
            sessions: self.sessions.clone()?,
            index: self.index.clone()?,
        })
    }
}
