ghost use Rattle.std.specs.Prelude.{◌≡◌, [], IfOk, OnOk, OnErr};
ghost use Rattle.spec_book.specs.Resources as resources;
ghost use Rattle.spec_book.specs.Collections as collections;

use ax_types::limits::ROOM;
use ax_types::{Duplicate, List, Name, NoMemory, Reply, SetOp, SetQuery, Text, Turn};
use std::alloc::Global;
use std::collections::BTreeSet;
use std::marker::Model;

/// A set of texts, which contracts see as their list in ascending order.
#[derive(Drop)]
pub struct SetBox {
    alloc: Global,
    texts: BTreeSet<Text>,
}

impl Model for SetBox {
    ghost use Rattle.std.specs.Prelude.{ℕ, List as Items};

    ghost Value = { Items (Items ℕ) };

    ghost view = { λ a. a.texts.keys };
}

impl SetBox {
    /// A set with no text. It takes no memory.
    pub fn new(alloc: Global) -> Self
        ensures { result ≡ [] }
    {
        SetBox {
            alloc,
            texts: BTreeSet::new(alloc),
        }
    }

    /// One operation of a session. The set is unchanged after want of memory.
    pub fn act(
        &mut self,
        name: &Name,
        place: u64,
        session: u64,
        op: &SetOp,
    ) -> Result<Turn, NoMemory>
        ensures ok { IfOk result (λ turn. turn ≡ (collections.set_act op.now self.old).turn) }
        ensures after { OnOk result (self.new ≡ (collections.set_act op.now self.old).state) }
        ensures err { OnErr result (self.new ≡ self.old) }
    {
        match op {
            SetOp::Add { text } => self.add(text),
            SetOp::Remove { text } => Ok(self.remove(text)),
            SetOp::Clear => Ok(self.clear()),
        }
    }

    /// What a query is answered.
    pub fn ask(&self, query: &SetQuery) -> Result<Reply, NoMemory>
        ensures { IfOk result (λ reply. reply ≡ collections.set_ask query.now self.now) }
    {
        match query {
            SetQuery::Contains { text } => Ok(Reply::from(self.texts.contains(text))),
            SetQuery::Size => Ok(Reply::Number(self.texts.len() as i64)),
        }
    }

    /// The session ended: a set knows no session, so nothing changes.
    pub fn end(&mut self, name: &Name, place: u64, session: u64) -> Result<Turn, NoMemory>
        ensures ok { IfOk result (λ turn. turn ≡ (resources.replied self.old Reply.Done).turn) }
        ensures unchanged { self.new ≡ self.old }
    {
        Ok(Turn::quiet(self.alloc, Reply::Done))
    }

    /// Adds a text that is not in.
    fn add(&mut self, text: &Text) -> Result<Turn, NoMemory>
        ensures ok { IfOk result (λ turn. turn ≡ (collections.set_act (SetOp.Add text.now) self.old).turn) }
        ensures after { OnOk result (self.new ≡ (collections.set_act (SetOp.Add text.now) self.old).state) }
        ensures err { OnErr result (self.new ≡ self.old) }
    {
        if self.texts.contains(text) {
            return Ok(Turn::quiet(self.alloc, Reply::No));
        }
        if self.texts.len() >= ROOM {
            return Ok(Turn::quiet(self.alloc, Reply::Full));
        }
        self.texts.insert(text.copy()?)?;
        Ok(Turn::quiet(self.alloc, Reply::Yes))
    }

    /// Takes a text out that is in.
    fn remove(&mut self, text: &Text) -> Turn
        ensures turn { result ≡ (collections.set_act (SetOp.Remove text.now) self.old).turn }
        ensures after { self.new ≡ (collections.set_act (SetOp.Remove text.now) self.old).state }
    {
        if self.texts.remove(text) {
            Turn::quiet(self.alloc, Reply::Yes)
        } else {
            Turn::quiet(self.alloc, Reply::No)
        }
    }

    /// Takes all texts out.
    fn clear(&mut self) -> Turn
        ensures turn { result ≡ (collections.set_act SetOp.Clear self.old).turn }
        ensures after { self.new ≡ (collections.set_act SetOp.Clear self.old).state }
    {
        self.texts.clear();
        Turn::quiet(self.alloc, Reply::Done)
    }
}

impl Duplicate for SetBox {
    fn copy(&self) -> Result<SetBox, NoMemory> {
        Ok(SetBox {
            alloc: self.alloc,
            texts: self.texts.clone()?,
        })
    }
}
