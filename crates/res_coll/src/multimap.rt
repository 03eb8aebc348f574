ghost use Rattle.std.specs.Prelude.{◌≡◌, [], IfOk, OnOk, OnErr};
ghost use Rattle.spec_book.specs.Resources as resources;
ghost use Rattle.spec_book.specs.Collections as collections;

use crate::pairs::Pairs;
use ax_types::limits::ROOM;
use ax_types::{
    Duplicate, Key, List, MultimapOp, MultimapQuery, Name, NoMemory, Reply, Text, Turn,
};
use std::alloc::Global;
use std::marker::Model;

/// A multimap: pairs of a key and a text, which contracts see as their list in ascending order of key and then of text.
#[derive(Drop)]
pub struct MultimapBox {
    alloc: Global,
    pairs: Pairs,
}

impl Model for MultimapBox {
    ghost use Rattle.std.specs.Prelude.{ℕ, List as Items};

    ghost Value = { Items (Items ℕ × Items ℕ) };

    ghost view = { λ a. a.pairs };
}

impl MultimapBox {
    /// A multimap with no pair. It takes no memory.
    pub fn new(alloc: Global) -> Self
        ensures { result ≡ [] }
    {
        MultimapBox {
            alloc,
            pairs: Pairs::new(alloc),
        }
    }

    /// One operation of a session. The multimap is unchanged after want of memory.
    pub fn act(
        &mut self,
        name: &Name,
        place: u64,
        session: u64,
        op: &MultimapOp,
    ) -> Result<Turn, NoMemory>
        ensures ok { IfOk result (λ turn. turn ≡ (collections.multimap_act op.now self.old).turn) }
        ensures after { OnOk result (self.new ≡ (collections.multimap_act op.now self.old).state) }
        ensures err { OnErr result (self.new ≡ self.old) }
    {
        match op {
            MultimapOp::Put { key, text } => self.put(key, text),
            MultimapOp::Remove { key, text } => Ok(self.remove(key, text)),
            MultimapOp::RemoveAll { key } => Ok(self.remove_all(key)),
        }
    }

    /// What a query is answered.
    pub fn ask(&self, query: &MultimapQuery) -> Result<Reply, NoMemory>
        ensures { IfOk result (λ reply. reply ≡ collections.multimap_ask query.now self.now) }
    {
        match query {
            MultimapQuery::Contains { key, text } => Ok(Reply::from(
                self.pairs.contains(key, text),
            )),
            MultimapQuery::Count { key } => Ok(Reply::Number(self.pairs.count(key) as i64)),
            MultimapQuery::Size => Ok(Reply::Number(self.pairs.len() as i64)),
        }
    }

    /// The session ended: a multimap knows no session, so nothing changes.
    pub fn end(&mut self, name: &Name, place: u64, session: u64) -> Result<Turn, NoMemory>
        ensures ok { IfOk result (λ turn. turn ≡ (resources.replied self.old Reply.Done).turn) }
        ensures unchanged { self.new ≡ self.old }
    {
        Ok(Turn::quiet(self.alloc, Reply::Done))
    }

    /// Adds a pair that is not in.
    fn put(&mut self, key: &Key, text: &Text) -> Result<Turn, NoMemory>
        ensures ok { IfOk result (λ turn. turn ≡ (collections.multimap_act (MultimapOp.Put key.now text.now) self.old).turn) }
        ensures after { OnOk result (self.new ≡ (collections.multimap_act (MultimapOp.Put key.now text.now) self.old).state) }
        ensures err { OnErr result (self.new ≡ self.old) }
    {
        if self.pairs.contains(key, text) {
            return Ok(Turn::quiet(self.alloc, Reply::No));
        }
        if self.pairs.len() >= ROOM {
            return Ok(Turn::quiet(self.alloc, Reply::Full));
        }
        self.pairs.add(key, text)?;
        Ok(Turn::quiet(self.alloc, Reply::Yes))
    }

    /// Takes a pair out that is in.
    fn remove(&mut self, key: &Key, text: &Text) -> Turn
        ensures turn { result ≡ (collections.multimap_act (MultimapOp.Remove key.now text.now) self.old).turn }
        ensures after { self.new ≡ (collections.multimap_act (MultimapOp.Remove key.now text.now) self.old).state }
    {
        if !self.pairs.contains(key, text) {
            return Turn::quiet(self.alloc, Reply::No);
        }
        self.pairs.remove(key, text);
        Turn::quiet(self.alloc, Reply::Yes)
    }

    /// Takes the pairs of a key out.
    fn remove_all(&mut self, key: &Key) -> Turn
        ensures turn { result ≡ (collections.multimap_act (MultimapOp.RemoveAll key.now) self.old).turn }
        ensures after { self.new ≡ (collections.multimap_act (MultimapOp.RemoveAll key.now) self.old).state }
    {
        let count = self.pairs.remove_all(key);
        Turn::quiet(self.alloc, Reply::Number(count as i64))
    }
}

impl Duplicate for MultimapBox {
    fn copy(&self) -> Result<MultimapBox, NoMemory> {
        Ok(MultimapBox {
            alloc: self.alloc,
            pairs: self.pairs.copy()?,
        })
    }
}
