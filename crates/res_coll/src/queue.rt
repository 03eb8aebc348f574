ghost use Rattle.std.specs.Prelude.{◌≡◌, [], IfOk, OnOk, OnErr};
ghost use Rattle.spec_book.specs.Resources as resources;
ghost use Rattle.spec_book.specs.Collections as collections;

use ax_types::limits::ROOM;
use ax_types::{Duplicate, List, Name, NoMemory, QueueOp, QueueQuery, Reply, Text, Turn};
use std::alloc::Global;
use std::collections::VecDeque;
use std::marker::Model;

/// A queue of texts, which contracts see as their list from the first to the last.
#[derive(Drop)]
pub struct QueueBox {
    alloc: Global,
    texts: VecDeque<Text>,
}

impl Model for QueueBox {
    ghost use Rattle.std.specs.Prelude.{ℕ, List as Items};

    ghost Value = { Items (Items ℕ) };

    ghost view = { λ a. a.texts.items };
}

impl QueueBox {
    /// A queue with no text. It takes no memory.
    pub fn new(alloc: Global) -> Self
        ensures { result ≡ [] }
    {
        QueueBox {
            alloc,
            texts: VecDeque::new(alloc),
        }
    }

    /// One operation of a session. The queue is unchanged after want of memory.
    pub fn act(
        &mut self,
        name: &Name,
        place: u64,
        session: u64,
        op: &QueueOp,
    ) -> Result<Turn, NoMemory>
        ensures ok { IfOk result (λ turn. turn ≡ (collections.queue_act op.now self.old).turn) }
        ensures after { OnOk result (self.new ≡ (collections.queue_act op.now self.old).state) }
        ensures err { OnErr result (self.new ≡ self.old) }
    {
        match op {
            QueueOp::Offer { text } => self.offer(text),
            QueueOp::Poll => Ok(self.poll()),
        }
    }

    /// What a query is answered.
    pub fn ask(&self, query: &QueueQuery) -> Result<Reply, NoMemory>
        ensures { IfOk result (λ reply. reply ≡ collections.queue_ask query.now self.now) }
    {
        match query {
            QueueQuery::Peek => match self.texts.front() {
                None => Ok(Reply::Nothing),
                Some(text) => Ok(Reply::Found(text.copy()?)),
            },
            QueueQuery::Size => Ok(Reply::Number(self.texts.len() as i64)),
        }
    }

    /// The session ended: a queue knows no session, so nothing changes.
    pub fn end(&mut self, name: &Name, place: u64, session: u64) -> Result<Turn, NoMemory>
        ensures ok { IfOk result (λ turn. turn ≡ (resources.replied self.old Reply.Done).turn) }
        ensures unchanged { self.new ≡ self.old }
    {
        Ok(Turn::quiet(self.alloc, Reply::Done))
    }

    /// Puts a text last.
    fn offer(&mut self, text: &Text) -> Result<Turn, NoMemory>
        ensures ok { IfOk result (λ turn. turn ≡ (collections.queue_act (QueueOp.Offer text.now) self.old).turn) }
        ensures after { OnOk result (self.new ≡ (collections.queue_act (QueueOp.Offer text.now) self.old).state) }
        ensures err { OnErr result (self.new ≡ self.old) }
    {
        if self.texts.len() >= ROOM {
            return Ok(Turn::quiet(self.alloc, Reply::Full));
        }
        self.texts.push_back(text.copy()?)?;
        Ok(Turn::quiet(self.alloc, Reply::Yes))
    }

    /// Takes the first text out, if there is one.
    fn poll(&mut self) -> Turn
        ensures turn { result ≡ (collections.queue_act QueueOp.Poll self.old).turn }
        ensures after { self.new ≡ (collections.queue_act QueueOp.Poll self.old).state }
    {
        match self.texts.pop_front() {
            None => Turn::quiet(self.alloc, Reply::Nothing),
            Some(text) => Turn::quiet(self.alloc, Reply::Found(text)),
        }
    }
}

impl Duplicate for QueueBox {
    fn copy(&self) -> Result<QueueBox, NoMemory> {
        Ok(QueueBox {
            alloc: self.alloc,
            texts: self.texts.clone()?,
        })
    }
}
