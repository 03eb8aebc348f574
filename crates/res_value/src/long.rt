ghost use Rattle.std.specs.Prelude.{◌≡◌, ℤ, pos, ◌+ℤ◌, IfOk, OnOk, OnErr};
ghost use Rattle.spec_book.specs.Resources as resources;
ghost use Rattle.spec_book.specs.Scalars as scalars;

use ax_types::{Duplicate, List, LongOp, LongQuery, Name, NoMemory, Reply, Turn};
use std::alloc::Global;
use std::marker::Model;
use std::mem;

/// A long: a whole number of 64 bits with a sign.
#[derive(Drop)]
pub struct LongBox {
    alloc: Global,
    number: i64,
}

impl Model for LongBox {
    ghost use Rattle.std.specs.Prelude.{ℤ};

    ghost Value = { ℤ };

    ghost view = { λ a. a.number };
}

impl LongBox {
    /// A long, from 0.
    pub fn new(alloc: Global) -> Self
        ensures { result ≡ pos 0 }
    {
        LongBox { alloc, number: 0 }
    }

    /// One operation. A sum outside 64 bits is answered `Overflow` and changes nothing. It takes no memory.
    pub fn act(
        &mut self,
        name: &Name,
        place: u64,
        session: u64,
        op: &LongOp,
    ) -> Result<Turn, NoMemory>
        ensures ok { IfOk result (λ turn. turn ≡ (scalars.long_act op.now self.old).turn) }
        ensures after { OnOk result (self.new ≡ (scalars.long_act op.now self.old).state) }
        ensures err { OnErr result (self.new ≡ self.old) }
    {
        match op {
            LongOp::Add { delta } => Ok(self.add(*delta)),
            LongOp::GetAndAdd { delta } => Ok(self.get_and_add(*delta)),
            LongOp::Set { number } => Ok(self.set(*number)),
            LongOp::Cas { expected, number } => Ok(self.compare_and_set(*expected, *number)),
        }
    }

    /// What a query is answered.
    pub fn ask(&self, query: &LongQuery) -> Result<Reply, NoMemory>
        ensures { IfOk result (λ reply. reply ≡ scalars.long_ask query.now self.now) }
    {
        match query {
            LongQuery::Get => Ok(Reply::Number(self.number)),
        }
    }

    /// The session ended: a long knows no session, so nothing changes.
    pub fn end(&mut self, name: &Name, place: u64, session: u64) -> Result<Turn, NoMemory>
        ensures ok { IfOk result (λ turn. turn ≡ (resources.replied self.old Reply.Done).turn) }
        ensures unchanged { self.new ≡ self.old }
    {
        Ok(Turn::quiet(self.alloc, Reply::Done))
    }

    /// Adds, and answers the sum.
    fn add(&mut self, delta: i64) -> Turn
        ensures turn { result ≡ (scalars.long_act (LongOp.Add delta) self.old).turn }
        ensures after { self.new ≡ (scalars.long_act (LongOp.Add delta) self.old).state }
    {
        match self.number.checked_add(delta) {
            None => Turn::quiet(self.alloc, Reply::Overflow),
            Some(sum) => {
                self.number = sum;
                Turn::quiet(self.alloc, Reply::Number(sum))
            }
        }
    }

    /// Adds, and answers what stood there.
    fn get_and_add(&mut self, delta: i64) -> Turn
        ensures turn { result ≡ (scalars.long_act (LongOp.GetAndAdd delta) self.old).turn }
        ensures after { self.new ≡ (scalars.long_act (LongOp.GetAndAdd delta) self.old).state }
    {
        match self.number.checked_add(delta) {
            None => Turn::quiet(self.alloc, Reply::Overflow),
            Some(sum) => {
                let old = mem::replace(&mut self.number, sum);
                Turn::quiet(self.alloc, Reply::Number(old))
            }
        }
    }

    /// Sets, and answers what stood there.
    fn set(&mut self, number: i64) -> Turn
        ensures turn { result ≡ (scalars.long_act (LongOp.Set number) self.old).turn }
        ensures after { self.new ≡ (scalars.long_act (LongOp.Set number) self.old).state }
    {
        let old = mem::replace(&mut self.number, number);
        Turn::quiet(self.alloc, Reply::Number(old))
    }

    /// Sets, where the expected number stands.
    fn compare_and_set(&mut self, expected: i64, number: i64) -> Turn
        ensures turn { result ≡ (scalars.long_act (LongOp.Cas expected number) self.old).turn }
        ensures after { self.new ≡ (scalars.long_act (LongOp.Cas expected number) self.old).state }
    {
        if self.number == expected {
            self.number = number;
            Turn::quiet(self.alloc, Reply::Yes)
        } else {
            Turn::quiet(self.alloc, Reply::No)
        }
    }
}

impl Duplicate for LongBox {
    fn copy(&self) -> Result<LongBox, NoMemory> {
        Ok(LongBox {
            alloc: self.alloc,
            number: self.number,
        })
    }
}
