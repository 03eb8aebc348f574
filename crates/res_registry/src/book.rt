ghost use Rattle.std.specs.Prelude.{◌≡◌, true, false, [], IfOk, OnOk, OnErr};
ghost use Rattle.spec_book.specs.Book as books;

use crate::shelf::Shelf;
use ax_types::{Act, Duplicate, Name, NoMemory, Query, Reply, Turn};
use std::alloc::Global;
use std::marker::Model;

/// The book: every resource by its name. After want of memory in `act` it is spent: the act may be half done, and no
/// further act is made.
#[derive(Drop)]
pub struct Book {
    alloc: Global,
    shelf: Shelf,
    is_spent: bool,
}

impl Model for Book {
    ghost use Rattle.std.specs.Prelude.{◌≡◌, false};
    ghost use Rattle.res_registry.specs.Kept as kept;
    ghost use Rattle.res_registry.specs.State as states;

    ghost Value = { states.BookState };

    ghost view = { λ a. record { resources = a.shelf.slots.entries; is_spent = a.is_spent } };

    ghost invariant = { λ a. a.is_spent ≡ false → kept.IsIndexedBook a.shelf.slots.entries a.shelf.ends a.shelf.touched };
}

impl Book {
    /// A book of no resource. It takes no memory.
    pub fn new(alloc: Global) -> Self
        ensures { result ≡ record { resources = []; is_spent = false } }
    {
        Book {
            alloc,
            shelf: Shelf::new(alloc),
            is_spent: false,
        }
    }

    /// One act of a history, at its place and log time. An act that is no `Do` replies `Done`. After want of memory the
    /// book is spent.
    pub fn act(&mut self, place: u64, time: u64, act: &Act) -> Result<Turn, NoMemory>
        requires { self.old.is_spent ≡ false }
        ensures ok { IfOk result (λ turn. turn ≡ (books.acted self.old.resources place time act.now).turn) }
        ensures after { OnOk result (self.new ≡ record { resources = (books.acted self.old.resources place time act.now).state; is_spent = false }) }
        ensures err { OnErr result (self.new.is_spent ≡ true) }
    {
        self.is_spent = true;
        let turn = self.shelf.act(self.alloc, place, time, act)?;
        self.is_spent = false;
        Ok(turn)
    }

    /// What a query at a name is answered. An unused name answers as a new resource of the query's kind.
    pub fn ask(&self, name: &Name, query: &Query) -> Result<Reply, NoMemory>
        ensures { IfOk result (λ reply. reply ≡ books.ask self.now.resources name.now query.now) }
    {
        self.shelf.ask(self.alloc, name, query)
    }
}

impl Duplicate for Book {
    fn copy(&self) -> Result<Book, NoMemory> {
        Ok(Book {
            alloc: self.alloc,
            shelf: self.shelf.copy()?,
            is_spent: self.is_spent,
        })
    }
}
