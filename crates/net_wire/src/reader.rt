ghost use Rattle.std.specs.Prelude.{◌≡◌, length};

use std::alloc::Global;
use std::marker::Model;

mod entries;
mod numbers;
mod operations;
mod payloads;
mod queries;
mod replies;
mod texts;

/// Reads values one after the other from the front of bytes, which contracts see as the bytes that are left. After an
/// `Err` it stands somewhere in what it could not read.
#[derive(Drop)]
pub struct Reader<'a> {
    alloc: Global,
    rest: &'a [u8],
}

impl<'a> Model for Reader<'a> {
    ghost use Rattle.std.specs.Prelude.{ℕ, List as Items};

    ghost Value = { Items ℕ };

    ghost view = { λ a. a.rest.now };
}

impl<'a> Reader<'a> {
    /// A reader of these bytes.
    pub fn new(alloc: Global, bytes: &'a [u8]) -> Self
        ensures { result ≡ bytes.now }
    {
        Reader { alloc, rest: bytes }
    }

    /// How many bytes are left.
    pub fn left(&self) -> usize
        ensures { result ≡ length self.now }
    {
        self.rest.len()
    }
}
