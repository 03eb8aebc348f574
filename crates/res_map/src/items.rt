ghost use Rattle.std.specs.Prelude.{◌≡◌, ◌+◌};
ghost use Rattle.res_map.specs.Lives as lives;

use ax_types::{Duplicate, Life, NoMemory, Text};
use std::alloc::AllocError;
use std::marker::Model;

/// The life of an entry, with the log time at which it was set.
#[derive(Clone, Copy)]
pub struct Span {
    set_at: u64,
    length: Life,
}

impl Model for Span {
    ghost use Rattle.spec_book.specs.Resources as resources;

    ghost Value = { resources.Span };

    ghost view = { λ a. record { set_at = a.set_at; length = a.length } };

    ghost inverse = { λ v. record { set_at = v.set_at; length = v.length } };
}

impl Span {
    /// A life from a log time on.
    pub fn new(set_at: u64, length: Life) -> Self
        ensures { result ≡ record { set_at = set_at; length = length } }
    {
        Span { set_at, length }
    }

    /// The log time at which it ends.
    pub fn end(self) -> u128
        ensures { result ≡ self.set_at + self.length }
    {
        u128::from(self.set_at) + u128::from(self.length.length())
    }
}

/// What stands at a key: a text, and its life where it has one.
#[derive(Drop)]
pub struct MapItem {
    text: Text,
    life: Option<Span>,
}

impl Model for MapItem {
    ghost use Rattle.spec_book.specs.Resources as resources;

    ghost Value = { resources.MapItem };

    ghost view = { λ a. record { text = a.text; life = a.life } };
}

impl MapItem {
    /// A text with its life, or with none.
    pub fn new(text: Text, life: Option<Span>) -> Self
        ensures { result ≡ record { text = text; life = life } }
    {
        MapItem { text, life }
    }

    /// The text.
    pub fn text(&self) -> &Text
        ensures { result.now ≡ self.now.text }
    {
        &self.text
    }

    /// The text alone.
    pub fn into_text(self) -> Text
        ensures { result ≡ self.text }
    {
        self.text
    }

    /// The log time at which its life ends, where it has one.
    pub fn end(&self) -> Option<u128>
        ensures { result ≡ lives.life_end self.now.life }
    {
        match self.life {
            Some(life) => Some(life.end()),
            None => None,
        }
    }
}

impl Clone for MapItem {
    ghost is_clone = { λ s t. t ≡ s };

    fn clone(&self) -> Result<MapItem, AllocError> {
        Ok(MapItem {
            text: self.text.clone()?,
            life: self.life,
        })
    }
}

impl Duplicate for MapItem {
    fn copy(&self) -> Result<MapItem, NoMemory> {
        Ok(self.clone()?)
    }
}
