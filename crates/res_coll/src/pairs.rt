//! The pairs of a multimap, by key.
ghost use Rattle.std.specs.Prelude.{◌≡◌, ◌<◌, ◌≤◌, [], true, false, length, OnOk, OnErr};
ghost use Rattle.std.specs.List.Sorted.{IsStrictlySortedBy};
ghost use Rattle.std.specs.Map.{keys_of};
ghost use Rattle.std.specs.BTreeMap.{is_at};
ghost use Rattle.std.specs.BTreeSet.{insert_key};
ghost use Rattle.std.specs.Set.{remove_key};
ghost use Rattle.spec_book.specs.Dict as dicts;
ghost use Rattle.spec_book.specs.Collections as collections;
ghost use Rattle.res_coll.specs.Pairs as pairs;

use ax_types::limits::ROOM;
use ax_types::{Duplicate, Key, NoMemory, Text};
use std::alloc::Global;
use std::collections::{BTreeMap, BTreeSet};
use std::marker::Model;

/// At most 1,024 pairs of a key and a text, which contracts see as their list in ascending order of key and then of text.
#[derive(Drop)]
pub struct Pairs {
    alloc: Global,
    texts: BTreeMap<Key, BTreeSet<Text>>,
    len: usize,
}

impl Model for Pairs {
    ghost use Rattle.std.specs.Prelude.{◌≡◌, ℕ, ◌≤◌, List as Items, length};
    ghost use Rattle.ax_types.specs.declared.limits.TheConstants.{ROOM};
    ghost use Rattle.std.specs.List.Sorted.{IsStrictlySortedBy};
    ghost use Rattle.std.specs.Map.{keys_of};
    ghost use Rattle.spec_book.specs.Dict as dicts;
    ghost use Rattle.res_coll.specs.Pairs as pairs;

    ghost Value = { Items (Items ℕ × Items ℕ) };

    ghost view = { λ a. pairs.pairs_in a.texts.entries };

    ghost invariant = { λ a. IsStrictlySortedBy dicts.bytes_cmp (keys_of a.texts.entries) × (a.len ≡ length (pairs.pairs_in a.texts.entries)) × (a.len ≤ ROOM) };
}

impl Pairs {
    /// No pair. It takes no memory.
    pub fn new(alloc: Global) -> Self
        ensures { result ≡ [] }
    {
        Pairs {
            alloc,
            texts: BTreeMap::new(alloc),
            len: 0,
        }
    }

    /// How many pairs there are.
    pub fn len(&self) -> usize
        ensures len { result ≡ length self.now }
        ensures within { result ≤ ROOM }
    {
        self.len
    }

    /// Whether the pair is in.
    pub fn contains(&self, key: &Key, text: &Text) -> bool
        ensures { result ≡ collections.has_pair self.now (key.now, text.now) }
    {
        match self.texts.get(key) {
            None => false,
            Some(texts) => texts.contains(text),
        }
    }

    /// How many pairs the key has.
    pub fn count(&self, key: &Key) -> usize
        ensures count { result ≡ length (collections.pairs_of key.now self.now) }
        ensures within { result ≤ ROOM }
    {
        match self.texts.get(key) {
            None => 0,
            Some(texts) => texts.len(),
        }
    }

    /// Adds a pair that is not in. The pairs are unchanged after want of memory.
    pub fn add(&mut self, key: &Key, text: &Text) -> Result<(), NoMemory>
        requires absent { collections.has_pair self.old (key.now, text.now) ≡ false }
        requires room { length self.old < ROOM }
        ensures ok { OnOk result (self.new ≡ insert_key collections.pair_cmp self.old (key.now, text.now)) }
        ensures err { OnErr result (self.new ≡ self.old) }
    {
        add_text(&mut self.texts, self.alloc, key, text.copy()?)?;
        self.len += 1;
        Ok(())
    }

    /// Takes a pair out that is in.
    pub fn remove(&mut self, key: &Key, text: &Text)
        requires { collections.has_pair self.old (key.now, text.now) ≡ true }
        ensures { self.new ≡ remove_key (is_at (collections.pair_cmp (key.now, text.now))) self.old }
    {
        remove_text(&mut self.texts, key, text);
        self.len -= 1;
    }

    /// Takes the pairs of a key out. Answers how many they were.
    pub fn remove_all(&mut self, key: &Key) -> usize
        ensures count { result ≡ length (collections.pairs_of key.now self.old) }
        ensures within { result ≤ ROOM }
        ensures after { self.new ≡ collections.without_pairs key.now self.old }
    {
        match self.texts.remove(key) {
            None => 0,
            Some(texts) => {
                let count = texts.len();
                self.len -= count;
                count
            }
        }
    }
}

impl Duplicate for Pairs {
    fn copy(&self) -> Result<Pairs, NoMemory> {
        Ok(Pairs {
            alloc: self.alloc,
            texts: self.texts.clone()?,
            len: self.len,
        })
    }
}

/// Adds a text to those of a key. The texts are unchanged after want of memory.
fn add_text(
    texts: &mut BTreeMap<Key, BTreeSet<Text>>,
    alloc: Global,
    key: &Key,
    text: Text,
) -> Result<(), NoMemory>
    ensures ok { OnOk result (pairs.pairs_in texts.new.entries ≡ insert_key collections.pair_cmp (pairs.pairs_in texts.old.entries) (key.now, text)) }
    ensures err { OnErr result (pairs.pairs_in texts.new.entries ≡ pairs.pairs_in texts.old.entries) }
    ensures ascending { IsStrictlySortedBy dicts.bytes_cmp (keys_of texts.new.entries) }
{
    match texts.get_mut(key) {
        Some(held) => {
            held.insert(text)?;
            Ok(())
        }
        None => {
            let mut first = BTreeSet::new(alloc);
            first.insert(text)?;
            texts.insert(key.copy()?, first)?;
            Ok(())
        }
    }
}

/// Takes a text out of those of a key, and the key where it was the last.
fn remove_text(texts: &mut BTreeMap<Key, BTreeSet<Text>>, key: &Key, text: &Text)
    ensures after { pairs.pairs_in texts.new.entries ≡ remove_key (is_at (collections.pair_cmp (key.now, text.now))) (pairs.pairs_in texts.old.entries) }
    ensures ascending { IsStrictlySortedBy dicts.bytes_cmp (keys_of texts.new.entries) }
{
    let Some(held) = texts.get_mut(key) else {
        return;
    };
    held.remove(text);
    if held.is_empty() {
        texts.remove(key);
    }
}
