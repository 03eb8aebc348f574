//! The entries of a map, with the index of their deadlines.
ghost use Rattle.std.specs.Prelude.{◌≡◌, ◌<◌, ◌^◌, List as Items, [], None, length, is_some, IfOk, OnOk, OnErr};
ghost use Rattle.std.specs.Option.{option_copied};
ghost use Rattle.std.specs.List.Sorted.{IsStrictlySortedBy};
ghost use Rattle.std.specs.Map.{keys_of};
ghost use Rattle.spec_book.specs.Limits as limits;
ghost use Rattle.spec_book.specs.Dict as dicts;
ghost use Rattle.res_map.specs.Lives as lives;
ghost use Rattle.res_map.specs.Put as puts;

use crate::items::MapItem;
use ax_types::limits::ROOM;
use ax_types::{Duplicate, Key, NoMemory};
use res_deadlines::Deadlines;
use std::alloc::Global;
use std::collections::btree_map::Keys;
use std::collections::{BTreeMap, BTreeSet};
use std::marker::Model;
use std::mem;

/// What comes of putting an item at a key.
#[derive(Drop)]
pub enum Put {
    /// The key has none, and there is no room for it.
    Full,
    /// The key had none.
    New,
    /// The item that the key had.
    Replaced(MapItem),
}

/// The entries of a map, which contracts see as their list in ascending order of key.
#[derive(Drop)]
pub struct Entries {
    items: BTreeMap<Key, MapItem>,
    deadlines: Deadlines<Key>,
}

impl Model for Entries {
    ghost use Rattle.std.specs.Prelude.{ℕ, List as Items};
    ghost use Rattle.spec_book.specs.Resources as resources;
    ghost use Rattle.std.specs.List.Sorted.{IsStrictlySortedBy};
    ghost use Rattle.std.specs.Map.{keys_of};
    ghost use Rattle.spec_book.specs.Dict as dicts;
    ghost use Rattle.res_map.specs.Lives as lives;

    ghost Value = { Items (Items ℕ × resources.MapItem) };

    ghost view = { λ a. a.items.entries };

    ghost invariant = { λ a. IsStrictlySortedBy dicts.bytes_cmp (keys_of a.items.entries) × lives.IsDeadlineIndex a.items.entries a.deadlines };
}

impl Entries {
    /// No entry. It takes no memory.
    pub fn new(alloc: Global) -> Self
        ensures { result ≡ [] }
    {
        Entries {
            items: BTreeMap::new(alloc),
            deadlines: Deadlines::new(alloc),
        }
    }

    /// How many entries there are.
    pub fn len(&self) -> usize
        ensures len { result ≡ length self.now }
        ensures small { result < 2 ^ 63 }
        ensures ascending { IsStrictlySortedBy dicts.bytes_cmp (keys_of self.now) }
    {
        self.items.len()
    }

    /// What stands at a key.
    pub fn get(&self, key: &Key) -> Option<&MapItem>
        ensures { option_copied result ≡ dicts.found self.now key.now }
    {
        self.items.get(key)
    }

    /// Whether there is no room for a new key.
    pub fn is_full(&self) -> bool
        ensures { result ≡ limits.is_full self.now }
    {
        self.items.len() >= ROOM
    }

    /// Whether a key has an entry.
    pub fn contains(&self, key: &Key) -> bool
        ensures { result ≡ is_some (dicts.found self.now key.now) }
    {
        self.items.contains_key(key)
    }

    /// Puts an item at a key, but no new key where there is no room. The entries are unchanged after want of memory.
    pub fn put(&mut self, key: &Key, item: MapItem) -> Result<Put, NoMemory>
        ensures put { IfOk result (λ put. put ≡ puts.put_at self.old (dicts.found self.old key.now)) }
        ensures ok { OnOk result (self.new ≡ puts.entries_put key.now item self.old (dicts.found self.old key.now)) }
        ensures err { OnErr result (self.new ≡ self.old) }
    {
        match self.items.get_mut(key) {
            Some(there) => {
                self.deadlines.change(key, there.end(), item.end())?;
                Ok(Put::Replaced(mem::replace(there, item)))
            }
            None => {
                if self.items.len() >= ROOM {
                    return Ok(Put::Full);
                }
                self.add(key, item)?;
                Ok(Put::New)
            }
        }
    }

    /// Puts an item at a key that has none. The entries are unchanged after want of memory.
    pub fn add(&mut self, key: &Key, item: MapItem) -> Result<(), NoMemory>
        requires { dicts.found self.old key.now ≡ None }
        ensures ok { OnOk result (self.new ≡ dicts.with_entry self.old key.now item) }
        ensures err { OnErr result (self.new ≡ self.old) }
    {
        let own = key.copy()?;
        let end = item.end();
        self.deadlines.add(end, key)?;
        match self.items.insert(own, item) {
            Ok(_) => Ok(()),
            Err(refused) => {
                let (own, _) = refused.value;
                self.deadlines.forget(end, own);
                Err(NoMemory)
            }
        }
    }

    /// Takes the entry of a key out. Answers what stood there.
    pub fn remove(&mut self, key: &Key) -> Option<MapItem>
        ensures old { result ≡ dicts.found self.old key.now }
        ensures after { self.new ≡ dicts.without_entry self.old key.now }
    {
        let (own, item) = self.items.remove_entry(key)?;
        self.deadlines.forget(item.end(), own);
        Some(item)
    }

    /// Takes the entries of the keys out.
    pub fn remove_all(&mut self, keys: &BTreeSet<Key>)
        ensures { self.new ≡ lives.without_keys self.old keys.now.keys }
    {
        for key in keys {
            self.remove(key);
        }
    }

    /// Takes all entries out.
    pub fn clear(&mut self)
        ensures { self.new ≡ [] }
    {
        self.items.clear();
        self.deadlines.clear();
    }

    /// The keys of the entries whose life ends at or before a log time.
    pub fn ended(&self, time: u64) -> Result<BTreeSet<Key>, NoMemory>
        ensures keys { IfOk result (λ keys. keys.keys ≡ lives.ended_keys time self.now) }
        ensures ascending { IsStrictlySortedBy dicts.bytes_cmp (keys_of self.now) }
    {
        self.deadlines.passed(time)
    }

    /// The first log time at which the life of an entry ends.
    pub fn first_end(&self) -> Option<u128>
        ensures { result ≡ lives.first_end self.now }
    {
        self.deadlines.first()
    }

    /// The keys, in ascending order.
    pub fn keys(&self) -> Keys<'_, Key, MapItem>
        ensures { result ≡ keys_of self.now }
    {
        self.items.keys()
    }
}

impl Duplicate for Entries {
    fn copy(&self) -> Result<Entries, NoMemory> {
        Ok(Entries {
            items: self.items.clone()?,
            deadlines: self.deadlines.clone()?,
        })
    }
}
