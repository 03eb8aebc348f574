ghost use Rattle.std.specs.Prelude.{◌≡◌, ℕ, [], true, false, ◌≤◌, IfOk, IfSome, OnOk, OnErr};
ghost use Rattle.std.specs.List.{list_any, All, AllZip};
ghost use Rattle.std.specs.List.Sorted.{IsStrictlySortedBy};
ghost use Rattle.std.specs.BTreeMap.{is_at};
ghost use Rattle.res_deadlines.specs.Deadlines as deadlines;

use ax_types::{Duplicate, NoMemory};
use std::alloc::{AllocError, Global};
use std::cmp::Ord;
use std::collections::BTreeSet;
use std::marker::Model;

/// The times at which lives end, each with its key, which contracts see as their list in ascending order of time and
/// then of key.
#[derive(Drop)]
pub struct Deadlines<K: Ord> {
    alloc: Global,
    pairs: BTreeSet<(u128, K)>,
}

impl<K: Ord> Model for Deadlines<K> {
    ghost use Rattle.std.specs.Prelude.{ℕ, List as Items};

    ghost Value = { Items (ℕ × K) };

    ghost view = { λ a. a.pairs.keys };
}

impl<K: Ord + Duplicate> Deadlines<K> {
    /// No deadline. It takes no memory.
    pub fn new(alloc: Global) -> Self
        ensures { result ≡ [] }
    {
        Deadlines {
            alloc,
            pairs: BTreeSet::new(alloc),
        }
    }

    /// Adds an end, where there is one, with a key. The deadlines are unchanged after want of memory.
    pub fn add(&mut self, end: Option<u128>, key: &K) -> Result<(), NoMemory>
        ensures ok { OnOk result (deadlines.SetsDeadline K.cmp true self.old self.new end key.now) }
        ensures err { OnErr result (self.new ≡ self.old) }
    {
        if let Some(end) = end {
            self.pairs.insert((end, key.copy()?))?;
        }
        Ok(())
    }

    /// Takes an end, where there is one, with a key out.
    pub fn forget(&mut self, end: Option<u128>, key: K)
        ensures { deadlines.SetsDeadline K.cmp false self.old self.new end key }
    {
        if let Some(end) = end {
            self.pairs.remove(&(end, key));
        }
    }

    /// The end with a key was one, or none, and is another. The deadlines are unchanged where it is the same, and after
    /// want of memory.
    pub fn change(
        &mut self,
        key: &K,
        before: Option<u128>,
        after: Option<u128>,
    ) -> Result<(), NoMemory>
        ensures ok { OnOk result (deadlines.ChangesDeadline K.cmp self.old self.new key.now before after) }
        ensures err { OnErr result (self.new ≡ self.old) }
    {
        if before == after {
            return Ok(());
        }
        match before {
            None => {
                self.add(after, key)?;
                Ok(())
            }
            Some(_) => {
                let again = key.copy()?;
                self.add(after, key)?;
                self.forget(before, again);
                Ok(())
            }
        }
    }

    /// Takes all out.
    pub fn clear(&mut self)
        ensures { self.new ≡ [] }
    {
        self.pairs.clear();
    }

    /// The earliest time.
    pub fn first(&self) -> Option<u128>
        ensures time { result ≡ deadlines.first_time self.now }
        ensures least { IfSome result (λ time. All (λ d. time ≤ d.0) self.now) }
    {
        match self.pairs.first() {
            Some((end, _)) => Some(*end),
            None => None,
        }
    }

    /// Whether a time is at most this one. Only the earliest is looked at.
    pub fn any_passed(&self, time: u64) -> bool
        ensures { result ≡ deadlines.any_passed time self.now }
    {
        match self.first() {
            Some(end) => end <= u128::from(time),
            None => false,
        }
    }

    /// The keys whose times are at most this one. No time after the first later one is looked at.
    pub fn passed(&self, time: u64) -> Result<BTreeSet<K>, NoMemory>
        ensures keys { IfOk result (λ keys. (key : K) → list_any (is_at (K.cmp key)) keys.keys ≡ deadlines.has_passed K.cmp time self.now key) }
        ensures ascending { IfOk result (λ keys. IsStrictlySortedBy K.cmp keys.keys) }
    {
        let mut keys = BTreeSet::new(self.alloc);
        for (end, key) in &self.pairs {
            if *end > u128::from(time) {
                break;
            }
            keys.insert(key.copy()?)?;
        }
        Ok(keys)
    }
}

impl<K: Ord + Clone> Clone for Deadlines<K> {
    ghost use Rattle.std.specs.Prelude.{◌≡◌};
    ghost use Rattle.std.specs.List.{AllZip};

    ghost is_clone = { λ s t. AllZip (λ x y. (y.0 ≡ x.0) × K.is_clone x.1 y.1) s t };

    fn clone(&self) -> Result<Deadlines<K>, AllocError> {
        Ok(Deadlines {
            alloc: self.alloc,
            pairs: self.pairs.clone()?,
        })
    }
}
