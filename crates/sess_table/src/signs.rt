ghost use Rattle.std.specs.Prelude.{◌≡◌, ℕ, ◌≤◌, ◌<◌, ◌^◌, [], ◌∷◌, ◌++◌, Some, true, length, slice_get, slice_set, MatchOption, IfSome, OnOk, OnErr};
ghost use Rattle.sess_table.specs.Signs as sess_table_signs;

use ax_types::NoMemory;
use std::alloc::Global;
use std::marker::Model;

/// How many sessions share a floor.
const BLOCK: usize = 64;

/// The log times of the last signs of life of sessions, in the order in which the sessions came; none where one has
/// ended. A search for old signs passes over the blocks that have none.
#[derive(Drop)]
pub struct Signs {
    signs: Vec<Option<u64>>,
    /// For each block of sessions, a time below which none of its signs is.
    floors: Vec<u64>,
}

impl Model for Signs {
    ghost use Rattle.std.specs.Prelude.{ℕ, Option, List as Items};
    ghost use Rattle.sess_table.specs.Signs as sess_table_signs;

    ghost Value = { Items (Option ℕ) };

    ghost view = { λ a. a.signs.items };

    ghost invariant = { λ a. sess_table_signs.IsFloored a.signs.items a.floors.items };
}

impl Signs {
    /// No sign. It takes no memory.
    pub fn new(alloc: Global) -> Self
        ensures { result ≡ [] }
    {
        Signs {
            signs: Vec::new(alloc),
            floors: Vec::new(alloc),
        }
    }

    /// The sign of one more session. The signs are unchanged after want of memory.
    pub fn push(&mut self, sign: u64) -> Result<(), NoMemory>
        ensures ok { OnOk result (self.new ≡ self.old ++ Some sign ∷ []) }
        ensures err { OnErr result (self.new ≡ self.old) }
    {
        self.signs.reserve(1)?;
        let block = self.signs.len() / BLOCK;
        if block < self.floors.len() {
            self.floors[block] = self.floors[block].min(sign);
        } else {
            self.floors.push(sign)?;
        }
        self.signs.push_reserved(Some(sign));
        Ok(())
    }

    /// The sign of the session that stands at an index.
    pub fn at(&self, index: usize) -> Option<u64>
        requires { index < length self.now }
        ensures { slice_get self.now index ≡ Some result }
    {
        self.signs[index]
    }

    /// Another sign for the session that stands at an index, or none.
    pub fn set(&mut self, index: usize, sign: Option<u64>)
        requires { index < length self.old }
        ensures { self.new ≡ slice_set self.old index sign }
    {
        self.signs[index] = sign;
        let block = index / BLOCK;
        let start = block * BLOCK;
        let end = self.signs.len().min(start + BLOCK);
        self.floors[block] = floor(&self.signs[start..end]);
    }

    /// The first session, from an index on, whose sign is at most `limit`.
    pub fn first_up_to(&self, from: usize, limit: u64) -> Option<usize>
        ensures small { IfSome result (λ i. i < 2 ^ 63) }
        ensures first { MatchOption result (sess_table_signs.NoneUpTo limit self.now from (length self.now)) (λ i.
            (from ≤ i) × (i < length self.now) × (sess_table_signs.is_up_to limit (slice_get self.now i) ≡ true) × sess_table_signs.NoneUpTo limit self.now from i) }
    {
        let mut index = from;
        'passed: while index < self.signs.len() {
            let block = index / BLOCK;
            if self.floors[block] > limit {
                index = (block + 1) * BLOCK;
            } else if is_old(self.signs[index], limit) {
                return Some(index);
            } else {
                index += 1;
            }
        }
        None
    }
}

/// Whether there is a sign, and it is at most `limit`.
fn is_old(sign: Option<u64>, limit: u64) -> bool
    ensures { result ≡ sess_table_signs.is_up_to limit (Some sign) }
{
    match sign {
        Some(sign) => sign <= limit,
        None => false,
    }
}

/// The least of some signs.
fn floor(signs: &[Option<u64>]) -> u64
    ensures { (k t : ℕ) → slice_get signs.now k ≡ Some (Some t) → result ≤ t }
{
    let mut floor = u64::MAX;
    for sign in signs {
        if let Some(sign) = sign {
            floor = floor.min(*sign);
        }
    }
    floor
}
