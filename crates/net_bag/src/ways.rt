ghost use Rattle.std.specs.Prelude.{◌≡◌, ℕ, suc, ◌<◌, Some, [], ◌∷◌, ◌++◌, length, slice_get, replicate, false, IfOk, OnOk, OnErr, IfSome, IfNone};
ghost use Rattle.std.specs.List.{list_any};
ghost use Rattle.spec_raft.specs.Positions as positions;
ghost use Rattle.net_bag.specs.Ways as way_lists;

use crate::ends::{MAX_WAYS, way_number};
use crate::slots::{Slot, is_open};
use ax_types::{End, NoMemory};
use std::alloc::Global;
use std::collections::VecDeque;
use std::marker::Model;

/// A way from one end to another, with the numbers of the packets that were sent on it. The first of them waits, while
/// others may have been delivered or dropped.
#[derive(Drop)]
pub(crate) struct Way {
    pub(crate) from: End,
    pub(crate) to: End,
    waiting: VecDeque<u64>,
}

impl Model for Way {
    ghost use Rattle.net_bag.specs.Ways as way_lists;

    ghost Value = { way_lists.Way };

    ghost view = { λ a. record { «from» = a.from; to = a.to; waiting = a.waiting.items } };
}

impl Way {
    /// The number of the first packet that waits on it.
    pub(crate) fn front(&self) -> Option<u64>
        ensures { result ≡ slice_get self.now.waiting 0 }
    {
        self.waiting.front().copied()
    }

    /// A packet is sent on it. The way is unchanged after want of memory.
    fn push(&mut self, number: u64) -> Result<(), NoMemory>
        ensures ok { OnOk result (self.new ≡ way_lists.with_number number self.old) }
        ensures err { OnErr result (self.new ≡ self.old) }
        ensures ends { (self.new.from ≡ self.old.from) × (self.new.to ≡ self.old.to) }
    {
        self.waiting.push_back(number)?;
        Ok(())
    }

    /// Lets the numbers in front go that are not those of packets that wait.
    fn trim(&mut self, gone: u64, kept: &VecDeque<Slot>)
        ensures { self.new ≡ way_lists.without_front (way_lists.open_at gone kept.now.items) self.old }
    {
        trim(&mut self.waiting, gone, kept);
    }
}

/// Lets the numbers in front go that are not those of packets that wait.
fn trim(waiting: &mut VecDeque<u64>, gone: u64, kept: &VecDeque<Slot>)
    ensures { waiting.new.items ≡ way_lists.from_first (way_lists.open_at gone kept.now.items) waiting.old.items }
{
    'numbers: while let Some(number) = waiting.front().copied() {
        if is_open(kept, gone, number) {
            return;
        }
        waiting.pop_front();
    }
}

/// The ways on which packets were sent, in the order of their first packets, which contracts see as their list.
#[derive(Drop)]
pub(crate) struct Ways {
    ways: Vec<Way>,
    /// The place of each way among them, counted from 1, at the way's number; 0 where no packet was sent on it.
    places: [usize; MAX_WAYS],
}

impl Model for Ways {
    ghost use Rattle.std.specs.Prelude.{List as Items};
    ghost use Rattle.net_bag.specs.Ways as way_lists;

    ghost Value = { Items way_lists.Way };

    ghost view = { λ a. a.ways.items };

    ghost invariant = { λ a. way_lists.AreWays a.ways.items a.places };
}

impl Ways {
    /// No packet was sent. It takes no memory.
    pub(crate) fn new(alloc: Global) -> Self
        ensures { result ≡ [] }
    {
        Ways {
            ways: Vec::new(alloc),
            places: no_places(),
        }
    }

    /// The ways.
    pub(crate) fn as_slice(&self) -> &[Way]
        ensures { result.now ≡ self.now }
    {
        self.ways.as_slice()
    }

    /// The place of the way from one end to another, where a packet was sent on it.
    pub(crate) fn place_of(&self, from: &End, to: &End) -> Option<usize>
        ensures there { IfSome result (λ i. way_lists.IsPlaceOf self.now from.now to.now i) }
        ensures nowhere { IfNone result (list_any (way_lists.is_from from.now to.now) self.now ≡ false) }
    {
        let place = self.places[way_number(from, to)];
        if place == 0 {
            return None;
        }
        Some(place - 1)
    }

    /// The place of the way from one end to another, which is added where no packet was sent on it yet. The ways are
    /// unchanged after want of memory.
    pub(crate) fn place_for(&mut self, from: &End, to: &End) -> Result<usize, NoMemory>
        ensures there { IfOk result (λ i. way_lists.IsPlaceOf self.new from.now to.now i) }
        ensures ok { OnOk result (self.new ≡ way_lists.with_way self.old from.now to.now) }
        ensures err { OnErr result (self.new ≡ self.old) }
    {
        let number = way_number(from, to);
        let place = self.places[number];
        if place > 0 {
            return Ok(place - 1);
        }
        let place = self.ways.len();
        let waiting = VecDeque::new(*self.ways.allocator());
        self.ways.push(Way {
            from: *from,
            to: *to,
            waiting,
        })?;
        self.places[number] = place + 1;
        Ok(place)
    }

    /// A packet is sent on the way at a place. The ways are unchanged after want of memory.
    pub(crate) fn push(&mut self, place: usize, number: u64) -> Result<(), NoMemory>
        requires { place < length self.old }
        ensures ok { OnOk result (self.new ≡ positions.change_place (way_lists.with_number number) self.old (suc place)) }
        ensures err { OnErr result (self.new ≡ self.old) }
    {
        let way = &mut self.ways[place];
        way.push(number)?;
        Ok(())
    }

    /// Lets the numbers in front of the way at a place go that are not those of packets that wait.
    pub(crate) fn trim(&mut self, place: usize, gone: u64, kept: &VecDeque<Slot>)
        requires { place < length self.old }
        ensures { self.new ≡ positions.change_place (way_lists.without_front (way_lists.open_at gone kept.now.items)) self.old (suc place) }
    {
        let way = &mut self.ways[place];
        way.trim(gone, kept);
    }
}

/// No way has a place.
fn no_places() -> [usize; MAX_WAYS]
    ensures { result ≡ replicate 625 0 }
{
    [0; MAX_WAYS]
}
