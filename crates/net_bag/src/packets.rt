ghost use Rattle.std.specs.Prelude.{◌≡◌, ℕ, suc, ◌+◌, ◌^◌, ◌<◌, ◌≤◌, Some, [], ◌∷◌, ◌++◌, length, IfOk, IfErr, OnOk, OnErr, true, drop, take, map};
ghost use Rattle.std.specs.Option.{option_map};
ghost use Rattle.spec_raft.specs.Positions as positions;
ghost use Rattle.spec_cluster.specs.Bag as bags;
ghost use Rattle.net_bag.specs.KeptPackets as kept_packets;
ghost use Rattle.net_bag.specs.Reasons as reasons;
ghost use Rattle.net_bag.specs.Fronts as way_fronts;

use crate::slots::Slot;
use crate::ways::{Way, Ways};
use ax_types::limits::MAX_SHOWN;
use ax_types::{Item, List, NoMemory, Packet, Payload, PayloadKind, TakeRefused};
use std::alloc::Global;
use std::collections::VecDeque;
use std::marker::Model;

/// The packets that were sent, by their numbers from 1, of which the newest are kept. Contracts see them as a bag of whose
/// links none is cut.
#[derive(Drop)]
pub(crate) struct Packets {
    sent: u64,
    kept: VecDeque<Slot>,
    /// How many of those kept are not marked.
    unmarked: usize,
    ways: Ways,
}

impl Model for Packets {
    ghost use Rattle.std.specs.Prelude.{[], ◌-◌, length};
    ghost use Rattle.spec_cluster.specs.Bag as bags;
    ghost use Rattle.net_bag.specs.KeptPackets as kept_packets;

    ghost Value = { bags.Bag };

    ghost view = { λ a. record { sent = a.sent; kept = a.kept.items; cuts = [] } };

    ghost invariant = { λ a. kept_packets.ArePackets a.sent (a.sent - length a.kept.items) a.kept.items a.unmarked a.ways };
}

impl Packets {
    /// No packet was sent. It takes no memory.
    pub(crate) fn new(alloc: Global) -> Self
        ensures { result ≡ bags.empty_bag }
    {
        Packets {
            sent: 0,
            kept: VecDeque::new(alloc),
            unmarked: 0,
            ways: Ways::new(alloc),
        }
    }

    /// How many packets are kept.
    pub(crate) fn len(&self) -> usize
        ensures { result ≡ length self.now.kept }
    {
        self.kept.len()
    }

    /// How many of the packets sent are no longer kept.
    fn gone(&self) -> u64
        ensures gone { result ≡ bags.gone self.now }
        ensures all { result + length self.now.kept ≡ self.now.sent }
        ensures fits { self.now.sent < 2 ^ 64 }
    {
        self.sent - self.kept.len() as u64
    }

    /// Why the packet with a number cannot be marked.
    pub(crate) fn mark_refusal(&self, number: u64) -> Option<TakeRefused>
        ensures { option_map reasons.reason_of result ≡ bags.mark_refusal self.now number }
    {
        if number == 0 || self.sent < number {
            return Some(TakeRefused::NeverSent);
        }
        if number <= self.gone() {
            return Some(TakeRefused::Gone);
        }
        None
    }

    /// The packet with a number.
    pub(crate) fn slot(&self, number: u64) -> &Slot
        requires kept { bags.gone self.now < number }
        requires sent { number ≤ self.now.sent }
        ensures { bags.kept_at self.now number ≡ Some result.now }
    {
        &self.kept[(number - self.gone() - 1) as usize]
    }

    /// Marks the packet with a number: it was delivered or dropped.
    pub(crate) fn mark(&mut self, number: u64)
        requires kept { bags.gone self.old < number }
        requires sent { number ≤ self.old.sent }
        ensures { self.new ≡ bags.with_mark self.old number }
    {
        let gone = self.gone();
        let index = (number - gone - 1) as usize;
        let slot = &self.kept[index];
        if slot.is_marked {
            return;
        }
        let Some(place) = self.ways.place_of(&slot.packet.from, &slot.packet.to) else {
            unreachable!()
        };
        set_marked(&mut self.kept, index);
        self.unmarked -= 1;
        self.ways.trim(place, gone, &self.kept);
    }

    /// A packet is sent, and gets the next number. The packets are unchanged after want of memory, and this one comes back.
    pub(crate) fn add(&mut self, packet: Packet) -> Result<u64, Packet>
        ensures number { IfOk result (λ number. number ≡ suc self.old.sent) }
        ensures ok { OnOk result (self.new ≡ kept_packets.with_one self.old packet) }
        ensures back { IfErr result (λ back. back ≡ packet) }
        ensures err { OnErr result (self.new ≡ self.old) }
    {
        if self.sent == u64::MAX {
            return Err(packet);
        }
        let number = self.sent + 1;
        if self.kept.reserve(1).is_err() {
            return Err(packet);
        }
        let Ok(place) = self.ways.place_for(&packet.from, &packet.to) else {
            return Err(packet);
        };
        let Ok(()) = self.ways.push(place, number) else {
            return Err(packet);
        };
        self.kept.push_back_reserved(Slot {
            is_marked: false,
            packet,
        });
        self.sent = number;
        self.unmarked += 1;
        Ok(number)
    }

    /// The oldest packet is no longer kept.
    pub(crate) fn let_go(&mut self)
        requires { 0 < length self.old.kept }
        ensures { self.new ≡ kept_packets.without_oldest self.old }
    {
        let oldest = self.gone() + 1;
        self.mark(oldest);
        drop_first(&mut self.kept);
    }

    /// How many of those kept are not marked.
    pub(crate) fn unmarked(&self) -> usize
        ensures { result ≡ bags.pending_count self.now }
    {
        self.unmarked
    }

    /// The first 64 of those kept that are not marked.
    pub(crate) fn first_items(&self) -> Result<List<Item>, NoMemory>
        ensures { IfOk result (λ items. items ≡ bags.pending_items self.now) }
    {
        let items = first_items(&self.kept, self.gone(), MAX_SHOWN.min(self.unmarked))?;
        Ok(items)
    }

    /// The ways on which packets were sent. The first number on each is that of the first packet on it that waits.
    pub(crate) fn ways(&self) -> &[Way]
        ensures { way_fronts.AreFronts (suc (bags.gone self.now)) self.now.kept result.now }
    {
        let _kept = &self.kept;
        self.ways.as_slice()
    }
}

/// Drops the first packet.
fn drop_first(kept: &mut VecDeque<Slot>)
    ensures { kept.new.items ≡ drop 1 kept.old.items }
{
    if let Some(slot) = kept.pop_front() {
        drop_slot(slot);
    }
}

/// Drops a packet.
fn drop_slot(_slot: Slot) {}

/// The first packets that are not marked, as items and at most so many, where so many are no longer kept.
fn first_items(kept: &VecDeque<Slot>, gone: u64, most: usize) -> Result<List<Item>, NoMemory>
    requires { gone + length kept.now.items < 2 ^ 64 }
    ensures { IfOk result (λ items. items ≡ map bags.pending_item (take most (bags.unmarked_from (suc gone) kept.now.items))) }
{
    let mut items = List::new(*kept.allocator());
    'slots: for i in 0..kept.len() {
        if items.len() >= most {
            return Ok(items);
        }
        let slot = &kept[i];
        show(&mut items, gone + i as u64 + 1, slot)?;
    }
    Ok(items)
}

/// Shows a packet as an item, unless it is marked.
fn show(items: &mut List<Item>, number: u64, slot: &Slot) -> Result<(), NoMemory>
    ensures { OnOk result (items.new ≡ kept_packets.with_pending items.old number slot.now) }
{
    if slot.is_marked {
        return Ok(());
    }
    items.push(pending_item(number, &slot.packet))?;
    Ok(())
}

/// The item of a packet that waits.
fn pending_item(number: u64, packet: &Packet) -> Item
    ensures { result ≡ bags.pending_item (number, packet.now) }
{
    Item::Pending {
        number,
        from: packet.from,
        to: packet.to,
        kind: kind_of(&packet.payload),
    }
}

/// The kind of a payload.
fn kind_of(payload: &Payload) -> PayloadKind
    ensures { result ≡ bags.kind_of payload.now }
{
    match payload {
        Payload::Vote { .. } => PayloadKind::Vote,
        Payload::VoteReply { .. } => PayloadKind::VoteReply,
        Payload::Append { .. } => PayloadKind::Append,
        Payload::AppendReply { .. } => PayloadKind::AppendReply,
        Payload::Register { .. } => PayloadKind::Register,
        Payload::Keep { .. } => PayloadKind::Keep,
        Payload::Command { .. } => PayloadKind::Command,
        Payload::Close { .. } => PayloadKind::Close,
        Payload::Query { .. } => PayloadKind::Query,
        Payload::Connect { .. } => PayloadKind::Connect,
        Payload::Reset { .. } => PayloadKind::Reset,
        Payload::Opened { .. } => PayloadKind::Opened,
        Payload::Reply { .. } => PayloadKind::Reply,
        Payload::Gap { .. } => PayloadKind::Gap,
        Payload::Answer { .. } => PayloadKind::Answer,
        Payload::Batch { .. } => PayloadKind::Batch,
        Payload::Ended { .. } => PayloadKind::Ended,
    }
}

/// Marks the packet at an index.
fn set_marked(kept: &mut VecDeque<Slot>, index: usize)
    requires { index < length kept.old.items }
    ensures { kept.new.items ≡ positions.change_place (λ s. record s { is_marked = true }) kept.old.items (suc index) }
{
    let slot = &mut kept[index];
    slot.is_marked = true;
}
