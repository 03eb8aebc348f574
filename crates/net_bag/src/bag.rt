ghost use Rattle.std.specs.Prelude.{◌≡◌, ℕ, suc, ⊤, Some, None, IfOk, IfErr, OnOk, OnErr};
ghost use Rattle.std.specs.Option.{option_map};
ghost use Rattle.spec_cluster.specs.Bag as bags;
ghost use Rattle.net_bag.specs.Reasons as reasons;

use crate::fronts::{first_up, hindrance};
use crate::links::Links;
use crate::packets::Packets;
use ax_types::limits::MAX_PACKETS;
use ax_types::{End, Item, List, NoMemory, Packet, TakeRefused};
use std::alloc::Global;
use std::marker::Model;

/// The network: the packets that were sent, by their numbers from 1, of which the newest 16,384 are kept, and the links that
/// are cut. A packet that is delivered or dropped is marked, and may be delivered again.
#[derive(Drop)]
pub struct Bag {
    packets: Packets,
    links: Links,
}

impl Model for Bag {
    ghost use Rattle.std.specs.Prelude.{◌≤◌, length};
    ghost use Rattle.spec_cluster.specs.Bag as bags;

    ghost Value = { bags.Bag };

    ghost view = { λ a. record { sent = a.packets.sent; kept = a.packets.kept; cuts = a.links } };

    ghost invariant = { λ a. length a.packets.kept ≤ 16384 };
}

impl Bag {
    ghost use mathlib.Core.Option.{none};
    ghost use types.Logic.{sem};
    ghost use denote.Follow.{follows_so};
    ghost use Rattle.net_bag.specs.contracts.bag.Bag.{the_row};

    /// No packet was sent, and no link is cut. It takes no memory.
    pub fn new(alloc: Global) -> Self
        ensures { result ≡ bags.empty_bag }
    {
        Bag {
            packets: Packets::new(alloc),
            links: Links::new(),
        }
    }

    /// A packet is sent: it gets the next number, which is answered. The bag is unchanged after want of memory, and the
    /// packet comes back.
    pub fn send(&mut self, packet: Packet) -> Result<u64, Packet>
        ensures number { IfOk result (λ number. number ≡ suc self.old.sent) }
        ensures ok { OnOk result (self.new ≡ bags.with_packet self.old packet) }
        ensures back { IfErr result (λ back. back ≡ packet) }
        ensures err { OnErr result (self.new ≡ self.old) }
    {
        let number = match self.packets.add(packet) {
            Ok(number) => number,
            Err(back) => return Err(back),
        };
        if self.packets.len() > MAX_PACKETS {
            self.packets.let_go();
        }
        Ok(number)
    }

    /// Cuts the link between two ends in both directions, unless it is cut.
    pub fn cut(&mut self, one: End, other: End)
        ensures { self.new ≡ bags.with_cut self.old one other }
    {
        self.links.cut(one, other);
    }

    /// Joins the link between two ends in both directions.
    pub fn join(&mut self, one: End, other: End)
        ensures { self.new ≡ bags.with_join self.old one other }
    {
        self.links.join(&one, &other);
    }

    /// Why the packet with a number cannot be delivered, where these nodes are up.
    fn take_refusal(&self, number: u64, up: &[bool]) -> Option<TakeRefused>
        ensures { option_map reasons.reason_of result ≡ bags.take_refusal self.now (reasons.nodes_up up.now) number }
    {
        if let Some(refused) = self.packets.mark_refusal(number) {
            return Some(refused);
        }
        let packet = &self.packets.slot(number).packet;
        hindrance(&self.links, up, &packet.from, &packet.to)
    }

    /// The packet with a number, which could be delivered where these nodes are up, as for `take`, but is not marked. `NeverSent`,
    /// `Gone`, `Cut` and `Down` say why it could not be, the first of them that holds.
    pub fn look(&self, number: u64, up: &[bool]) -> Result<&Packet, TakeRefused>
        ensures refused { IfErr result (λ refused. bags.take_refusal self.now (reasons.nodes_up up.now) number ≡ Some (reasons.reason_of refused)) }
        ensures seen { OnOk result (bags.take_refusal self.now (reasons.nodes_up up.now) number ≡ None) }
        ensures packet { IfOk result (λ packet. option_map (λ s. s.packet) (bags.kept_at self.now number) ≡ Some packet.now) }
    {
        if let Some(refused) = self.take_refusal(number, up) {
            return Err(refused);
        }
        Ok(&self.packets.slot(number).packet)
    }

    /// Marks the packet with a number, and gives it to be delivered, where these nodes are up: `up` tells it of the node 1
    /// first. `NeverSent`, `Gone`, `Cut` and `Down` say why it cannot be delivered, the first of them that holds; the bag is
    /// then unchanged.
    pub fn take(&mut self, number: u64, up: &[bool]) -> Result<&Packet, TakeRefused>
        ensures refused { IfErr result (λ refused. bags.take_refusal self.old (reasons.nodes_up up.now) number ≡ Some (reasons.reason_of refused)) }
        ensures taken { OnOk result (bags.take_refusal self.old (reasons.nodes_up up.now) number ≡ None) }
        ensures packet { IfOk result (λ packet. option_map (λ s. s.packet) (bags.kept_at self.old number) ≡ Some packet.now) }
        ensures* after { sem 𝓛 (follows_so the_row the_row self.entry.ghost_name none (λ _ _. ⊤) (λ bag. OnOk result (bag ≡ bags.with_mark self.old number) × OnErr result (bag ≡ self.old))) }
    {
        if let Some(refused) = self.take_refusal(number, up) {
            return Err(refused);
        }
        self.packets.mark(number);
        Ok(&self.packets.slot(number).packet)
    }

    /// Marks the packet with a number: it is dropped. `NeverSent` and `Gone` say why it cannot be marked; the bag is then
    /// unchanged.
    pub fn mark(&mut self, number: u64) -> Result<(), TakeRefused>
        ensures refused { IfErr result (λ refused. bags.mark_refusal self.old number ≡ Some (reasons.reason_of refused)) }
        ensures marked { OnOk result (bags.mark_refusal self.old number ≡ None) }
        ensures ok { OnOk result (self.new ≡ bags.with_mark self.old number) }
        ensures err { OnErr result (self.new ≡ self.old) }
    {
        if let Some(refused) = self.packets.mark_refusal(number) {
            return Err(refused);
        }
        self.packets.mark(number);
        Ok(())
    }

    /// How many packets are kept and not marked, and the first 64 of them.
    pub fn pending(&self) -> Result<(u64, List<Item>), NoMemory>
        ensures { IfOk result (λ pending. pending ≡ (bags.pending_count self.now, bags.pending_items self.now)) }
    {
        let items = self.packets.first_items()?;
        Ok((self.packets.unmarked() as u64, items))
    }

    /// The number of the packet that a flush delivers next, where these nodes are up: the first one that nothing hinders.
    pub fn next_up(&self, up: &[bool]) -> Option<u64>
        ensures { result ≡ bags.next_up self.now (reasons.nodes_up up.now) }
    {
        first_up(self.packets.ways(), &self.links, up)
    }
}
