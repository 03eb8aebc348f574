ghost use Rattle.std.specs.Prelude.{◌≡◌};
ghost use Rattle.net_bag.specs.Ways as ways;

use ax_types::Packet;
use std::collections::VecDeque;
use std::marker::Model;

/// A packet that is kept, and whether it was delivered or dropped.
#[derive(Drop)]
pub(crate) struct Slot {
    pub(crate) is_marked: bool,
    pub(crate) packet: Packet,
}

impl Model for Slot {
    ghost use Rattle.spec_cluster.specs.Bag as bags;

    ghost Value = { bags.KeptPacket };

    ghost view = { λ a. record { is_marked = a.is_marked; packet = a.packet } };
}

/// Whether the packet with a number is kept and not marked, where so many are no longer kept.
pub(crate) fn is_open(kept: &VecDeque<Slot>, gone: u64, number: u64) -> bool
    ensures { result ≡ ways.open_at gone kept.now.items number }
{
    if number <= gone {
        return false;
    }
    match kept.get((number - gone - 1) as usize) {
        None => false,
        Some(slot) => !slot.is_marked,
    }
}
