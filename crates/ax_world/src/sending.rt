ghost use Rattle.std.specs.Prelude.{◌≡◌, OnOk};
ghost use Rattle.spec_cluster.specs.Bag as bags;

use ax_types::{List, NoMemory, Packet};
use net_bag::Bag;

/// Packets are sent.
pub(crate) fn send_all(bag: &mut Bag, packets: List<Packet>) -> Result<(), NoMemory>
    ensures { OnOk result (bag.new ≡ bags.with_packets bag.old packets) }
{
    'packets: for packet in packets.into_vec() {
        let Ok(_) = bag.send(packet) else {
            return Err(NoMemory);
        };
    }
    Ok(())
}
