ghost use Rattle.std.specs.Prelude.{◌≡◌, [], ◌∷◌, IfOk};
ghost use Rattle.ax_types.specs.declared.ids.End.TheVariants as end;

use ax_types::{End, List, NoMemory, NodeId, Packet, Payload};
use std::alloc::Global;

/// A packet from a node to another.
pub fn packet(me: NodeId, to: NodeId, payload: Payload) -> Packet
    ensures { result ≡ record { «from» = end.Node me; to = end.Node to; payload = payload } }
{
    Packet {
        from: End::Node(me),
        to: End::Node(to),
        payload,
    }
}

/// The list of one item.
pub fn single<T: Drop>(alloc: Global, item: T) -> Result<List<T>, NoMemory>
    ensures { IfOk result (λ items. items ≡ item ∷ []) }
{
    let mut items = List::with_capacity(alloc, 1)?;
    items.push(item)?;
    Ok(items)
}
