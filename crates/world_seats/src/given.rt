ghost use Rattle.std.specs.Prelude.{◌≡◌, Some, [], ◌∷◌, map, IfOk};
ghost use Rattle.std.specs.Option.{option_map};
ghost use Rattle.ax_types.specs.declared.items.Item.TheVariants as item;
ghost use Rattle.spec_world.specs.Moves as moves;
ghost use Rattle.world_seats.specs.SeatAnswers as answers;

use ax_types::{
    ClientId, ClientOut, ClientRefused, End, Item, List, NoMemory, NodeId, Packet, Payload,
    SkipReason,
};
use std::alloc::Global;

/// What a step of a client gives: its items, with what its watches show, and the packets that it sends.
#[derive(Drop)]
pub struct SeatStep {
    pub items: List<Item>,
    pub packets: List<Packet>,
}

/// Nothing but an item.
pub fn shows_item(alloc: Global, item: Item) -> Result<SeatStep, NoMemory>
    ensures { IfOk result (λ s. s ≡ record { items = item ∷ []; packets = [] }) }
{
    let mut items = List::new(alloc);
    items.push(item)?;
    Ok(SeatStep {
        items,
        packets: List::new(alloc),
    })
}

/// A skip, where it is not memory that a client wants.
fn skips(alloc: Global, refused: ClientRefused) -> Result<SeatStep, NoMemory>
    ensures { IfOk result (λ s. option_map answers.skip_step (answers.skip_reason refused) ≡ Some s) }
{
    let reason = match refused {
        ClientRefused::SessionOpen => SkipReason::SessionOpen,
        ClientRefused::NoSession => SkipReason::NoSession,
        ClientRefused::WindowFull => SkipReason::WindowFull,
        ClientRefused::Busy { unanswered } => SkipReason::Busy { unanswered },
        ClientRefused::NoMemory => return Err(NoMemory),
    };
    shows_item(alloc, Item::Skip { reason })
}

/// The packets of a client's requests.
pub fn packets_from(
    alloc: Global,
    me: ClientId,
    sends: List<(NodeId, Payload)>,
) -> Result<List<Packet>, NoMemory>
    ensures { IfOk result (λ packets. packets ≡ map (moves.from_client me) sends) }
{
    let mut packets = Vec::with_capacity(alloc, sends.len())?;
    'sends: for (node, payload) in sends.into_vec() {
        packets.push(Packet {
            from: End::Client(me),
            to: End::Node(node),
            payload,
        })?;
    }
    Ok(List::from_vec(packets))
}

/// What a client gives that was asked: a skip, or its items and requests.
pub fn answered(
    alloc: Global,
    me: ClientId,
    asked: Result<ClientOut, ClientRefused>,
) -> Result<SeatStep, NoMemory>
    ensures { IfOk result (λ s. answers.GivesStep me asked s) }
{
    match asked {
        Ok(out) => Ok(SeatStep {
            items: out.items,
            packets: packets_from(alloc, me, out.sends)?,
        }),
        Err(refused) => skips(alloc, refused),
    }
}
