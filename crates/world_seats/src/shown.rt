ghost use Rattle.std.specs.Prelude.{◌≡◌, ◌++◌, ◌∷◌, flat_map, IfOk, OnOk};
ghost use Rattle.ax_types.specs.declared.items.Item.TheVariants as item;
ghost use Rattle.spec_claims.specs.Heard as heard;
ghost use Rattle.spec_world.specs.Moves as moves;

use ax_types::{ClientId, Duplicate, Event, Item, List, NoMemory, WatchKind};
use std::alloc::Global;
use watch_hooks::Filters;

/// A batch of events that a session of a client heard.
#[derive(Drop)]
struct WatchedBatch {
    me: ClientId,
    session: u64,
    place: u64,
}

impl WatchedBatch {
    /// What a watch shows of an event that it holds.
    fn item(&self, kind: WatchKind, event: &Event) -> Result<Item, NoMemory>
        ensures { IfOk result (λ i. i ≡ item.Watched self.now.me kind self.now.session self.now.place event.now) }
    {
        Ok(Item::Watched {
            client: self.me,
            kind,
            session: self.session,
            place: self.place,
            event: event.copy()?,
        })
    }
}

/// What one watch shows of a batch, after other items.
fn watched_by(
    batch: &WatchedBatch,
    events: &[Event],
    kind: WatchKind,
    filters: &Filters,
    below: &mut Vec<Item>,
) -> Result<(), NoMemory>
    ensures { OnOk result (below.new.items ≡ below.old.items ++ heard.watched_by batch.now.me batch.now.session batch.now.place events.now kind) }
{
    'events: for event in events {
        if filters.holds(kind, event) {
            below.push(batch.item(kind, event)?)?;
        }
    }
    Ok(())
}

/// What the watches of a client show of a batch, in the order in which they were set, after other items.
fn watched(
    batch: &WatchedBatch,
    events: &[Event],
    watches: &[WatchKind],
    filters: &Filters,
    below: &mut Vec<Item>,
) -> Result<(), NoMemory>
    ensures { OnOk result (below.new.items ≡ below.old.items ++ flat_map (heard.watched_by batch.now.me batch.now.session batch.now.place events.now) watches.now) }
{
    'kinds: for kind in watches {
        watched_by(batch, events, *kind, filters, below)?;
    }
    Ok(())
}

/// What the watches of a client show directly below one of its items.
fn shown_below(
    alloc: Global,
    me: ClientId,
    item: &Item,
    watches: &[WatchKind],
    filters: &Filters,
) -> Result<Vec<Item>, NoMemory>
    ensures { IfOk result (λ below. below.items ≡ moves.shown_below me watches.now item.now) }
{
    let mut below = Vec::new(alloc);
    match item {
        Item::Event {
            session,
            place,
            events,
            ..
        } => {
            let batch = WatchedBatch {
                me,
                session: *session,
                place: *place,
            };
            watched(&batch, events.as_slice(), watches, filters, &mut below)?;
            Ok(below)
        }
        _ => Ok(below),
    }
}

/// An item of a client, and what its watches show directly below it, after other items.
fn push_shown(
    me: ClientId,
    item: Item,
    watches: &[WatchKind],
    filters: &Filters,
    shown: &mut Vec<Item>,
) -> Result<(), NoMemory>
    ensures { OnOk result (shown.new.items ≡ shown.old.items ++ item ∷ moves.shown_below me watches.now item) }
{
    let below = shown_below(*shown.allocator(), me, &item, watches, filters)?;
    shown.push(item)?;
    'below: for watched in below {
        shown.push(watched)?;
    }
    Ok(())
}

#[tactic(auto, using(crate::proofs::Showing::with_shown_more))]
/// A client's items, with what its watches show directly below each event.
pub fn with_shown(
    alloc: Global,
    me: ClientId,
    items: List<Item>,
    watches: &[WatchKind],
    filters: &Filters,
) -> Result<List<Item>, NoMemory>
    ensures { IfOk result (λ shown. shown ≡ moves.with_shown me watches.now items) }
{
    if watches.is_empty() {
        return Ok(items);
    }
    let mut shown = Vec::with_capacity(alloc, items.len())?;
    'items: for item in items.into_vec() {
        push_shown(me, item, watches, filters, &mut shown)?;
    }
    Ok(List::from_vec(shown))
}
