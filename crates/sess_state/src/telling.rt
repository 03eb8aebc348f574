//! What is told at a place, as one batch for each session.
ghost use Rattle.std.specs.Prelude.{◌≡◌, ℕ, ◌<◌, ◌++◌, IfOk, OnOk};
ghost use Rattle.std.specs.List.{AllByRecursion};
ghost use Rattle.spec_sessions.specs.Outboxes as outbox;
ghost use Rattle.sess_state.specs.Batching as batching;
ghost use Rattle.sess_state.specs.BoxOrder as box_order;

use crate::outboxes::Outboxes;
use ax_types::{Batch, Event, List, NoMemory};
use std::alloc::Global;
use std::collections::VecDeque;

/// The session that is told first.
fn first_session(told: &VecDeque<(u64, Event)>) -> Option<u64>
    ensures { result ≡ batching.first_session told.now.items }
{
    match told.front() {
        Some(first) => Some(first.0),
        None => None,
    }
}

/// Whether the first event is for a session.
fn is_first(told: &VecDeque<(u64, Event)>, session: u64) -> bool
    ensures { result ≡ batching.is_first session told.now.items }
{
    match told.front() {
        Some(first) => first.0 == session,
        None => false,
    }
}

/// Takes the events for a session off the front.
fn take_foremost(
    alloc: Global,
    told: &mut VecDeque<(u64, Event)>,
    session: u64,
) -> Result<List<Event>, NoMemory>
    ensures events { IfOk result (λ events. events ≡ batching.foremost session told.old.items) }
    ensures after { OnOk result (told.new.items ≡ batching.beyond session told.old.items) }
{
    let mut events = List::new(alloc);
    'foremost: while is_first(told, session) {
        if let Some((_, event)) = told.pop_front() {
            events.push(event)?;
        }
    }
    Ok(events)
}

/// Tells a session the events of a place. Its batch goes to the end of `batches`, where it has an outbox.
fn tell_one(
    boxes: &mut Outboxes,
    place: u64,
    session: u64,
    events: List<Event>,
    batches: &mut List<(u64, Batch)>,
) -> Result<(), NoMemory>
    requires { outbox.last_batch boxes.old session < place }
    ensures batches { OnOk result (batches.new ≡ batches.old ++ batching.own_batch session (batching.batch_for place events (outbox.outbox_of boxes.old session))) }
    ensures boxes { OnOk result (boxes.new ≡ outbox.change_outbox (batching.batched place events) session boxes.old) }
    ensures ascending { box_order.Ascend boxes.old }
{
    if let Some(batch) = boxes.tell(place, session, events)? {
        batches.push((session, batch))?;
    }
    Ok(())
}

/// Tells the sessions, where none is told before one with a lower number.
fn tell_in_order(
    alloc: Global,
    boxes: &mut Outboxes,
    place: u64,
    told: VecDeque<(u64, Event)>,
) -> Result<List<(u64, Batch)>, NoMemory>
    requires rise { batching.RiseBySession told.items }
    requires open { batching.AreOpen place told.items boxes.old }
    ensures batches { IfOk result (λ batches. batches ≡ outbox.batches_due place told.items boxes.old) }
    ensures after { OnOk result (boxes.new ≡ outbox.all_told place told.items boxes.old) }
{
    let mut left = told;
    let mut batches = List::new(alloc);
    'sessions: while let Some(session) = first_session(&left) {
        let events = take_foremost(alloc, &mut left, session)?;
        tell_one(boxes, place, session, events, &mut batches)?;
    }
    Ok(batches)
}

/// What is told, by session: no session is told before one with a lower number, and each is told the same in the same
/// order.
fn by_session(told: List<(u64, Event)>) -> Result<VecDeque<(u64, Event)>, NoMemory>
    ensures rise { IfOk result (λ sorted. batching.RiseBySession sorted.items) }
    ensures same { IfOk result (λ sorted. (session : ℕ) → outbox.told_to session sorted.items ≡ outbox.told_to session told) }
{
    let mut sorted = told.into_vec();
    sorted.sort_by_key(|told| told.0)?;
    Ok(VecDeque::from_vec(sorted))
}

/// Tells each session with an outbox its events of a place, as one batch. Answers the batches, in ascending order of
/// session. After want of memory some sessions may be told, and others not.
pub fn tell_all(
    alloc: Global,
    boxes: &mut Outboxes,
    place: u64,
    told: List<(u64, Event)>,
) -> Result<List<(u64, Batch)>, NoMemory>
    requires positive { 0 < place }
    requires earlier { AllByRecursion (λ o. o.batches.last < place) boxes.old }
    ensures batches { IfOk result (λ batches. batches ≡ outbox.batches_due place told boxes.old) }
    ensures after { OnOk result (boxes.new ≡ outbox.all_told place told boxes.old) }
{
    if told.is_empty() {
        return Ok(List::new(alloc));
    }
    let sorted = by_session(told)?;
    let batches = tell_in_order(alloc, boxes, place, sorted)?;
    Ok(batches)
}
