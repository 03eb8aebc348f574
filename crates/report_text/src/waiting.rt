ghost use Rattle.std.specs.Prelude.{◌≡◌, IfOk};
ghost use Rattle.std.specs.List.{filter_map};
ghost use Rattle.spec_report.specs.Items as spec;
ghost use Rattle.report_text.specs.CallTexts as call_texts;

use ax_types::{Item, List, NoMemory};
use std::alloc::Global;
use std::collections::BTreeSet;

/// The session and number of a called line.
fn called_of(item: &Item) -> Option<(u64, u64)>
    ensures { result ≡ spec.called_of item.now }
{
    match item {
        Item::Called {
            session,
            number,
            ..
        } => Some((*session, *number)),
        _ => None,
    }
}

/// The session and number of an outcome.
fn outcome_of(item: &Item) -> Option<(u64, u64)>
    ensures { result ≡ spec.outcome_key item.now }
{
    match item {
        Item::Reply {
            session,
            number,
            ..
        }
        | Item::Read {
            session,
            number,
            ..
        }
        | Item::Doubt { session, number }
        | Item::Lost { session, number }
        | Item::Unsent { session, number }
        | Item::Unanswered { session, number } => Some((*session, *number)),
        _ => None,
    }
}

/// The calls that have an outcome.
fn outcomes_of(alloc: Global, items: &[Item]) -> Result<BTreeSet<(u64, u64)>, NoMemory>
    ensures { IfOk result (λ set. call_texts.HasCalls set (filter_map spec.outcome_key items.now)) }
{
    let mut outcomes = BTreeSet::new(alloc);
    'items: for item in items {
        if let Some(call) = outcome_of(item) {
            outcomes.insert(call)?;
        }
    }
    Ok(outcomes)
}

/// The called calls without an outcome, in the order of their called lines, each a session and a number.
pub fn waiting_of(alloc: Global, items: &[Item]) -> Result<List<(u64, u64)>, NoMemory>
    ensures { IfOk result (λ calls. calls ≡ spec.waiting_of items.now) }
{
    let outcomes = outcomes_of(alloc, items)?;
    let mut waiting = List::new(alloc);
    'items: for item in items {
        if let Some(call) = called_of(item) {
            if !outcomes.contains(&call) {
                waiting.push(call)?;
            }
        }
    }
    Ok(waiting)
}
