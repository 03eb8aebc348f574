//! The sessions in the order in which they were registered, beside their signs.
ghost use Rattle.std.specs.Prelude.{◌≡◌, ℕ, Some, None, true, length, slice_get, take, find, nat_eq, MatchOption, IfOk};
ghost use Rattle.std.specs.Map.{keys_of};
ghost use Rattle.sess_table.specs.Live as lives;
ghost use Rattle.spec_sessions.specs.Tables as tables;

use crate::signs::Signs;
use ax_types::limits::MAX_DUE;
use ax_types::{ClientId, List, NoMemory};
use indexmap::IndexMap;
use std::alloc::Global;

/// Who opened a session, with which opening number.
#[derive(Drop)]
pub struct Origin {
    pub client: ClientId,
    pub opening: u64,
}

/// Where a session stands, if it is live.
pub fn live_index(sessions: &IndexMap<u64, Origin>, signs: &Signs, session: u64) -> Option<usize>
    requires { length signs.now ≡ length sessions.now.entries }
    ensures { MatchOption result (find (λ l. nat_eq l.session session) (lives.live_in sessions.now.entries signs.now) ≡ None) (λ i.
        (slice_get (keys_of sessions.now.entries) i ≡ Some session) × (lives.is_signed (slice_get signs.now i) ≡ true)) }
{
    let index = sessions.get_index_of(&session)?;
    if signs.at(index).is_some() {
        Some(index)
    } else {
        None
    }
}

/// The first 16 live sessions whose signs are at most `limit`.
pub fn first_due(
    alloc: Global,
    sessions: &IndexMap<u64, Origin>,
    signs: &Signs,
    limit: u64,
) -> Result<List<u64>, NoMemory>
    requires { length signs.now ≡ length sessions.now.entries }
    ensures { IfOk result (λ due. due ≡ take tables.most_due (lives.due_in limit sessions.now.entries signs.now)) }
{
    let mut due = List::new(alloc);
    let mut next = 0;
    'more: while due.len() < MAX_DUE {
        let Some(index) = signs.first_up_to(next, limit) else {
            break;
        };
        let (session, _) = sessions.get_index(index).unwrap();
        due.push(*session)?;
        next = index + 1;
    }
    Ok(due)
}
