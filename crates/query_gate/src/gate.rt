ghost use Rattle.std.specs.Prelude.{◌≡◌, ◌≤◌, ◌↔◌, [], ◌∷◌, ◌++◌, false, length, Err, IfOk, OnOk, OnErr};
ghost use Rattle.ax_types.specs.declared.refusals.HoldRefused.TheVariants as refused;
ghost use Rattle.spec_server.specs.Gates as gates;

use ax_types::limits::MAX_HELD;
use ax_types::{Held, HoldRefused, List, NoMemory, Ready};
use std::alloc::Global;
use std::collections::VecDeque;
use std::marker::Model;

/// The queries that a server holds, in the order in which they came.
#[derive(Drop)]
pub struct QueryGate {
    alloc: Global,
    held: VecDeque<Held>,
}

impl Model for QueryGate {
    ghost use Rattle.std.specs.Prelude.{List as Items};
    ghost use Rattle.ax_types.specs.declared.sessions.Held.{Held as Query};

    ghost Value = { Items Query };

    ghost view = { λ a. a.held.items };
}

impl QueryGate {
    /// A gate that holds no query. It takes no memory.
    pub fn new(alloc: Global) -> Self
        ensures { result ≡ [] }
    {
        QueryGate {
            alloc,
            held: VecDeque::new(alloc),
        }
    }

    /// Holds one more query: `Dropped` exactly where 256 are held. The gate is unchanged after a refusal.
    pub fn hold(&mut self, held: Held) -> Result<(), HoldRefused>
        ensures ok { OnOk result (self.new ≡ self.old ++ held ∷ []) }
        ensures err { OnErr result (self.new ≡ self.old) }
        ensures dropped { (result ≡ Err refused.Dropped) ↔ (gates.has_gate_room self.old ≡ false) }
    {
        if self.held.len() >= MAX_HELD {
            return Err(HoldRefused::Dropped);
        }
        if self.held.push_back(held).is_err() {
            return Err(HoldRefused::NoMemory);
        }
        Ok(())
    }

    /// Takes out the queries that a state is new enough for, in the order in which they were held. The gate is unchanged
    /// after want of memory.
    pub fn release<R: Ready>(&mut self, state: &R) -> Result<List<Held>, NoMemory>
        ensures ok { IfOk result (λ through. through ≡ gates.let_through (R.is_ready state.now) self.old) }
        ensures after { OnOk result (self.new ≡ gates.still_held (R.is_ready state.now) self.old) }
        ensures err { OnErr result (self.new ≡ self.old) }
    {
        let count = self.ready_count(state);
        if count == 0 {
            return Ok(List::new(self.alloc));
        }
        let mut through = Vec::with_capacity(self.alloc, count)?;
        let mut waiting = VecDeque::with_capacity(self.alloc, self.held.len() - count)?;
        'held: while let Some(held) = self.held.pop_front() {
            if is_ready(state, &held) {
                through.push_reserved(held);
            } else {
                waiting.push_back_reserved(held);
            }
        }
        self.held = waiting;
        Ok(List::from_vec(through))
    }

    /// How many queries a state is new enough for.
    fn ready_count<R: Ready>(&self, state: &R) -> usize
        ensures count { result ≡ length (gates.let_through (R.is_ready state.now) self.now) }
        ensures within { result ≤ length self.now }
    {
        self.held
            .iter()
            .filter(|held| is_ready(state, held))
            .count()
    }
}

/// Whether a state is new enough for a query.
fn is_ready<R: Ready>(state: &R, held: &Held) -> bool
    ensures { result ≡ gates.is_ready_for (R.is_ready state.now) held.now }
{
    state.ready(held.session, held.place, held.seq)
}
