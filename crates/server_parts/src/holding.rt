ghost use Rattle.std.specs.Prelude.{◌≡◌, ◌++◌, OnOk};
ghost use Rattle.spec_server.specs.Gates as gates;
ghost use Rattle.server_parts.specs.StepAsks as asked;

use crate::readings::Readings;
use ax_types::{Held, HoldRefused, NoMemory};
use query_gate::QueryGate;

/// Holds one more query, unless as many are held as may be.
fn hold(gate: &mut QueryGate, held: Held) -> Result<(), NoMemory>
    ensures { OnOk result (gate.new ≡ gates.with_held gate.old held) }
{
    match gate.hold(held) {
        Ok(()) | Err(HoldRefused::Dropped) => Ok(()),
        Err(HoldRefused::NoMemory) => Err(NoMemory),
    }
}

/// The same, where there is one.
fn hold_one(gate: &mut QueryGate, held: Option<Held>) -> Result<(), NoMemory>
    ensures { OnOk result (gate.new ≡ gates.with_all_held gate.old (asked.listed held)) }
{
    match held {
        Some(held) => hold(gate, held),
        None => Ok(()),
    }
}

/// Holds the query of a read that is ready at a place.
fn hold_reading(
    gate: &mut QueryGate,
    readings: &Readings,
    arrival: u64,
    place: u64,
) -> Result<(), NoMemory>
    ensures { OnOk result (gate.new ≡ gates.with_all_held gate.old (gates.reading_at place (gates.reading readings.now arrival))) }
{
    let held = readings.reading_at(arrival, place)?;
    hold_one(gate, held)
}

#[tactic(auto, using(crate::proofs::HeldAfter::hold_more))]
/// Holds the queries of the reads that are ready.
fn hold_ready(
    gate: &mut QueryGate,
    readings: &Readings,
    reads: &[(u64, u64)],
) -> Result<(), NoMemory>
    ensures { OnOk result (gate.new ≡ gates.with_all_held gate.old (gates.ready_held readings.now reads.now)) }
{
    'reads: for read in reads {
        hold_reading(gate, readings, read.0, read.1)?;
    }
    Ok(())
}

#[tactic(auto, using(crate::proofs::HeldAfter::hold_more))]
/// Holds a query that came, where one did, and then those of the reads that are ready.
pub fn hold_all(
    gate: &mut QueryGate,
    readings: &Readings,
    held: Option<Held>,
    reads: &[(u64, u64)],
) -> Result<(), NoMemory>
    ensures { OnOk result (gate.new ≡ gates.with_all_held gate.old (asked.listed held ++ gates.ready_held readings.now reads.now)) }
{
    hold_one(gate, held)?;
    hold_ready(gate, readings, reads)
}
