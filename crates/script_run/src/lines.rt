ghost use Rattle.std.specs.Prelude.{◌≡◌, ◌+◌, [], ◌∷◌, true, false, length, IfOk};
ghost use Rattle.ax_types.specs.declared.steps.Step.TheVariants as step;
ghost use Rattle.spec_run.specs.Run as runs;
ghost use Rattle.world_hosts.specs.StoresMatch as matching;
ghost use Rattle.script_run.specs.Carrying as carrying;
ghost use Rattle.script_run.specs.RunsInCode as in_code;

use crate::telling::{GivenUp, items_from, tell};
use ax_io::Sink;
use ax_types::limits::MAX_STEPS;
use ax_types::{Line, NodeId, RunEnd, Step};
use ax_world::World;
use report_text::Printout;
use store_journal::NodeStore;
use watch_hooks::Filters;

/// Makes a step. `false`: as many steps were made as a run may have, and nothing is done.
fn make<S: NodeStore, O: Sink>(
    world: &mut World,
    stores: &mut Vec<S>,
    output: &mut O,
    text: &mut Printout,
    json: bool,
    made: &Step,
    filters: &Filters,
) -> Result<bool, GivenUp>
    requires ready { in_code.MayGoOn world.old (matching.store_states_of S.told S.needs_load stores.old.items) }
    ensures makes { matching.AreTelling (matching.store_states_of S.told S.needs_load stores.old.items)
        → carrying.Makes (in_code.so_far json (O.content output.old) world.old) made.now (in_code.so_far json (O.content output.new) world.new) result }
    ensures ready { in_code.UnlessNoMemory result (in_code.StaysReady (matching.store_states_of S.told S.needs_load stores.old.items) world.new (matching.store_states_of S.told S.needs_load stores.new.items)) }
    ensures sink { in_code.LeavesSink json O.faults output.old output.new result }
    ensures grows { IfOk result (λ went. went ≡ true → length world.new.kept ≡ length world.old.kept + 1) }
{
    if world.kept().len() as u64 >= MAX_STEPS {
        return Ok(false);
    }
    let shown = world.transcript().len();
    world.step(stores, made, filters)?;
    tell(output, text, json, items_from(world.transcript(), shown))?;
    Ok(true)
}

/// Delivers a packet. `false`: as many steps were made as a run may have, and nothing is done.
fn deliver<S: NodeStore, O: Sink>(
    world: &mut World,
    stores: &mut Vec<S>,
    output: &mut O,
    text: &mut Printout,
    json: bool,
    number: u64,
    filters: &Filters,
) -> Result<bool, GivenUp>
    requires ready { in_code.MayGoOn world.old (matching.store_states_of S.told S.needs_load stores.old.items) }
    ensures makes { matching.AreTelling (matching.store_states_of S.told S.needs_load stores.old.items)
        → carrying.Makes (in_code.so_far json (O.content output.old) world.old) (step.Deliver number) (in_code.so_far json (O.content output.new) world.new) result }
    ensures ready { in_code.UnlessNoMemory result (in_code.StaysReady (matching.store_states_of S.told S.needs_load stores.old.items) world.new (matching.store_states_of S.told S.needs_load stores.new.items)) }
    ensures sink { in_code.LeavesSink json O.faults output.old output.new result }
    ensures grows { IfOk result (λ went. went ≡ true → length world.new.kept ≡ length world.old.kept + 1) }
{
    make(
        world,
        stores,
        output,
        text,
        json,
        &Step::Deliver { number },
        filters,
    )
}

/// A beat of a node. `false`: as many steps were made as a run may have, and nothing is done.
fn beat<S: NodeStore, O: Sink>(
    world: &mut World,
    stores: &mut Vec<S>,
    output: &mut O,
    text: &mut Printout,
    json: bool,
    node: NodeId,
    filters: &Filters,
) -> Result<bool, GivenUp>
    requires ready { in_code.MayGoOn world.old (matching.store_states_of S.told S.needs_load stores.old.items) }
    ensures makes { matching.AreTelling (matching.store_states_of S.told S.needs_load stores.old.items)
        → carrying.Makes (in_code.so_far json (O.content output.old) world.old) (step.Beat node) (in_code.so_far json (O.content output.new) world.new) result }
    ensures ready { in_code.UnlessNoMemory result (in_code.StaysReady (matching.store_states_of S.told S.needs_load stores.old.items) world.new (matching.store_states_of S.told S.needs_load stores.new.items)) }
    ensures sink { in_code.LeavesSink json O.faults output.old output.new result }
    ensures grows { IfOk result (λ went. went ≡ true → length world.new.kept ≡ length world.old.kept + 1) }
{
    make(
        world,
        stores,
        output,
        text,
        json,
        &Step::Beat { node },
        filters,
    )
}

/// Delivers, again and again, the first packet that can be delivered. `false`: a delivery was due when as many steps were made as
/// a run may have.
fn deliver_all<S: NodeStore, O: Sink>(
    world: &mut World,
    stores: &mut Vec<S>,
    output: &mut O,
    text: &mut Printout,
    json: bool,
    filters: &Filters,
) -> Result<bool, GivenUp>
    requires ready { in_code.MayGoOn world.old (matching.store_states_of S.told S.needs_load stores.old.items) }
    ensures carries { matching.AreTelling (matching.store_states_of S.told S.needs_load stores.old.items)
        → in_code.CarriesOut (runs.Deliver_all ∷ []) (in_code.so_far json (O.content output.old) world.old) (in_code.so_far json (O.content output.new) world.new) result }
    ensures ready { in_code.UnlessNoMemory result (in_code.StaysReady (matching.store_states_of S.told S.needs_load stores.old.items) world.new (matching.store_states_of S.told S.needs_load stores.new.items)) }
    ensures sink { in_code.LeavesSink json O.faults output.old output.new result }
{
    'packets: while let Some(number) = world.flush_next() {
        if !deliver(world, stores, output, text, json, number, filters)? {
            return Ok(false);
        }
    }
    Ok(true)
}

/// A beat of a node, and then all deliveries. `false`: as many steps were made as a run may have, and one more is due.
fn beat_and_deliver<S: NodeStore, O: Sink>(
    world: &mut World,
    stores: &mut Vec<S>,
    output: &mut O,
    text: &mut Printout,
    json: bool,
    node: NodeId,
    filters: &Filters,
) -> Result<bool, GivenUp>
    requires ready { in_code.MayGoOn world.old (matching.store_states_of S.told S.needs_load stores.old.items) }
    ensures carries { matching.AreTelling (matching.store_states_of S.told S.needs_load stores.old.items)
        → in_code.CarriesOut (in_code.beat_jobs node) (in_code.so_far json (O.content output.old) world.old) (in_code.so_far json (O.content output.new) world.new) result }
    ensures ready { in_code.UnlessNoMemory result (in_code.StaysReady (matching.store_states_of S.told S.needs_load stores.old.items) world.new (matching.store_states_of S.told S.needs_load stores.new.items)) }
    ensures sink { in_code.LeavesSink json O.faults output.old output.new result }
{
    if !beat(world, stores, output, text, json, node, filters)? {
        return Ok(false);
    }
    deliver_all(world, stores, output, text, json, filters)
}

/// Deliveries, and twice a beat of a node with deliveries behind it. `false`: as many steps were made as a run may have, and one
/// more is due.
fn settle<S: NodeStore, O: Sink>(
    world: &mut World,
    stores: &mut Vec<S>,
    output: &mut O,
    text: &mut Printout,
    json: bool,
    node: NodeId,
    filters: &Filters,
) -> Result<bool, GivenUp>
    requires ready { in_code.MayGoOn world.old (matching.store_states_of S.told S.needs_load stores.old.items) }
    ensures carries { matching.AreTelling (matching.store_states_of S.told S.needs_load stores.old.items)
        → in_code.CarriesOut (in_code.settle_jobs node) (in_code.so_far json (O.content output.old) world.old) (in_code.so_far json (O.content output.new) world.new) result }
    ensures ready { in_code.UnlessNoMemory result (in_code.StaysReady (matching.store_states_of S.told S.needs_load stores.old.items) world.new (matching.store_states_of S.told S.needs_load stores.new.items)) }
    ensures sink { in_code.LeavesSink json O.faults output.old output.new result }
{
    if !deliver_all(world, stores, output, text, json, filters)? {
        return Ok(false);
    }
    if !beat_and_deliver(world, stores, output, text, json, node, filters)? {
        return Ok(false);
    }
    beat_and_deliver(world, stores, output, text, json, node, filters)
}

/// Runs a line. `false`: as many steps were made as a run may have, and the line needs one more.
fn run_line<S: NodeStore, O: Sink>(
    world: &mut World,
    stores: &mut Vec<S>,
    output: &mut O,
    text: &mut Printout,
    json: bool,
    line: &Line,
    filters: &Filters,
) -> Result<bool, GivenUp>
    requires ready { in_code.MayGoOn world.old (matching.store_states_of S.told S.needs_load stores.old.items) }
    ensures carries { matching.AreTelling (matching.store_states_of S.told S.needs_load stores.old.items)
        → in_code.CarriesOut (runs.jobs_of line.now) (in_code.so_far json (O.content output.old) world.old) (in_code.so_far json (O.content output.new) world.new) result }
    ensures ready { in_code.UnlessNoMemory result (in_code.StaysReady (matching.store_states_of S.told S.needs_load stores.old.items) world.new (matching.store_states_of S.told S.needs_load stores.new.items)) }
    ensures sink { in_code.LeavesSink json O.faults output.old output.new result }
{
    match line {
        Line::Do(step) => make(world, stores, output, text, json, step, filters),
        Line::Flush => deliver_all(world, stores, output, text, json, filters),
        Line::Settle(node) => settle(world, stores, output, text, json, *node, filters),
    }
}

/// Runs lines, each with its number, to their end or to the line that needs one more step than a run may have.
pub(crate) fn run_lines<S: NodeStore, O: Sink>(
    world: &mut World,
    stores: &mut Vec<S>,
    output: &mut O,
    text: &mut Printout,
    json: bool,
    lines: &[(u64, Line)],
    filters: &Filters,
) -> Result<RunEnd, GivenUp>
    requires ready { in_code.MayGoOn world.old (matching.store_states_of S.told S.needs_load stores.old.items) }
    ensures runs { matching.AreTelling (matching.store_states_of S.told S.needs_load stores.old.items)
        → carrying.RunsLines lines.now (in_code.so_far json (O.content output.old) world.old) (in_code.so_far json (O.content output.new) world.new) result }
    ensures ready { in_code.UnlessNoMemory result (in_code.StaysReady (matching.store_states_of S.told S.needs_load stores.old.items) world.new (matching.store_states_of S.told S.needs_load stores.new.items)) }
    ensures sink { in_code.LeavesSink json O.faults output.old output.new result }
{
    'lines: for entry in lines {
        if !run_line(world, stores, output, text, json, &entry.1, filters)? {
            return Ok(RunEnd::StepLimit { line: entry.0 });
        }
    }
    Ok(RunEnd::Done)
}
