ghost use Rattle.std.specs.Prelude.{◌≡◌, ◌≤◌, true, false, string_bytes, IfOk, OnOk, OnErr};
ghost use Rattle.ax_io.specs.Content as ax_io_content;
ghost use Rattle.ax_io.specs.Count as counts;
ghost use Rattle.ax_types.specs.declared.limits.TheConstants.{MAX_CLIENTS, MAX_NODES, MAX_TIMEOUT};
ghost use Rattle.spec_report.specs.ReportValues as report_values;
ghost use Rattle.world_hosts.specs.StoresMatch as matching;
ghost use Rattle.script_run.specs.Carrying as carrying;
ghost use Rattle.script_run.specs.RunsInCode as in_code;
ghost use Rattle.script_run.specs.ScriptRuns as script_runs;
ghost use Rattle.script_report.specs.ReportForms as report_forms;

use ax_io::{Failed, Sink};
use ax_types::{List, NoMemory, Report, RunEnd, Script};
use report_text::{Printout, head_text, json_text, waiting_of, write_rest};
use script_run::{GivenUp, Ran, run_script};
use std::alloc::Global;
use store_journal::NodeStore;
use watch_hooks::Filters;

/// Puts the first line of a text report.
fn put_head<O: Sink>(output: &mut O, json: bool) -> Result<(), Failed>
    ensures counted { counts.Counted (O.faults output.old) (O.faults output.new) result }
    ensures ok { OnOk result (O.content output.new ≡ ax_io_content.append_told (O.content output.old) (report_forms.head_in json)) }
    ensures failed { OnErr result (ax_io_content.TakesFront (O.content output.old) (O.content output.new) (report_forms.head_in json)) }
    ensures text { OnErr result (json ≡ false) }
    ensures silent { json ≡ true → output.new ≡ output.old }
{
    if json {
        return Ok(());
    }
    output.put(head_text().as_bytes())
}

/// What stands behind the lines of the items, of a text report; the whole of one in JSON.
fn rest_of(alloc: Global, ran: Ran, json: bool) -> Result<String, NoMemory>
    ensures text { IfOk result (λ t. string_bytes t ≡ report_forms.rest_in json ran.items.items ran.history.items ran.end) }
    ensures fits { carrying.Fit json ran.items.items → IfOk result (λ _. report_values.IsRun (record { items = ran.items.items; history = ran.history.items; end = ran.end })) }
{
    let items = List::from_vec(ran.items);
    let waiting = waiting_of(alloc, items.as_slice())?;
    let report = Report {
        items,
        history: List::from_vec(ran.history),
        waiting,
        end: ran.end,
    };
    if json {
        return json_text(alloc, &report);
    }
    let mut text = Printout::new(alloc);
    write_rest(&mut text, &report)?;
    Ok(text.into_string())
}

/// Runs a script over the stores of its nodes, which are empty and loaded, and writes the report of the run. One in JSON is put into
/// the sink when the run has ended. Of a text the first line is put before the run, the lines of a step's items behind the step, and
/// the rest at the end.
pub fn report_of_script<S: NodeStore, O: Sink>(
    alloc: Global,
    script: &Script,
    stores: &mut Vec<S>,
    output: &mut O,
    json: bool,
    filters: &Filters,
) -> Result<RunEnd, GivenUp>
    requires some { 1 ≤ script.now.nodes }
    requires nodes { script.now.nodes ≤ MAX_NODES }
    requires clients { script.now.clients ≤ MAX_CLIENTS }
    requires low { 1 ≤ script.now.timeout }
    requires high { script.now.timeout ≤ MAX_TIMEOUT }
    requires stores { matching.StoresMatch (script_runs.world_of_script script.now).hosts (matching.store_states_of S.told S.needs_load stores.old.items) }
    ensures writes { matching.AreTelling (matching.store_states_of S.told S.needs_load stores.old.items)
        → report_forms.Writes json script.now (matching.store_states_of S.told S.needs_load stores.new.items) (O.content output.old) (O.content output.new) result }
    ensures count { in_code.Counts (O.faults output.old) (O.faults output.new) result }
    ensures silent { report_forms.IfJsonLeft json result (output.new ≡ output.old) }
{
    put_head(output, json)?;
    let ran = run_script(alloc, script, stores, output, json, filters)?;
    let end = ran.end;
    let rest = rest_of(alloc, ran, json)?;
    output.put(rest.as_bytes())?;
    Ok(end)
}
