ghost use Rattle.std.specs.Prelude.{◌≡◌, IfOk, string_bytes};
ghost use Rattle.ax_cli.specs.ExitStatus as exit_status;

use ax_types::{NoMemory, ReportWhy, Status, Why};
use std::alloc::Global;

/// The number that the process ends with.
pub fn exit_number(status: &Status) -> u8
    ensures { result ≡ exit_status.exit_number_of status.now }
{
    match status {
        Status::Done => 0,
        Status::Usage => 1,
        Status::Script { .. } => 2,
        Status::ReadFault => 3,
        Status::WriteFault => 4,
        Status::NoMemory => 5,
        Status::StoreNotEmpty { .. } | Status::StoreFault { .. } => 6,
        Status::StepLimit { .. } => 7,
        Status::NoThread => 8,
        Status::StoreBad { .. } => 9,
        Status::NotReport { .. } => 10,
        Status::NoMajority { .. } => 11,
    }
}

/// The name of a reason.
fn why_name(why: Why) -> &'static str
    ensures { result.now ≡ exit_status.why_word why }
{
    match why {
        Why::Cluster => "Cluster",
        Why::LineTooLong => "LineTooLong",
        Why::TooLong => "TooLong",
        Why::Grammar => "Grammar",
        Why::NoSession => "NoSession",
    }
}

fn report_why_name(why: ReportWhy) -> &'static str
    ensures { result.now ≡ exit_status.report_why_word why }
{
    match why {
        ReportWhy::TooLong => "TooLong",
        ReportWhy::Json => "Json",
        ReportWhy::Shape => "Shape",
    }
}

fn words(alloc: Global, text: &str) -> Result<String, NoMemory>
    ensures { IfOk result (λ t. string_bytes t ≡ text.now) }
{
    Ok(String::from_str(alloc, text)?)
}

fn script_line(alloc: Global, line: u64, why: Why) -> Result<String, NoMemory>
    ensures { IfOk result (λ t. string_bytes t ≡ exit_status.status_text (Status.Script line why)) }
{
    let name = why_name(why);
    Ok(format!(in alloc; "script: line {line}: {name}")?)
}

fn not_report_line(alloc: Global, why: ReportWhy) -> Result<String, NoMemory>
    ensures { IfOk result (λ t. string_bytes t ≡ exit_status.status_text (Status.NotReport why)) }
{
    let name = report_why_name(why);
    Ok(format!(in alloc; "report: {name}")?)
}

fn not_empty_line(alloc: Global, node: u8) -> Result<String, NoMemory>
    ensures { IfOk result (λ t. string_bytes t ≡ exit_status.status_text (Status.StoreNotEmpty node)) }
{
    Ok(format!(in alloc; "store {node} not empty")?)
}

fn store_fault_line(alloc: Global, node: u8) -> Result<String, NoMemory>
    ensures { IfOk result (λ t. string_bytes t ≡ exit_status.status_text (Status.StoreFault node)) }
{
    Ok(format!(in alloc; "store {node} fault")?)
}

fn step_limit_line(alloc: Global, line: u64) -> Result<String, NoMemory>
    ensures { IfOk result (λ t. string_bytes t ≡ exit_status.status_text (Status.StepLimit line)) }
{
    Ok(format!(in alloc; "step limit at line {line}")?)
}

fn store_bad_line(alloc: Global, node: u8, at: u64) -> Result<String, NoMemory>
    ensures { IfOk result (λ t. string_bytes t ≡ exit_status.status_text (Status.StoreBad node at)) }
{
    Ok(format!(in alloc; "store {node} bad at {at}")?)
}

fn no_majority_line(alloc: Global, good: u8, nodes: u8) -> Result<String, NoMemory>
    ensures { IfOk result (λ t. string_bytes t ≡ exit_status.status_text (Status.NoMajority good nodes)) }
{
    Ok(format!(in alloc; "no majority: {good} of {nodes}")?)
}

/// The one line that is printed for a status on standard error, without its newline.
pub fn status_line(alloc: Global, status: &Status) -> Result<String, NoMemory>
    ensures { IfOk result (λ t. string_bytes t ≡ exit_status.status_text status.now) }
{
    match status {
        Status::Done => words(alloc, "done"),
        Status::Usage => words(
            alloc,
            "usage: axrun run|run-in DIR|gen N|race|upgrade DIR|audit T|salvage DIR [--json] [--steps] [--nodes N] [--timeout T]",
        ),
        Status::Script { line, why } => script_line(alloc, *line, *why),
        Status::ReadFault => words(alloc, "read fault"),
        Status::WriteFault => words(alloc, "write fault"),
        Status::NoMemory => words(alloc, "no memory"),
        Status::StoreNotEmpty { node } => not_empty_line(alloc, *node),
        Status::StoreFault { node } => store_fault_line(alloc, *node),
        Status::StepLimit { line } => step_limit_line(alloc, *line),
        Status::NoThread => words(alloc, "no thread"),
        Status::StoreBad { node, at } => store_bad_line(alloc, *node, *at),
        Status::NotReport { why } => not_report_line(alloc, *why),
        Status::NoMajority { good, nodes } => no_majority_line(alloc, *good, *nodes),
    }
}
