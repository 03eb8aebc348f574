ghost use Rattle.std.specs.Prelude.{◌≡◌, IfOk, string_bytes, ◌++◌, ◌∷◌, [], map};
ghost use Rattle.std.specs.List.{AllByRecursion};
ghost use Rattle.serde_json.specs.Data.{array};
ghost use Rattle.serde_json.specs.View.{view};
ghost use Rattle.spec_report.specs.Items as items;
ghost use Rattle.spec_report.specs.Report as report;
ghost use Rattle.spec_report.specs.Json as spec;
ghost use Rattle.spec_report.specs.ReportValues as report_values;

use crate::items::{write_item_line, write_waiting_line};
use crate::report::{write_act_line, write_end_word};
use ax_types::{Act, Item, NoMemory, Report};
use serde_json::{Value, json};
use std::alloc::{AllocError, Global};

/// The lines of items as strings.
fn items_value(alloc: Global, list: &[Item]) -> Result<Value, NoMemory>
    ensures value { IfOk result (λ v. view v ≡ array (spec.strings_of (map items.item_line list.now))) }
    ensures fits { IfOk result (λ _. AllByRecursion report_values.FitsItem list.now) }
{
    let mut lines = Vec::new(alloc);
    'items: for item in list {
        let mut line = String::new(alloc);
        write_item_line(&mut line, item)?;
        lines.push(Value::String(line))?;
    }
    Ok(Value::Array(lines))
}

/// The lines of a history as strings.
fn history_value(alloc: Global, history: &[(u64, Act)]) -> Result<Value, NoMemory>
    ensures value { IfOk result (λ v. view v ≡ array (spec.strings_of (report.act_lines 1 history.now))) }
    ensures fits { IfOk result (λ _. AllByRecursion report_values.FitsHistoryEntry history.now) }
{
    let mut lines = Vec::new(alloc);
    let mut place = 1;
    'entries: for entry in history {
        let mut line = String::new(alloc);
        write_act_line(&mut line, place, entry.0, &entry.1)?;
        lines.push(Value::String(line))?;
        place += 1;
    }
    Ok(Value::Array(lines))
}

/// The lines of calls without an outcome as strings.
fn waiting_value(alloc: Global, waiting: &[(u64, u64)]) -> Result<Value, NoMemory>
    ensures value { IfOk result (λ v. view v ≡ array (spec.strings_of (map items.waiting_line waiting.now))) }
    ensures fits { IfOk result (λ _. AllByRecursion report_values.FitsCallNumber waiting.now) }
{
    let mut lines = Vec::new(alloc);
    'calls: for call in waiting {
        let mut line = String::new(alloc);
        write_waiting_line(&mut line, call.0, call.1)?;
        lines.push(Value::String(line))?;
    }
    Ok(Value::Array(lines))
}

/// The object of a report, of its end and its three lists.
fn report_object(
    alloc: Global,
    end: String,
    history: Value,
    items: Value,
    waiting: Value,
) -> Result<Value, AllocError>
    ensures { IfOk result (λ v. view v ≡ spec.report_object (string_bytes end) (view history) (view items) (view waiting)) }
{
    json!(in alloc; {
        "end": end, "history": history, "items": items, "report": 1u64, "waiting": waiting
    })
}

/// The object of a report.
fn report_value(alloc: Global, report: &Report) -> Result<Value, NoMemory>
    ensures value { IfOk result (λ v. view v ≡ spec.report_data report.now) }
    ensures fits { IfOk result (λ _. report_values.FitsReport report.now) }
{
    let mut end = String::new(alloc);
    write_end_word(&mut end, report.end)?;
    let history = history_value(alloc, report.history.as_slice())?;
    let items = items_value(alloc, report.items.as_slice())?;
    let waiting = waiting_value(alloc, report.waiting.as_slice())?;
    Ok(report_object(alloc, end, history, items, waiting)?)
}

/// A text, and a newline.
fn ended(mut text: String) -> Result<String, NoMemory>
    ensures { IfOk result (λ t. string_bytes t ≡ string_bytes text ++ (10 ∷ [])) }
{
    text.push_str("\n")?;
    Ok(text)
}

/// The report in JSON, with a newline: the text, with no space, of an object whose keys are `end`, `history`,
/// `items`, `report` and `waiting`. Its lists hold the lines of the report, without their newlines.
pub fn json_text(alloc: Global, report: &Report) -> Result<String, NoMemory>
    ensures text { IfOk result (λ t. string_bytes t ≡ spec.json_text report.now) }
    ensures fits { IfOk result (λ _. report_values.FitsReport report.now) }
{
    ended(report_value(alloc, report)?.to_string(alloc)?)
}
