ghost use Rattle.std.specs.Prelude.{◌≡◌, IfOk, option_map, codes};
ghost use Rattle.ax_types.specs.declared.refusals.ReportRefused.TheVariants as refusals;
ghost use Rattle.serde_json.specs.Find.{get};
ghost use Rattle.serde_json.specs.View.{view, items_view};
ghost use Rattle.spec_text.specs.Words as spec_words;
ghost use Rattle.spec_report_read.specs.ReportForm as report_form;
ghost use Rattle.text_words.specs.Behind as behind;
ghost use Rattle.report_read.specs.ReadAnswers as read_answers;

use crate::acts::{entry, run_end, waiting_call};
use crate::items::item;
use ax_types::limits::MAX_REPORT;
use ax_types::{Act, Item, List, NoMemory, Report, ReportRefused, ReportWhy, RunEnd};
use serde_json::Value;
use std::alloc::{AllocError, Global};

fn cut<'a>(alloc: Global, line: &'a [u8]) -> Result<Vec<&'a [u8]>, AllocError>
    ensures { IfOk result (λ v. behind.words_behind v.items ≡ spec_words.words_of line.now) }
{
    line.split(|b| *b == b' ').collect(alloc)
}

/// The words of a line.
fn words<'a>(alloc: Global, line: &'a str) -> Result<Vec<&'a [u8]>, NoMemory>
    ensures { IfOk result (λ v. behind.words_behind v.items ≡ spec_words.words_of line.now) }
{
    Ok(cut(alloc, line.as_bytes())?)
}

fn item_in(alloc: Global, value: &Value) -> Result<Option<Item>, NoMemory>
    ensures { IfOk result (λ read. read ≡ report_form.item_in (view value.now)) }
{
    match value.as_str() {
        Some(line) => item(alloc, words(alloc, line)?.as_slice()),
        None => Ok(None),
    }
}

fn entry_in(alloc: Global, place: u64, value: &Value) -> Result<Option<(u64, Act)>, NoMemory>
    ensures { IfOk result (λ read. read ≡ report_form.entry_in place (view value.now)) }
{
    match value.as_str() {
        Some(line) => entry(alloc, place, words(alloc, line)?.as_slice()),
        None => Ok(None),
    }
}

fn waiting_call_in(alloc: Global, value: &Value) -> Result<Option<(u64, u64)>, NoMemory>
    ensures { IfOk result (λ read. read ≡ report_form.waiting_call_in (view value.now)) }
{
    match value.as_str() {
        Some(line) => Ok(waiting_call(words(alloc, line)?.as_slice())),
        None => Ok(None),
    }
}

fn run_end_in(alloc: Global, value: &Value) -> Result<Option<RunEnd>, NoMemory>
    ensures { IfOk result (λ read. read ≡ report_form.run_end_in (view value.now)) }
{
    match value.as_str() {
        Some(line) => Ok(run_end(words(alloc, line)?.as_slice())),
        None => Ok(None),
    }
}

#[tactic(auto, using(crate::proofs::Loops::next_line_read))]
/// The items of an array of lines.
fn items_in(alloc: Global, lines: &[Value]) -> Result<Option<List<Item>>, NoMemory>
    ensures { IfOk result (λ read. read ≡ report_form.items_in (items_view lines.now)) }
{
    let mut items = List::with_capacity(alloc, lines.len())?;
    'lines: for line in lines {
        match item_in(alloc, line)? {
            Some(item) => items.push(item)?,
            None => return Ok(None),
        }
    }
    Ok(Some(items))
}

/// The history of an array of lines.
fn history_in(alloc: Global, lines: &[Value]) -> Result<Option<List<(u64, Act)>>, NoMemory>
    ensures { IfOk result (λ read. read ≡ report_form.history_in (items_view lines.now)) }
{
    let mut history = List::with_capacity(alloc, lines.len())?;
    let mut place = 1;
    'lines: for line in lines {
        match entry_in(alloc, place, line)? {
            Some(entry) => history.push(entry)?,
            None => return Ok(None),
        }
        place += 1;
    }
    Ok(Some(history))
}

/// The calls that wait of an array of lines.
fn waiting_calls_in(alloc: Global, lines: &[Value]) -> Result<Option<List<(u64, u64)>>, NoMemory>
    ensures { IfOk result (λ read. read ≡ report_form.waiting_calls_in (items_view lines.now)) }
{
    let mut waiting = List::with_capacity(alloc, lines.len())?;
    'lines: for line in lines {
        match waiting_call_in(alloc, line)? {
            Some(call) => waiting.push(call)?,
            None => return Ok(None),
        }
    }
    Ok(Some(waiting))
}

fn items_array(alloc: Global, value: &Value) -> Result<Option<List<Item>>, NoMemory>
    ensures { IfOk result (λ read. read ≡ report_form.items_array (view value.now)) }
{
    match value.as_array() {
        Some(lines) => items_in(alloc, lines.as_slice()),
        None => Ok(None),
    }
}

fn history_array(alloc: Global, value: &Value) -> Result<Option<List<(u64, Act)>>, NoMemory>
    ensures { IfOk result (λ read. read ≡ report_form.history_array (view value.now)) }
{
    match value.as_array() {
        Some(lines) => history_in(alloc, lines.as_slice()),
        None => Ok(None),
    }
}

fn waiting_array(alloc: Global, value: &Value) -> Result<Option<List<(u64, u64)>>, NoMemory>
    ensures { IfOk result (λ read. read ≡ report_form.waiting_array (view value.now)) }
{
    match value.as_array() {
        Some(lines) => waiting_calls_in(alloc, lines.as_slice()),
        None => Ok(None),
    }
}

fn is_one(value: &Value) -> bool
    ensures { result ≡ report_form.is_one (view value.now) }
{
    match value.as_u64() {
        Some(number) => number == 1,
        None => false,
    }
}

/// The report of an end and three arrays of lines.
fn listed_report(
    alloc: Global,
    end: &Value,
    history: &Value,
    items: &Value,
    waiting: &Value,
) -> Result<Option<Report>, NoMemory>
    ensures { IfOk result (λ read. read ≡ report_form.listed_report (view end.now) (view history.now) (view items.now) (view waiting.now)) }
{
    let Some(end) = run_end_in(alloc, end)? else {
        return Ok(None);
    };
    let Some(history) = history_array(alloc, history)? else {
        return Ok(None);
    };
    let Some(items) = items_array(alloc, items)? else {
        return Ok(None);
    };
    let Some(waiting) = waiting_array(alloc, waiting)? else {
        return Ok(None);
    };
    Ok(Some(Report {
        items,
        history,
        waiting,
        end,
    }))
}

fn has_five_members(value: &Value) -> bool
    ensures { result ≡ report_form.has_five_members (view value.now) }
{
    match value.as_object() {
        Some(members) => members.len() == 5,
        None => false,
    }
}

/// The report of an object's five keys, where all are there.
fn keyed_report(alloc: Global, value: &Value) -> Result<Option<Report>, NoMemory>
    ensures { IfOk result (λ read. read ≡ report_form.keyed_report
        (get (codes "end") (view value.now)) (get (codes "history") (view value.now)) (get (codes "items") (view value.now))
        (get (codes "report") (view value.now)) (get (codes "waiting") (view value.now))) }
{
    let Some(end) = value.get("end") else {
        return Ok(None);
    };
    let Some(history) = value.get("history") else {
        return Ok(None);
    };
    let Some(items) = value.get("items") else {
        return Ok(None);
    };
    let Some(version) = value.get("report") else {
        return Ok(None);
    };
    let Some(waiting) = value.get("waiting") else {
        return Ok(None);
    };
    if is_one(version) {
        listed_report(alloc, end, history, items, waiting)
    } else {
        Ok(None)
    }
}

/// The report of a JSON value; `None` exactly where it is none.
fn report_of(alloc: Global, value: &Value) -> Result<Option<Report>, NoMemory>
    ensures { IfOk result (λ read. read ≡ report_form.report_from_data (view value.now)) }
{
    if has_five_members(value) {
        keyed_report(alloc, value)
    } else {
        Ok(None)
    }
}

/// The JSON value of bytes; `None` exactly where they are no JSON.
fn value_of(alloc: Global, bytes: &[u8]) -> Result<Option<Value>, NoMemory>
    ensures { IfOk result (λ read. option_map view read ≡ report_form.data_from_bytes bytes.now) }
{
    match Value::from_slice(alloc, bytes) {
        Ok(value) => Ok(Some(value)),
        Err(error) => {
            if error.is_memory() {
                Err(NoMemory)
            } else {
                Ok(None)
            }
        }
    }
}

fn refused(why: ReportWhy) -> ReportRefused
    ensures { result ≡ refusals.NotReport why }
{
    ReportRefused::NotReport { why }
}

fn or_shape(read: Option<Report>) -> Result<Report, ReportRefused>
    ensures { read_answers.ReadsReport (report_form.or_shape read) result }
{
    match read {
        Some(report) => Ok(report),
        None => Err(refused(ReportWhy::Shape)),
    }
}

/// The report of a JSON value.
fn report_in(alloc: Global, value: &Value) -> Result<Report, ReportRefused>
    ensures { read_answers.ReadsReport (report_form.or_shape (report_form.report_from_data (view value.now))) result }
{
    or_shape(report_of(alloc, value)?)
}

/// The report of bytes of any number.
fn report_in_bytes(alloc: Global, bytes: &[u8]) -> Result<Report, ReportRefused>
    ensures { read_answers.ReadsReport (report_form.or_json (report_form.data_from_bytes bytes.now)) result }
{
    match value_of(alloc, bytes)? {
        Some(value) => report_in(alloc, &value),
        None => Err(refused(ReportWhy::Json)),
    }
}

#[tactic(auto, unfolding(spec_report_read::specs::ReportForm::is_longer, spec_report_read::specs::ReportForm::longest_report))]
/// Whether they are more than a report may have.
fn is_longer(bytes: &[u8]) -> bool
    ensures { result ≡ report_form.is_longer bytes.now }
{
    bytes.len() > MAX_REPORT
}

/// Reads a report from its JSON form. Bytes that are no report are refused for the first of these reasons: more than
/// 67,108,864 of them; no JSON; not an object of the keys `end`, `history`, `items`, `report` and `waiting` alone, whose
/// lists hold lines of a report, with the places of the history 1, 2, 3 in order.
pub fn read_report(alloc: Global, bytes: &[u8]) -> Result<Report, ReportRefused>
    ensures { read_answers.ReadsReport (report_form.read_report_from bytes.now) result }
{
    if is_longer(bytes) {
        Err(refused(ReportWhy::TooLong))
    } else {
        report_in_bytes(alloc, bytes)
    }
}
