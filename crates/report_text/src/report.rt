ghost use Rattle.std.specs.Prelude.{◌≡◌, ◌≢◌, OnOk, string_bytes, ◌++◌};
ghost use Rattle.std.specs.List.{AllByRecursion};
ghost use Rattle.spec_report.specs.Items as items_spec;
ghost use Rattle.spec_report.specs.Report as spec;
ghost use Rattle.spec_report.specs.ReportValues as report_values;
ghost use Rattle.report_text.specs.RestText as texts;

use crate::calls::write_op;
use crate::items::write_read;
use crate::pieces::{blank, one_operand, two_operands, word};
use crate::printout::Printout;
use crate::replies::write_reply;
use ax_types::{Act, Item, NoMemory, Outcome, Report, RunEnd};

fn write_act(line: &mut String, act: &Act) -> Result<(), NoMemory>
    ensures written { OnOk result (string_bytes line.new ≡ string_bytes line.old ++ spec.act_text act.now) }
    ensures fits { OnOk result (report_values.FitsAct act.now) }
{
    match act {
        Act::Nothing => word(line, "nothing"),
        Act::Open { client, opening } => two_operands(line, "open", client.number(), *opening),
        Act::Keep { session } => one_operand(line, "keep", *session),
        Act::Do { session, name, op } => {
            one_operand(line, "do", *session)?;
            blank(line)?;
            write_op(line, name, op)
        }
        Act::Close { session } => one_operand(line, "close", *session),
        Act::Expire { session } => one_operand(line, "expire", *session),
    }
}

/// The line of the time and the act at a place, without its newline: `P TIME ACT`.
pub fn write_act_line(line: &mut String, place: u64, time: u64, act: &Act) -> Result<(), NoMemory>
    ensures written { OnOk result (string_bytes line.new ≡ string_bytes line.old ++ spec.act_line place (time, act.now)) }
    ensures fits { OnOk result (report_values.FitsHistoryEntry (time, act.now)) }
{
    write!(line, "{place} {time} ")?;
    write_act(line, act)
}

/// `done` or `step-limit LINE`.
pub fn write_end_word(line: &mut String, end: RunEnd) -> Result<(), NoMemory>
    ensures written { OnOk result (string_bytes line.new ≡ string_bytes line.old ++ spec.end_word end) }
    ensures fits { OnOk result (report_values.FitsRunEnd end) }
{
    match end {
        RunEnd::Done => word(line, "done"),
        RunEnd::StepLimit { line: number } => one_operand(line, "step-limit", number),
    }
}

/// What became of a caller's call.
pub fn write_outcome(line: &mut String, outcome: &Outcome) -> Result<(), NoMemory>
    requires { outcome.now ≢ Outcome.Stopped }
    ensures written { OnOk result (string_bytes line.new ≡ string_bytes line.old ++ spec.outcome_text outcome.now) }
    ensures fits { OnOk result (report_values.FitsOutcome outcome.now) }
{
    match outcome {
        Outcome::Reply { place, reply } => {
            one_operand(line, "reply", *place)?;
            blank(line)?;
            write_reply(line, reply)
        }
        Outcome::Read {
            level,
            place,
            reach,
            reply,
        } => {
            word(line, "read")?;
            write_read(line, *level, *place, *reach, reply)
        }
        Outcome::Doubt => word(line, "doubt"),
        Outcome::Lost => word(line, "lost"),
        Outcome::Unsent => word(line, "unsent"),
        Outcome::Unanswered => word(line, "unanswered"),
        Outcome::Stopped => unreachable!(),
    }
}

/// Writes the lines of items.
pub fn write_items(text: &mut Printout, items: &[Item]) -> Result<(), NoMemory>
    ensures written { OnOk result (text.new ≡ text.old ++ items_spec.items_text items.now) }
    ensures fits { OnOk result (AllByRecursion report_values.FitsItem items.now) }
{
    'items: for item in items {
        text.write_item(item)?;
    }
    Ok(())
}

/// Writes the line `history L` and the lines of the L entries of a history, each a time and an act.
fn write_history(text: &mut Printout, history: &[(u64, Act)]) -> Result<(), NoMemory>
    ensures written { OnOk result (text.new ≡ text.old ++ spec.history_text history.now) }
    ensures fits { OnOk result (AllByRecursion report_values.FitsHistoryEntry history.now) }
{
    text.write_history(history.len() as u64)?;
    let mut place = 1;
    'entries: for entry in history {
        text.write_act(place, entry.0, &entry.1)?;
        place += 1;
    }
    Ok(())
}

/// Writes the lines of calls without an outcome, each a session and a number.
fn write_waiting(text: &mut Printout, waiting: &[(u64, u64)]) -> Result<(), NoMemory>
    ensures written { OnOk result (text.new ≡ text.old ++ items_spec.waiting_text waiting.now) }
    ensures fits { OnOk result (AllByRecursion report_values.FitsCallNumber waiting.now) }
{
    'calls: for call in waiting {
        text.write_waiting(call.0, call.1)?;
    }
    Ok(())
}

/// Writes what stands behind the items of a report: its history, its calls without an outcome, and how its run ended.
pub fn write_rest(text: &mut Printout, report: &Report) -> Result<(), NoMemory>
    ensures written { OnOk result (text.new ≡ text.old ++ texts.rest_text report.now) }
    ensures fits_history { OnOk result (AllByRecursion report_values.FitsHistoryEntry report.now.history) }
    ensures fits_waiting { OnOk result (AllByRecursion report_values.FitsCallNumber report.now.waiting) }
    ensures fits_end { OnOk result (report_values.FitsRunEnd report.now.end) }
{
    write_history(text, report.history.as_slice())?;
    write_waiting(text, report.waiting.as_slice())?;
    text.write_end(report.end)
}
