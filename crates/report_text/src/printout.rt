ghost use Rattle.std.specs.Prelude.{◌≡◌, ◌≢◌, [], ◌∷◌, ◌++◌, OnOk, OnErr, codes, string_bytes};
ghost use Rattle.std.specs.Fmt.{decimal};
ghost use Rattle.spec_report.specs.CallLines as call_lines;
ghost use Rattle.spec_report.specs.Items as items;
ghost use Rattle.spec_report.specs.Report as spec;
ghost use Rattle.spec_report.specs.ReportValues as report_values;
ghost use Rattle.spec_wire.specs.Ranges as ranges;

use crate::items::{watch_text, write_item_line, write_told, write_waiting_line};
use crate::pieces::{blank, one_operand, three_operands, two_operands, word};
use crate::report::{write_act_line, write_end_word, write_outcome};
use ax_types::{Act, ClientId, Event, Item, NoMemory, Outcome, RunEnd, WatchKind};
use std::alloc::Global;
use std::marker::Model;

/// The first line of a report, with its newline.
pub fn head_text() -> &'static str
    ensures { result.now ≡ spec.head_text }
{
    "report 1\n"
}

/// The lines of a report, of which each is written whole or not at all: after want of memory they are as before.
#[derive(Drop)]
pub struct Printout {
    text: String,
    line: String,
}

impl Model for Printout {
    ghost use Rattle.std.specs.Prelude.{ℕ, List, string_bytes};

    ghost Value = { List ℕ };

    ghost view = { λ a. string_bytes a.text };
}

impl Printout {
    /// No line yet.
    pub fn new(alloc: Global) -> Printout
        ensures { result ≡ [] }
    {
        Printout {
            text: String::new(alloc),
            line: String::new(alloc),
        }
    }

    /// The lines.
    pub fn as_bytes(&self) -> &[u8]
        ensures { result.now ≡ self.now }
    {
        self.text.as_bytes()
    }

    /// The lines, as one text.
    pub fn into_string(self) -> String
        ensures { string_bytes result ≡ self }
    {
        self.text
    }

    /// Takes all lines away, as after they were handed on. Their memory is kept for further ones.
    pub fn clear(&mut self)
        ensures { self.new ≡ [] }
    {
        self.text.clear();
    }

    /// Writes the first line, `report 1`.
    pub fn write_head(&mut self) -> Result<(), NoMemory>
        ensures written { OnOk result (self.new ≡ self.old ++ spec.head_text) }
        ensures unwritten { OnErr result (self.new ≡ self.old) }
    {
        Ok(self.text.push_str(head_text())?)
    }

    /// Writes the line of an item.
    pub fn write_item(&mut self, item: &Item) -> Result<(), NoMemory>
        ensures written { OnOk result (self.new ≡ self.old ++ items.item_text item.now) }
        ensures fits { OnOk result (report_values.FitsItem item.now) }
        ensures unwritten { OnErr result (self.new ≡ self.old) }
    {
        self.line.clear();
        write_item_line(&mut self.line, item)?;
        add_line(&mut self.text, &mut self.line)
    }

    /// Writes the line in front of the lines of a history of `count` entries, `history L`.
    pub fn write_history(&mut self, count: u64) -> Result<(), NoMemory>
        ensures written { OnOk result (self.new ≡ self.old ++ (call_lines.one_operand (codes "history") (decimal count) ++ (10 ∷ []))) }
        ensures unwritten { OnErr result (self.new ≡ self.old) }
    {
        self.line.clear();
        one_operand(&mut self.line, "history", count)?;
        add_line(&mut self.text, &mut self.line)
    }

    /// Writes the line of the time and the act at a place of the history.
    pub fn write_act(&mut self, place: u64, time: u64, act: &Act) -> Result<(), NoMemory>
        ensures written { OnOk result (self.new ≡ self.old ++ (spec.act_line place (time, act.now) ++ (10 ∷ []))) }
        ensures fits { OnOk result (report_values.FitsHistoryEntry (time, act.now)) }
        ensures unwritten { OnErr result (self.new ≡ self.old) }
    {
        self.line.clear();
        write_act_line(&mut self.line, place, time, act)?;
        add_line(&mut self.text, &mut self.line)
    }

    /// Writes the line of a call without an outcome.
    pub fn write_waiting(&mut self, session: u64, number: u64) -> Result<(), NoMemory>
        ensures written { OnOk result (self.new ≡ self.old ++ (items.waiting_line (session, number) ++ (10 ∷ []))) }
        ensures fits { OnOk result (report_values.FitsCallNumber (session, number)) }
        ensures unwritten { OnErr result (self.new ≡ self.old) }
    {
        self.line.clear();
        write_waiting_line(&mut self.line, session, number)?;
        add_line(&mut self.text, &mut self.line)
    }

    /// Writes the line of a caller's call, `caller I N OUTCOME`. `number` is the number of the call in the session.
    pub fn write_caller(
        &mut self,
        caller: u8,
        number: u64,
        outcome: &Outcome,
    ) -> Result<(), NoMemory>
        requires { outcome.now ≢ Outcome.Stopped }
        ensures written { OnOk result (self.new ≡ self.old ++ spec.caller_text caller number outcome.now) }
        ensures fits { OnOk result (report_values.FitsOutcome outcome.now) }
        ensures unwritten { OnErr result (self.new ≡ self.old) }
    {
        self.line.clear();
        two_operands(&mut self.line, "caller", caller, number)?;
        blank(&mut self.line)?;
        write_outcome(&mut self.line, outcome)?;
        add_line(&mut self.text, &mut self.line)
    }

    /// Writes the line of an event that a feed's listener heard, `feed F C KIND S P EVENT`.
    pub fn write_feed(
        &mut self,
        feed: u8,
        client: ClientId,
        kind: WatchKind,
        session: u64,
        place: u64,
        event: &Event,
    ) -> Result<(), NoMemory>
        ensures written { OnOk result (self.new ≡ self.old ++ spec.feed_text feed client kind session place event.now) }
        ensures fits { OnOk result (ranges.FitsEvent event.now) }
        ensures unwritten { OnErr result (self.new ≡ self.old) }
    {
        self.line.clear();
        three_operands(&mut self.line, "feed", feed, client, watch_text(kind))?;
        write_told(&mut self.line, session, place, event)?;
        add_line(&mut self.text, &mut self.line)
    }

    /// Writes the last line, `end done` or `end step-limit LINE`.
    pub fn write_end(&mut self, end: RunEnd) -> Result<(), NoMemory>
        ensures written { OnOk result (self.new ≡ self.old ++ spec.end_text end) }
        ensures fits { OnOk result (report_values.FitsRunEnd end) }
        ensures unwritten { OnErr result (self.new ≡ self.old) }
    {
        self.line.clear();
        word(&mut self.line, "end ")?;
        write_end_word(&mut self.line, end)?;
        add_line(&mut self.text, &mut self.line)
    }
}

/// Adds a line and its newline to a text, or nothing.
fn add_line(text: &mut String, line: &mut String) -> Result<(), NoMemory>
    ensures added { OnOk result (string_bytes text.new ≡ string_bytes text.old ++ (string_bytes line.old ++ (10 ∷ []))) }
    ensures unadded { OnErr result (string_bytes text.new ≡ string_bytes text.old) }
{
    line.push_str("\n")?;
    Ok(text.push_str(line.as_str())?)
}
