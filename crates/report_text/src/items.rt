ghost use Rattle.std.specs.Prelude.{◌≡◌, OnOk, string_bytes, ◌++◌, []};
ghost use Rattle.ax_types.specs.Ends as ends;
ghost use Rattle.spec_report.specs.CallLines as call_lines;
ghost use Rattle.spec_report.specs.Items as spec;
ghost use Rattle.spec_report.specs.ReportValues as report_values;
ghost use Rattle.spec_wire.specs.Ranges as ranges;

use crate::calls::{level_text, write_call};
use crate::pieces::{blank, one_operand, three_operands, two_operands, word};
use crate::replies::{how_text, write_counted_events, write_event, write_reply};
use ax_types::{End, Event, Item, Level, NoMemory, PayloadKind, Reply, SkipReason, WatchKind};

fn payload_kind_text(kind: PayloadKind) -> &'static str
    ensures { result.now ≡ spec.payload_kind_text kind }
{
    match kind {
        PayloadKind::Vote => "Vote",
        PayloadKind::VoteReply => "VoteReply",
        PayloadKind::Append => "Append",
        PayloadKind::AppendReply => "AppendReply",
        PayloadKind::Register => "Register",
        PayloadKind::Keep => "Keep",
        PayloadKind::Command => "Command",
        PayloadKind::Close => "Close",
        PayloadKind::Query => "Query",
        PayloadKind::Connect => "Connect",
        PayloadKind::Reset => "Reset",
        PayloadKind::Opened => "Opened",
        PayloadKind::Reply => "Reply",
        PayloadKind::Gap => "Gap",
        PayloadKind::Answer => "Answer",
        PayloadKind::Batch => "Batch",
        PayloadKind::Ended => "Ended",
    }
}

/// `all`, `changes` or `grants`.
pub fn watch_text(kind: WatchKind) -> &'static str
    ensures { result.now ≡ spec.watch_text kind }
{
    match kind {
        WatchKind::All => "all",
        WatchKind::Changes => "changes",
        WatchKind::Grants => "grants",
    }
}

fn write_skip_reason(line: &mut String, reason: SkipReason) -> Result<(), NoMemory>
    ensures written { OnOk result (string_bytes line.new ≡ string_bytes line.old ++ spec.skip_text reason) }
    ensures fits { OnOk result (report_values.FitsSkip reason) }
{
    match reason {
        SkipReason::NodeDown => word(line, "node-down"),
        SkipReason::IsLeader => word(line, "is-leader"),
        SkipReason::NotLeader => word(line, "not-leader"),
        SkipReason::NodeUp => word(line, "node-up"),
        SkipReason::NeverSent => word(line, "never-sent"),
        SkipReason::Gone => word(line, "gone"),
        SkipReason::Cut => word(line, "cut"),
        SkipReason::SessionOpen => word(line, "session-open"),
        SkipReason::NoSession => word(line, "no-session"),
        SkipReason::WindowFull => word(line, "window-full"),
        SkipReason::Busy { unanswered } => one_operand(line, "busy", unanswered),
        SkipReason::Watched => word(line, "watched"),
    }
}

/// The arrival of a linearizable query at the leader of a term: `TERM.A`.
fn write_arrival(line: &mut String, term: u64, arrival: u64) -> Result<(), NoMemory>
    ensures { OnOk result (string_bytes line.new ≡ string_bytes line.old ++ spec.arrival_text term arrival) }
{
    Ok(write!(line, "{term}.{arrival}")?)
}

/// `TERM.A`, or `-` where there is none.
fn write_reach(line: &mut String, reach: Option<(u64, u64)>) -> Result<(), NoMemory>
    ensures written { OnOk result (string_bytes line.new ≡ string_bytes line.old ++ spec.reach_text reach) }
    ensures fits { OnOk result (report_values.FitsReach reach) }
{
    match reach {
        None => word(line, "-"),
        Some((term, arrival)) => write_arrival(line, term, arrival),
    }
}

/// `nK` or `cC`.
fn write_link_end(line: &mut String, end: End) -> Result<(), NoMemory>
    ensures written { OnOk result (string_bytes line.new ≡ string_bytes line.old ++ ends.link_end_text end) }
    ensures fits { OnOk result (report_values.FitsEnd end) }
{
    match end {
        End::Node(node) => {
            let number = node.number();
            Ok(write!(line, "n{number}")?)
        }
        End::Client(client) => {
            let number = client.number();
            Ok(write!(line, "c{number}")?)
        }
    }
}

/// ` FROM TO`, behind a word: the ends of a packet's way.
fn write_way(line: &mut String, from: End, to: End) -> Result<(), NoMemory>
    ensures written { OnOk result (string_bytes line.new
        ≡ string_bytes line.old ++ call_lines.two_operands [] (ends.link_end_text from) (ends.link_end_text to)) }
    ensures fits { OnOk result (report_values.FitsEnd from × report_values.FitsEnd to) }
{
    blank(line)?;
    write_link_end(line, from)?;
    blank(line)?;
    write_link_end(line, to)
}

/// ` LEVEL P REACH REPLY`, behind a word.
pub fn write_read(
    line: &mut String,
    level: Level,
    place: u64,
    reach: Option<(u64, u64)>,
    reply: &Reply,
) -> Result<(), NoMemory>
    ensures written { OnOk result (string_bytes line.new ≡ string_bytes line.old ++ spec.read_text [] level place reach reply.now) }
    ensures fits { OnOk result (report_values.FitsReach reach × ranges.FitsReply reply.now) }
{
    two_operands(line, "", level_text(level), place)?;
    blank(line)?;
    write_reach(line, reach)?;
    blank(line)?;
    write_reply(line, reply)
}

/// ` S P EVENT`, behind a word.
pub fn write_told(
    line: &mut String,
    session: u64,
    place: u64,
    event: &Event,
) -> Result<(), NoMemory>
    ensures written { OnOk result (string_bytes line.new ≡ string_bytes line.old ++ spec.told_text [] session place event.now) }
    ensures fits { OnOk result (ranges.FitsEvent event.now) }
{
    two_operands(line, "", session, place)?;
    blank(line)?;
    write_event(line, event)
}

/// The line of an item, without its newline.
pub fn write_item_line(line: &mut String, item: &Item) -> Result<(), NoMemory>
    ensures written { OnOk result (string_bytes line.new ≡ string_bytes line.old ++ spec.item_line item.now) }
    ensures fits { OnOk result (report_values.FitsItem item.now) }
{
    match item {
        Item::Leader { node, term } => two_operands(line, "leader", node.number(), *term),
        Item::Commit { place } => one_operand(line, "commit", *place),
        Item::Reach {
            node,
            term,
            arrival,
            session,
            number,
        } => {
            one_operand(line, "reach", node.number())?;
            blank(line)?;
            write_arrival(line, *term, *arrival)?;
            two_operands(line, "", *session, *number)
        }
        Item::Halted { node } => one_operand(line, "halted", node.number()),
        Item::Opened { session, client } => two_operands(line, "opened", *session, client.number()),
        Item::Called {
            session,
            number,
            call,
        } => {
            two_operands(line, "called", *session, *number)?;
            blank(line)?;
            write_call(line, call)
        }
        Item::Event {
            session,
            place,
            prev,
            events,
        } => {
            three_operands(line, "event", *session, *place, *prev)?;
            blank(line)?;
            write_counted_events(line, events.as_slice())
        }
        Item::Watched {
            client,
            kind,
            session,
            place,
            event,
        } => {
            two_operands(line, "watch", client.number(), watch_text(*kind))?;
            write_told(line, *session, *place, event)
        }
        Item::Reply {
            session,
            number,
            place,
            reply,
        } => {
            three_operands(line, "reply", *session, *number, *place)?;
            blank(line)?;
            write_reply(line, reply)
        }
        Item::Read {
            session,
            number,
            level,
            place,
            reach,
            reply,
        } => {
            two_operands(line, "read", *session, *number)?;
            write_read(line, *level, *place, *reach, reply)
        }
        Item::Ended {
            session,
            place,
            how,
        } => three_operands(line, "ended", *session, *place, how_text(*how)),
        Item::Doubt { session, number } => two_operands(line, "doubt", *session, *number),
        Item::Lost { session, number } => two_operands(line, "lost", *session, *number),
        Item::Unsent { session, number } => two_operands(line, "unsent", *session, *number),
        Item::Unanswered { session, number } => two_operands(line, "unanswered", *session, *number),
        Item::Listed { count } => one_operand(line, "listed", *count),
        Item::Pending {
            number,
            from,
            to,
            kind,
        } => {
            one_operand(line, "pending", *number)?;
            write_way(line, *from, *to)?;
            one_operand(line, "", payload_kind_text(*kind))
        }
        Item::Skip { reason } => {
            word(line, "skip ")?;
            write_skip_reason(line, *reason)
        }
    }
}

/// `waiting S N`, without its newline.
pub fn write_waiting_line(line: &mut String, session: u64, number: u64) -> Result<(), NoMemory>
    ensures { OnOk result (string_bytes line.new ≡ string_bytes line.old ++ spec.waiting_line (session, number)) }
{
    two_operands(line, "waiting", session, number)
}
