ghost use Rattle.std.specs.Prelude.{◌≡◌, OnOk, string_bytes, ◌++◌, codes};
ghost use Rattle.std.specs.List.{AllByRecursion};
ghost use Rattle.spec_report.specs.Replies as spec;
ghost use Rattle.spec_wire.specs.Ranges as ranges;

use crate::pieces::{blank, one_operand, three_operands, two_operands, word};
use ax_types::{Event, How, NoMemory, Reply};

/// `members` and each session after a blank.
fn write_members(line: &mut String, sessions: &[u64]) -> Result<(), NoMemory>
    ensures written { OnOk result (string_bytes line.new ≡ string_bytes line.old ++ (codes "members" ++ spec.numbers_text sessions.now)) }
    ensures fits { OnOk result (AllByRecursion ranges.IsNumber sessions.now) }
{
    word(line, "members")?;
    'sessions: for session in sessions {
        one_operand(line, "", *session)?;
    }
    Ok(())
}

/// The words of a reply.
pub fn write_reply(line: &mut String, reply: &Reply) -> Result<(), NoMemory>
    ensures written { OnOk result (string_bytes line.new ≡ string_bytes line.old ++ spec.reply_text reply.now) }
    ensures fits { OnOk result (ranges.FitsReply reply.now) }
{
    match reply {
        Reply::Done => word(line, "done"),
        Reply::Nothing => word(line, "none"),
        Reply::Found(text) => one_operand(line, "some", text.as_str()),
        Reply::Yes => word(line, "true"),
        Reply::No => word(line, "false"),
        Reply::Number(number) => one_operand(line, "number", *number),
        Reply::Fence(place) => one_operand(line, "fence", *place),
        Reply::Holder { session, fence } => two_operands(line, "holder", *session, *fence),
        Reply::Leader { session, term } => two_operands(line, "leader", *session, *term),
        Reply::Members(sessions) => write_members(line, sessions.as_slice()),
        Reply::Busy => word(line, "busy"),
        Reply::Already => word(line, "already"),
        Reply::NotHolder => word(line, "not-holder"),
        Reply::NotMember => word(line, "not-member"),
        Reply::Overflow => word(line, "overflow"),
        Reply::Full => word(line, "full"),
        Reply::WrongKind => word(line, "wrong-kind"),
    }
}

/// The words of an event.
pub fn write_event(line: &mut String, event: &Event) -> Result<(), NoMemory>
    ensures written { OnOk result (string_bytes line.new ≡ string_bytes line.old ++ spec.event_text event.now) }
    ensures fits { OnOk result (ranges.FitsEvent event.now) }
{
    match event {
        Event::Changed { name, key, text } => three_operands(
            line,
            "changed",
            name.as_str(),
            key.as_str(),
            text.as_str(),
        ),
        Event::Removed { name, key } => two_operands(line, "removed", name.as_str(), key.as_str()),
        Event::Set { name, text } => two_operands(line, "set", name.as_str(), text.as_str()),
        Event::Cleared { name } => one_operand(line, "cleared", name.as_str()),
        Event::Granted { name, fence } => two_operands(line, "granted", name.as_str(), *fence),
        Event::Joined { name, session } => two_operands(line, "joined", name.as_str(), *session),
        Event::Left { name, session } => two_operands(line, "left", name.as_str(), *session),
        Event::Elected {
            name,
            session,
            term,
        } => three_operands(line, "elected", name.as_str(), *session, *term),
        Event::Message { name, text } => two_operands(
            line,
            "message",
            name.as_str(),
            text.as_str(),
        ),
    }
}

/// How many events there are, and each event after a blank.
pub fn write_counted_events(line: &mut String, events: &[Event]) -> Result<(), NoMemory>
    ensures written { OnOk result (string_bytes line.new ≡ string_bytes line.old ++ spec.counted_events_text events.now) }
    ensures fits { OnOk result (AllByRecursion ranges.FitsEvent events.now) }
{
    let count = events.len();
    write!(line, "{count}")?;
    'events: for event in events {
        blank(line)?;
        write_event(line, event)?;
    }
    Ok(())
}

/// `closed` or `expired`.
pub fn how_text(how: How) -> &'static str
    ensures { result.now ≡ spec.how_text how }
{
    match how {
        How::Closed => "closed",
        How::Expired => "expired",
    }
}
