ghost use Rattle.std.specs.Prelude.{◌≡◌, ◌<◌, ◌^◌, [], ◌∷◌, ◌++◌, OnOk, IsTrue, length};
ghost use Rattle.std.specs.List.{AllByRecursion, flat_map};
ghost use Rattle.spec_wire.specs.NumberBytes as number_bytes;
ghost use Rattle.spec_wire.specs.OperationBytes as operation_bytes;
ghost use Rattle.spec_wire.specs.Spelling as spelling;
ghost use Rattle.spec_wire.specs.Ranges as ranges;

use super::numbers::{put_i64, put_one_number, put_two_numbers, put_u32, put_u64};
use super::texts::{put_key, put_name, put_one_text, put_text};
use ax_types::{Event, Key, List, Name, NoMemory, Reply, Text};

/// Each of these numbers, in eight bytes.
fn put_numbers(out: &mut Vec<u8>, numbers: &[u64]) -> Result<(), NoMemory>
    ensures bytes { OnOk result (out.new.items ≡ out.old.items ++ flat_map number_bytes.u64_bytes numbers.now) }
    ensures fits { OnOk result (AllByRecursion ranges.IsNumber numbers.now) }
{
    'numbers: for number in numbers {
        put_u64(out, *number)?;
    }
    Ok(())
}

/// The sessions of a group: their count in four bytes, and each.
fn put_members(out: &mut Vec<u8>, sessions: &List<u64>) -> Result<(), NoMemory>
    requires { length sessions.now < 2 ^ 32 }
    ensures bytes { OnOk result (out.new.items ≡ out.old.items ++ 9 ∷ operation_bytes.members_bytes sessions.now) }
    ensures fits { OnOk result (AllByRecursion ranges.IsNumber sessions.now) }
{
    out.push(9)?;
    put_u32(out, sessions.len() as u32)?;
    put_numbers(out, sessions.as_slice())
}

/// A kind, and a signed number.
fn put_signed(out: &mut Vec<u8>, kind: u8, number: i64) -> Result<(), NoMemory>
    ensures { OnOk result (out.new.items ≡ out.old.items ++ kind ∷ number_bytes.i64_bytes number) }
{
    out.push(kind)?;
    put_i64(out, number)
}

/// A reply: its number and its fields.
pub(super) fn put_reply(out: &mut Vec<u8>, reply: &Reply) -> Result<(), NoMemory>
    requires { IsTrue (spelling.reply_is_spelled reply.now) }
    ensures bytes { OnOk result (out.new.items ≡ out.old.items ++ operation_bytes.reply_bytes reply.now) }
    ensures fits { OnOk result (ranges.FitsReply reply.now) }
{
    match reply {
        Reply::Done => Ok(out.push(0)?),
        Reply::Nothing => Ok(out.push(1)?),
        Reply::Found(text) => put_one_text(out, 2, text),
        Reply::Yes => Ok(out.push(3)?),
        Reply::No => Ok(out.push(4)?),
        Reply::Number(number) => put_signed(out, 5, *number),
        Reply::Fence(place) => put_one_number(out, 6, *place),
        Reply::Holder { session, fence } => put_two_numbers(out, 7, *session, *fence),
        Reply::Leader { session, term } => put_two_numbers(out, 8, *session, *term),
        Reply::Members(sessions) => put_members(out, sessions),
        Reply::Busy => Ok(out.push(10)?),
        Reply::Already => Ok(out.push(11)?),
        Reply::NotHolder => Ok(out.push(12)?),
        Reply::NotMember => Ok(out.push(13)?),
        Reply::Overflow => Ok(out.push(14)?),
        Reply::Full => Ok(out.push(15)?),
        Reply::WrongKind => Ok(out.push(16)?),
    }
}

/// A number, and the name of a resource.
fn put_one_name(out: &mut Vec<u8>, number: u8, name: &Name) -> Result<(), NoMemory>
    ensures bytes { OnOk result (out.new.items ≡ out.old.items ++ number ∷ number_bytes.counted_bytes name.now) }
    ensures fits { OnOk result (ranges.IsName name.now) }
{
    out.push(number)?;
    put_name(out, name)
}

/// A number, a name and a key.
fn put_name_and_key(out: &mut Vec<u8>, number: u8, name: &Name, key: &Key) -> Result<(), NoMemory>
    ensures bytes { OnOk result (out.new.items ≡ out.old.items ++ number ∷ number_bytes.counted_bytes name.now ++ number_bytes.counted_bytes key.now) }
    ensures fits { OnOk result (ranges.IsName name.now × ranges.IsName key.now) }
{
    out.push(number)?;
    put_name(out, name)?;
    put_key(out, key)
}

/// A number, a name and a text.
fn put_name_and_text(
    out: &mut Vec<u8>,
    number: u8,
    name: &Name,
    text: &Text,
) -> Result<(), NoMemory>
    ensures bytes { OnOk result (out.new.items ≡ out.old.items ++ number ∷ number_bytes.counted_bytes name.now ++ number_bytes.counted_bytes text.now) }
    ensures fits { OnOk result (ranges.IsName name.now × ranges.IsText text.now) }
{
    out.push(number)?;
    put_name(out, name)?;
    put_text(out, text)
}

/// A number, a name and another number.
fn put_name_and_number(out: &mut Vec<u8>, number: u8, name: &Name, a: u64) -> Result<(), NoMemory>
    ensures bytes { OnOk result (out.new.items ≡ out.old.items ++ number ∷ number_bytes.counted_bytes name.now ++ number_bytes.u64_bytes a) }
    ensures fits { OnOk result (ranges.IsName name.now) }
{
    out.push(number)?;
    put_name(out, name)?;
    put_u64(out, a)
}

fn put_changed(out: &mut Vec<u8>, name: &Name, key: &Key, text: &Text) -> Result<(), NoMemory>
    ensures bytes { OnOk result (out.new.items ≡ out.old.items ++ 1 ∷ number_bytes.counted_bytes name.now ++ number_bytes.counted_bytes key.now ++ number_bytes.counted_bytes text.now) }
    ensures fits { OnOk result (ranges.IsName name.now × ranges.IsName key.now × ranges.IsText text.now) }
{
    out.push(1)?;
    put_name(out, name)?;
    put_key(out, key)?;
    put_text(out, text)
}

fn put_elected(out: &mut Vec<u8>, name: &Name, session: u64, term: u64) -> Result<(), NoMemory>
    ensures bytes { OnOk result (out.new.items ≡ out.old.items ++ 8 ∷ number_bytes.counted_bytes name.now ++ number_bytes.u64_bytes session ++ number_bytes.u64_bytes term) }
    ensures fits { OnOk result (ranges.IsName name.now) }
{
    out.push(8)?;
    put_name(out, name)?;
    put_u64(out, session)?;
    put_u64(out, term)
}

/// An event: its number, the name of its resource, and its other fields.
pub(super) fn put_event(out: &mut Vec<u8>, event: &Event) -> Result<(), NoMemory>
    ensures bytes { OnOk result (out.new.items ≡ out.old.items ++ operation_bytes.event_bytes event.now) }
    ensures fits { OnOk result (ranges.FitsEvent event.now) }
{
    match event {
        Event::Changed { name, key, text } => put_changed(out, name, key, text),
        Event::Removed { name, key } => put_name_and_key(out, 2, name, key),
        Event::Set { name, text } => put_name_and_text(out, 3, name, text),
        Event::Cleared { name } => put_one_name(out, 4, name),
        Event::Granted { name, fence } => put_name_and_number(out, 5, name, *fence),
        Event::Joined { name, session } => put_name_and_number(out, 6, name, *session),
        Event::Left { name, session } => put_name_and_number(out, 7, name, *session),
        Event::Elected {
            name,
            session,
            term,
        } => put_elected(out, name, *session, *term),
        Event::Message { name, text } => put_name_and_text(out, 9, name, text),
    }
}
