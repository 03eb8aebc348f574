ghost use Rattle.std.specs.Prelude.{◌≡◌, ◌≤◌, ◌<◌, ◌^◌, [], ◌∷◌, ◌++◌, OnOk, IsTrue, length};
ghost use Rattle.std.specs.List.{AllByRecursion, flat_map};
ghost use Rattle.spec_wire.specs.NumberBytes as number_bytes;
ghost use Rattle.spec_wire.specs.OperationBytes as operation_bytes;
ghost use Rattle.spec_wire.specs.Spelling as spelling;
ghost use Rattle.spec_wire.specs.Ranges as ranges;

use super::entries::{put_command, put_entry, put_keep};
use super::numbers::{put_client_and_number, put_truth, put_two_numbers, put_u32, put_u64};
use super::queries::put_query;
use super::replies::{put_event, put_reply};
use super::texts::put_name;
use ax_types::{ClientId, Entry, Event, How, Level, List, Name, NoMemory, Payload, Query, Reply};

fn level_byte(level: Level) -> u8
    ensures { spelling.level_bytes level ≡ result ∷ [] }
{
    match level {
        Level::Seq => 0,
        Level::Lin => 1,
    }
}

fn how_byte(how: How) -> u8
    ensures { spelling.how_bytes how ≡ result ∷ [] }
{
    match how {
        How::Closed => 0,
        How::Expired => 1,
    }
}

/// Each of these entries.
fn put_each_entry(out: &mut Vec<u8>, entries: &[Entry]) -> Result<(), NoMemory>
    ensures bytes { OnOk result (out.new.items ≡ out.old.items ++ flat_map spelling.entry_bytes entries.now) }
    ensures fits { OnOk result (AllByRecursion ranges.FitsEntry entries.now) }
{
    'entries: for entry in entries {
        put_entry(out, entry)?;
    }
    Ok(())
}

/// The count of the entries in one byte, and each.
fn put_entries(out: &mut Vec<u8>, entries: &List<Entry>) -> Result<(), NoMemory>
    requires { length entries.now < 256 }
    ensures bytes { OnOk result (out.new.items ≡ out.old.items ++ spelling.entries_bytes entries.now) }
    ensures fits { OnOk result (AllByRecursion ranges.FitsEntry entries.now) }
{
    out.push(entries.len() as u8)?;
    put_each_entry(out, entries.as_slice())
}

/// Each of these events.
fn put_each_event(out: &mut Vec<u8>, events: &[Event]) -> Result<(), NoMemory>
    ensures bytes { OnOk result (out.new.items ≡ out.old.items ++ flat_map operation_bytes.event_bytes events.now) }
    ensures fits { OnOk result (AllByRecursion ranges.FitsEvent events.now) }
{
    'events: for event in events {
        put_event(out, event)?;
    }
    Ok(())
}

/// The count of the events in four bytes, and each.
fn put_events(out: &mut Vec<u8>, events: &List<Event>) -> Result<(), NoMemory>
    requires { length events.now < 2 ^ 32 }
    ensures bytes { OnOk result (out.new.items ≡ out.old.items ++ spelling.events_bytes events.now) }
    ensures fits { OnOk result (AllByRecursion ranges.FitsEvent events.now) }
{
    put_u32(out, events.len() as u32)?;
    put_each_event(out, events.as_slice())
}

fn put_vote(out: &mut Vec<u8>, term: u64, last: u64, last_term: u64) -> Result<(), NoMemory>
    ensures { OnOk result (out.new.items ≡ out.old.items ++ 1 ∷ number_bytes.u64_bytes term ++ number_bytes.u64_bytes last ++ number_bytes.u64_bytes last_term) }
{
    out.push(1)?;
    put_u64(out, term)?;
    put_u64(out, last)?;
    put_u64(out, last_term)
}

fn put_vote_reply(out: &mut Vec<u8>, term: u64, granted: bool) -> Result<(), NoMemory>
    ensures { OnOk result (out.new.items ≡ out.old.items ++ 2 ∷ number_bytes.u64_bytes term ++ number_bytes.truth_bytes granted) }
{
    out.push(2)?;
    put_u64(out, term)?;
    put_truth(out, granted)
}

fn put_append(
    out: &mut Vec<u8>,
    term: u64,
    prev: u64,
    prev_term: u64,
    commit: u64,
    round: u64,
    entries: &List<Entry>,
) -> Result<(), NoMemory>
    requires { length entries.now < 256 }
    ensures bytes { OnOk result (out.new.items ≡ out.old.items ++ 3 ∷ number_bytes.u64_bytes term ++ number_bytes.u64_bytes prev ++ number_bytes.u64_bytes prev_term ++ number_bytes.u64_bytes commit ++ number_bytes.u64_bytes round ++ spelling.entries_bytes entries.now) }
    ensures fits { OnOk result (AllByRecursion ranges.FitsEntry entries.now) }
{
    out.push(3)?;
    put_u64(out, term)?;
    put_u64(out, prev)?;
    put_u64(out, prev_term)?;
    put_u64(out, commit)?;
    put_u64(out, round)?;
    put_entries(out, entries)
}

fn put_append_reply(
    out: &mut Vec<u8>,
    term: u64,
    ok: bool,
    place: u64,
    round: u64,
) -> Result<(), NoMemory>
    ensures { OnOk result (out.new.items ≡ out.old.items ++ 4 ∷ number_bytes.u64_bytes term ++ number_bytes.truth_bytes ok ++ number_bytes.u64_bytes place ++ number_bytes.u64_bytes round) }
{
    out.push(4)?;
    put_u64(out, term)?;
    put_truth(out, ok)?;
    put_u64(out, place)?;
    put_u64(out, round)
}

/// A kind, a client and two numbers.
fn put_client_and_two(
    out: &mut Vec<u8>,
    kind: u8,
    client: ClientId,
    a: u64,
    b: u64,
) -> Result<(), NoMemory>
    ensures bytes { OnOk result (out.new.items ≡ out.old.items ++ kind ∷ client ∷ number_bytes.u64_bytes a ++ number_bytes.u64_bytes b) }
    ensures fits { OnOk result (ranges.IsClient client) }
{
    put_client_and_number(out, kind, client, a)?;
    put_u64(out, b)
}

/// The fields of a query payload before its name.
fn put_query_numbers(
    out: &mut Vec<u8>,
    client: ClientId,
    session: u64,
    call: u64,
    level: Level,
    seen: u64,
    seq: u64,
) -> Result<(), NoMemory>
    ensures bytes { OnOk result (out.new.items ≡ out.old.items ++ 9 ∷ client ∷ number_bytes.u64_bytes session ++ number_bytes.u64_bytes call ++ spelling.level_bytes level ++ number_bytes.u64_bytes seen ++ number_bytes.u64_bytes seq) }
    ensures fits { OnOk result (ranges.IsClient client) }
{
    put_client_and_two(out, 9, client, session, call)?;
    out.push(level_byte(level))?;
    put_u64(out, seen)?;
    put_u64(out, seq)
}

fn put_name_and_query(out: &mut Vec<u8>, name: &Name, query: &Query) -> Result<(), NoMemory>
    ensures bytes { OnOk result (out.new.items ≡ out.old.items ++ number_bytes.counted_bytes name.now ++ operation_bytes.query_bytes query.now) }
    ensures fits { OnOk result (ranges.IsName name.now × ranges.FitsQuery query.now) }
{
    put_name(out, name)?;
    put_query(out, query)
}

fn put_reply_payload(
    out: &mut Vec<u8>,
    session: u64,
    seq: u64,
    place: u64,
    events: u64,
    reply: &Reply,
) -> Result<(), NoMemory>
    requires { IsTrue (spelling.reply_is_spelled reply.now) }
    ensures bytes { OnOk result (out.new.items ≡ out.old.items ++ 13 ∷ number_bytes.u64_bytes session ++ number_bytes.u64_bytes seq ++ number_bytes.u64_bytes place ++ number_bytes.u64_bytes events ++ operation_bytes.reply_bytes reply.now) }
    ensures fits { OnOk result (ranges.FitsReply reply.now) }
{
    put_two_numbers(out, 13, session, seq)?;
    put_u64(out, place)?;
    put_u64(out, events)?;
    put_reply(out, reply)
}

/// The fields of an answer before its reply.
fn put_answer_numbers(
    out: &mut Vec<u8>,
    session: u64,
    call: u64,
    level: Level,
    place: u64,
    events: u64,
    term: u64,
    arrival: u64,
) -> Result<(), NoMemory>
    ensures { OnOk result (out.new.items ≡ out.old.items ++ 15 ∷ number_bytes.u64_bytes session ++ number_bytes.u64_bytes call ++ spelling.level_bytes level ++ number_bytes.u64_bytes place ++ number_bytes.u64_bytes events ++ number_bytes.u64_bytes term ++ number_bytes.u64_bytes arrival) }
{
    put_two_numbers(out, 15, session, call)?;
    out.push(level_byte(level))?;
    put_u64(out, place)?;
    put_u64(out, events)?;
    put_u64(out, term)?;
    put_u64(out, arrival)
}

fn put_batch(
    out: &mut Vec<u8>,
    session: u64,
    place: u64,
    prev: u64,
    events: &List<Event>,
) -> Result<(), NoMemory>
    requires { length events.now < 2 ^ 32 }
    ensures bytes { OnOk result (out.new.items ≡ out.old.items ++ 16 ∷ number_bytes.u64_bytes session ++ number_bytes.u64_bytes place ++ number_bytes.u64_bytes prev ++ spelling.events_bytes events.now) }
    ensures fits { OnOk result (AllByRecursion ranges.FitsEvent events.now) }
{
    put_two_numbers(out, 16, session, place)?;
    put_u64(out, prev)?;
    put_events(out, events)
}

fn put_ended(out: &mut Vec<u8>, session: u64, place: u64, how: How) -> Result<(), NoMemory>
    ensures { OnOk result (out.new.items ≡ out.old.items ++ 17 ∷ number_bytes.u64_bytes session ++ number_bytes.u64_bytes place ++ spelling.how_bytes how) }
{
    put_two_numbers(out, 17, session, place)?;
    out.push(how_byte(how))?;
    Ok(())
}

/// Appends the spelling of a payload: its number and its fields.
pub fn put_payload(out: &mut Vec<u8>, payload: &Payload) -> Result<(), NoMemory>
    requires { IsTrue (spelling.is_spelled payload.now) }
    ensures bytes { OnOk result (out.new.items ≡ out.old.items ++ spelling.payload_bytes payload.now) }
    ensures fits { OnOk result (ranges.FitsPayload payload.now) }
{
    match payload {
        Payload::Vote {
            term,
            last,
            last_term,
        } => put_vote(out, *term, *last, *last_term),
        Payload::VoteReply { term, granted } => put_vote_reply(out, *term, *granted),
        Payload::Append {
            term,
            prev,
            prev_term,
            commit,
            round,
            entries,
        } => put_append(out, *term, *prev, *prev_term, *commit, *round, entries),
        Payload::AppendReply {
            term,
            ok,
            place,
            round,
        } => put_append_reply(out, *term, *ok, *place, *round),
        Payload::Register { client, opening } => put_client_and_number(out, 5, *client, *opening),
        Payload::Keep {
            client,
            session,
            answered,
            heard,
        } => put_keep(out, 6, *client, *session, *answered, *heard),
        Payload::Command {
            client,
            session,
            seq,
            name,
            op,
        } => put_command(out, 7, *client, *session, *seq, name, op),
        Payload::Close { client, session } => put_client_and_number(out, 8, *client, *session),
        Payload::Query {
            client,
            session,
            call,
            level,
            seen,
            seq,
            name,
            query,
        } => {
            put_query_numbers(out, *client, *session, *call, *level, *seen, *seq)?;
            put_name_and_query(out, name, query)
        }
        Payload::Connect {
            client,
            session,
            heard,
        } => put_client_and_two(out, 10, *client, *session, *heard),
        Payload::Reset {
            client,
            session,
            heard,
        } => put_client_and_two(out, 11, *client, *session, *heard),
        Payload::Opened { opening, session } => put_two_numbers(out, 12, *opening, *session),
        Payload::Reply {
            session,
            seq,
            place,
            events,
            reply,
        } => put_reply_payload(out, *session, *seq, *place, *events, reply),
        Payload::Gap { session, last } => put_two_numbers(out, 14, *session, *last),
        Payload::Answer {
            session,
            call,
            level,
            place,
            events,
            term,
            arrival,
            reply,
        } => {
            put_answer_numbers(
                out, *session, *call, *level, *place, *events, *term, *arrival,
            )?;
            put_reply(out, reply)
        }
        Payload::Batch {
            session,
            place,
            prev,
            events,
        } => put_batch(out, *session, *place, *prev, events),
        Payload::Ended {
            session,
            place,
            how,
        } => put_ended(out, *session, *place, *how),
    }
}
