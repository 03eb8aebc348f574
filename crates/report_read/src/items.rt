ghost use Rattle.std.specs.Prelude.{◌≡◌, IfOk};
ghost use Rattle.spec_text.specs.Words as spec_words;
ghost use Rattle.ax_types.specs.declared.items.Item.TheVariants as item;
ghost use Rattle.spec_script.specs.StepLines as step_lines;
ghost use Rattle.spec_report_read.specs.ItemWords as item_words;
ghost use Rattle.text_words.specs.Behind as behind;
ghost use Rattle.report_read.specs.ReadAnswers as read_answers;

use crate::operands::{
    arrival, number64, only_number64, pair_of_numbers, three_numbers64, two_numbers64,
};
use crate::replies::{counted_events, event, reply};
use ax_types::limits::{MAX_CLIENTS, MAX_NODES};
use ax_types::{
    ClientId, End, Event, How, Item, Level, List, NoMemory, NodeId, PayloadKind, Reply, SkipReason,
    WatchKind, WindowCall,
};
use script_text::watch_kind;
use std::alloc::Global;
use text_words::{call, client, is, level, node};

/// `TERM.A` of a linearizable read, `-` of a sequential one.
fn reach(level: Level, word: &[u8]) -> Option<Option<(u64, u64)>>
    ensures { result ≡ item_words.reach_from level word.now }
{
    match level {
        Level::Seq => { if is(word, "-") { Some(None) } else { None } }
        Level::Lin => Some(Some(arrival(word)?)),
    }
}

fn level_and_reach(level_word: &[u8], word: &[u8]) -> Option<(Level, Option<(u64, u64)>)>
    ensures { result ≡ item_words.level_and_reach level_word.now word.now }
{
    let level = level(level_word)?;
    Some((level, reach(level, word)?))
}

fn how(word: &[u8]) -> Option<How>
    ensures { result ≡ item_words.how_from word.now }
{
    if is(word, "closed") {
        Some(How::Closed)
    } else if is(word, "expired") {
        Some(How::Expired)
    } else {
        None
    }
}

/// What nodes send one another.
fn node_kind(word: &[u8]) -> Option<PayloadKind>
    ensures { result ≡ item_words.node_kind_from word.now }
{
    if is(word, "Vote") {
        Some(PayloadKind::Vote)
    } else if is(word, "VoteReply") {
        Some(PayloadKind::VoteReply)
    } else if is(word, "Append") {
        Some(PayloadKind::Append)
    } else if is(word, "AppendReply") {
        Some(PayloadKind::AppendReply)
    } else {
        None
    }
}

/// What nodes send one another, and what a client sends.
fn request_kind(word: &[u8]) -> Option<PayloadKind>
    ensures { result ≡ item_words.request_kind_from word.now }
{
    if is(word, "Register") {
        Some(PayloadKind::Register)
    } else if is(word, "Keep") {
        Some(PayloadKind::Keep)
    } else if is(word, "Command") {
        Some(PayloadKind::Command)
    } else if is(word, "Close") {
        Some(PayloadKind::Close)
    } else if is(word, "Query") {
        Some(PayloadKind::Query)
    } else if is(word, "Connect") {
        Some(PayloadKind::Connect)
    } else if is(word, "Reset") {
        Some(PayloadKind::Reset)
    } else {
        node_kind(word)
    }
}

fn payload_kind(word: &[u8]) -> Option<PayloadKind>
    ensures { result ≡ item_words.payload_kind_from word.now }
{
    if is(word, "Opened") {
        Some(PayloadKind::Opened)
    } else if is(word, "Reply") {
        Some(PayloadKind::Reply)
    } else if is(word, "Gap") {
        Some(PayloadKind::Gap)
    } else if is(word, "Answer") {
        Some(PayloadKind::Answer)
    } else if is(word, "Batch") {
        Some(PayloadKind::Batch)
    } else if is(word, "Ended") {
        Some(PayloadKind::Ended)
    } else {
        request_kind(word)
    }
}

/// A reason that is one word.
fn plain_reason(word: &[u8]) -> Option<SkipReason>
    ensures { result ≡ item_words.plain_reason_from word.now }
{
    if is(word, "node-down") {
        Some(SkipReason::NodeDown)
    } else if is(word, "is-leader") {
        Some(SkipReason::IsLeader)
    } else if is(word, "not-leader") {
        Some(SkipReason::NotLeader)
    } else if is(word, "node-up") {
        Some(SkipReason::NodeUp)
    } else if is(word, "never-sent") {
        Some(SkipReason::NeverSent)
    } else if is(word, "gone") {
        Some(SkipReason::Gone)
    } else if is(word, "cut") {
        Some(SkipReason::Cut)
    } else if is(word, "session-open") {
        Some(SkipReason::SessionOpen)
    } else if is(word, "no-session") {
        Some(SkipReason::NoSession)
    } else if is(word, "window-full") {
        Some(SkipReason::WindowFull)
    } else if is(word, "watched") {
        Some(SkipReason::Watched)
    } else {
        None
    }
}

/// `busy N`.
fn busy(word: &[u8], count: &[u8]) -> Option<SkipReason>
    ensures { result ≡ item_words.busy_from word.now count.now }
{
    if is(word, "busy") {
        number64(count).map(|unanswered| SkipReason::Busy { unanswered })
    } else {
        None
    }
}

fn skip_reason(words: &[&[u8]]) -> Option<SkipReason>
    ensures { result ≡ item_words.skip_reason_from (behind.words_behind words.now) }
{
    match words {
        [word] => plain_reason(word),
        [word, count] => busy(word, count),
        _ => None,
    }
}

fn made_call(numbers: Option<(u64, u64)>, call: Option<WindowCall>) -> Option<Item>
    ensures { result ≡ spec_words.both (λ p c. item.Called p.0 p.1 c) numbers call }
{
    let (session, number) = numbers?;
    Some(Item::Called {
        session,
        number,
        call: call?,
    })
}

fn called(alloc: Global, words: &[&[u8]]) -> Result<Option<Item>, NoMemory>
    ensures { IfOk result (λ read. read ≡ item_words.called_item_from (behind.words_behind words.now)) }
{
    match words {
        [session, number, rest @ ..] => {
            let call = call(alloc, rest)?;
            Ok(made_call(pair_of_numbers(session, number), call))
        }
        _ => Ok(None),
    }
}

fn made_reply(numbers: Option<(u64, u64, u64)>, reply: Option<Reply>) -> Option<Item>
    ensures { result ≡ spec_words.both (λ q r. item.Reply q.0 q.1 q.2 r) numbers reply }
{
    let (session, number, place) = numbers?;
    Some(Item::Reply {
        session,
        number,
        place,
        reply: reply?,
    })
}

fn reply_item(alloc: Global, words: &[&[u8]]) -> Result<Option<Item>, NoMemory>
    ensures { IfOk result (λ read. read ≡ item_words.reply_item_from (behind.words_behind words.now)) }
{
    match words {
        [session, number, place, rest @ ..] => {
            let reply = reply(alloc, rest)?;
            Ok(made_reply(three_numbers64(session, number, place), reply))
        }
        _ => Ok(None),
    }
}

/// What a read is answered: its level, its arrival, and the reply.
type Answer = (Level, Option<(u64, u64)>, Reply);

fn made_answer(
    level_and_reach: Option<(Level, Option<(u64, u64)>)>,
    reply: Option<Reply>,
) -> Option<Answer>
    ensures { result ≡ spec_words.both (λ t r. (t.0, t.1, r)) level_and_reach reply }
{
    let (level, reach) = level_and_reach?;
    Some((level, reach, reply?))
}

fn answer(
    alloc: Global,
    level: &[u8],
    reach: &[u8],
    words: &[&[u8]],
) -> Result<Option<Answer>, NoMemory>
    ensures { IfOk result (λ read. read ≡ item_words.answer_from level.now reach.now (behind.words_behind words.now)) }
{
    let reply = reply(alloc, words)?;
    Ok(made_answer(level_and_reach(level, reach), reply))
}

fn made_read(numbers: Option<(u64, u64, u64)>, answer: Option<Answer>) -> Option<Item>
    ensures { result ≡ spec_words.both (λ q a. item.Read q.0 q.1 a.0 q.2 a.1 a.2) numbers answer }
{
    let (session, number, place) = numbers?;
    let (level, reach, reply) = answer?;
    Some(Item::Read {
        session,
        number,
        level,
        place,
        reach,
        reply,
    })
}

fn read_item(alloc: Global, words: &[&[u8]]) -> Result<Option<Item>, NoMemory>
    ensures { IfOk result (λ read. read ≡ item_words.read_item_from (behind.words_behind words.now)) }
{
    match words {
        [session, number, level, place, reach, rest @ ..] => {
            let answer = answer(alloc, level, reach, rest)?;
            Ok(made_read(three_numbers64(session, number, place), answer))
        }
        _ => Ok(None),
    }
}

fn made_event(numbers: Option<(u64, u64, u64)>, events: Option<List<Event>>) -> Option<Item>
    ensures { result ≡ spec_words.both (λ q es. item.Event q.0 q.1 q.2 es) numbers events }
{
    let (session, place, prev) = numbers?;
    Some(Item::Event {
        session,
        place,
        prev,
        events: events?,
    })
}

fn event_item(alloc: Global, words: &[&[u8]]) -> Result<Option<Item>, NoMemory>
    ensures { IfOk result (λ read. read ≡ item_words.event_item_from (behind.words_behind words.now)) }
{
    match words {
        [session, place, prev, count, rest @ ..] => {
            let events = counted_events(alloc, count, rest)?;
            Ok(made_event(three_numbers64(session, place, prev), events))
        }
        _ => Ok(None),
    }
}

/// The client and the kind of a watch.
fn watch(client_word: &[u8], kind: &[u8]) -> Option<(ClientId, WatchKind)>
    ensures { result ≡ item_words.watch_from client_word.now kind.now }
{
    Some((client(client_word, MAX_CLIENTS)?, watch_kind(kind)?))
}

fn made_heard(numbers: Option<(u64, u64)>, event: Option<Event>) -> Option<(u64, u64, Event)>
    ensures { result ≡ spec_words.both (λ q e. (q.0, q.1, e)) numbers event }
{
    let (session, place) = numbers?;
    Some((session, place, event?))
}

/// An event that a session heard at a place.
fn heard_event(
    alloc: Global,
    session: &[u8],
    place: &[u8],
    words: &[&[u8]],
) -> Result<Option<(u64, u64, Event)>, NoMemory>
    ensures { IfOk result (λ read. read ≡ item_words.heard_event_from session.now place.now (behind.words_behind words.now)) }
{
    let event = event(alloc, words)?;
    Ok(made_heard(pair_of_numbers(session, place), event))
}

fn made_watched(
    watch: Option<(ClientId, WatchKind)>,
    heard: Option<(u64, u64, Event)>,
) -> Option<Item>
    ensures { result ≡ spec_words.both (λ w h. item.Watched w.0 w.1 h.0 h.1 h.2) watch heard }
{
    let (client, kind) = watch?;
    let (session, place, event) = heard?;
    Some(Item::Watched {
        client,
        kind,
        session,
        place,
        event,
    })
}

fn watched(alloc: Global, words: &[&[u8]]) -> Result<Option<Item>, NoMemory>
    ensures { IfOk result (λ read. read ≡ item_words.watched_from (behind.words_behind words.now)) }
{
    match words {
        [client, kind, session, place, rest @ ..] => {
            let heard = heard_event(alloc, session, place, rest)?;
            Ok(made_watched(watch(client, kind), heard))
        }
        _ => Ok(None),
    }
}

fn opened(words: &[&[u8]]) -> Option<Item>
    ensures { result ≡ item_words.opened_from (behind.words_behind words.now) }
{
    match words {
        [session, client_word] => Some(Item::Opened {
            session: number64(session)?,
            client: client(client_word, MAX_CLIENTS)?,
        }),
        _ => None,
    }
}

fn made_end(numbers: Option<(u64, u64)>, how: Option<How>) -> Option<Item>
    ensures { result ≡ spec_words.both (λ q how. item.Ended q.0 q.1 how) numbers how }
{
    let (session, place) = numbers?;
    Some(Item::Ended {
        session,
        place,
        how: how?,
    })
}

fn ended(words: &[&[u8]]) -> Option<Item>
    ensures { result ≡ item_words.ended_from (behind.words_behind words.now) }
{
    match words {
        [session, place, word] => made_end(pair_of_numbers(session, place), how(word)),
        _ => None,
    }
}

fn leader(words: &[&[u8]]) -> Option<Item>
    ensures { result ≡ item_words.leader_from (behind.words_behind words.now) }
{
    match words {
        [node_word, term] => Some(Item::Leader {
            node: node(node_word, MAX_NODES)?,
            term: number64(term)?,
        }),
        _ => None,
    }
}

/// A node, and the term and number of an arrival at it.
fn node_and_arrival(node_word: &[u8], word: &[u8]) -> Option<(NodeId, u64, u64)>
    ensures { result ≡ item_words.node_and_arrival node_word.now word.now }
{
    let node = node(node_word, MAX_NODES)?;
    let (term, arrival) = arrival(word)?;
    Some((node, term, arrival))
}

fn made_reach(reached: Option<(NodeId, u64, u64)>, numbers: Option<(u64, u64)>) -> Option<Item>
    ensures { result ≡ spec_words.both (λ r p. item.Reach r.0 r.1 r.2 p.0 p.1) reached numbers }
{
    let (node, term, arrival) = reached?;
    let (session, number) = numbers?;
    Some(Item::Reach {
        node,
        term,
        arrival,
        session,
        number,
    })
}

#[tactic(auto, using(crate::proofs::Short::reach_parts))]
fn reach_item(words: &[&[u8]]) -> Option<Item>
    ensures { result ≡ item_words.reach_item_from (behind.words_behind words.now) }
{
    match words {
        [node, arrival, rest @ ..] => {
            made_reach(node_and_arrival(node, arrival), two_numbers64(rest))
        }
        _ => None,
    }
}

fn halted(words: &[&[u8]]) -> Option<Item>
    ensures { result ≡ item_words.halted_from (behind.words_behind words.now) }
{
    match words {
        [word] => Some(Item::Halted {
            node: node(word, MAX_NODES)?,
        }),
        _ => None,
    }
}

/// An end of a packet's way, `nK` or `cC`.
fn end(word: &[u8]) -> Option<End>
    ensures { result ≡ step_lines.end_of 9 16 word.now }
{
    let (first, rest) = word.split_first()?;
    if *first == b'n' {
        Some(End::Node(node(rest, MAX_NODES)?))
    } else if *first == b'c' {
        Some(End::Client(client(rest, MAX_CLIENTS)?))
    } else {
        None
    }
}

fn way(from: &[u8], to: &[u8]) -> Option<(End, End)>
    ensures { result ≡ item_words.way_from from.now to.now }
{
    Some((end(from)?, end(to)?))
}

fn sent_packet(from: &[u8], to: &[u8], kind: &[u8]) -> Option<(End, End, PayloadKind)>
    ensures { result ≡ item_words.sent_packet_from from.now to.now kind.now }
{
    let (from, to) = way(from, to)?;
    Some((from, to, payload_kind(kind)?))
}

fn made_pending(number: Option<u64>, sent: Option<(End, End, PayloadKind)>) -> Option<Item>
    ensures { result ≡ spec_words.both (λ number s. item.Pending number s.0 s.1 s.2) number sent }
{
    let number = number?;
    let (from, to, kind) = sent?;
    Some(Item::Pending {
        number,
        from,
        to,
        kind,
    })
}

/// The ends of a packet's way, and its kind, of three words.
fn sent(words: &[&[u8]]) -> Option<(End, End, PayloadKind)>
    ensures { result ≡ read_answers.packet_sent_from (behind.words_behind words.now) }
{
    match words {
        [from, to, kind] => sent_packet(from, to, kind),
        _ => None,
    }
}

#[tactic(auto, using(crate::proofs::Short::pending_parts))]
fn pending(words: &[&[u8]]) -> Option<Item>
    ensures { result ≡ item_words.pending_from (behind.words_behind words.now) }
{
    match words.split_first() {
        Some((number, rest)) => made_pending(number64(number), sent(rest)),
        None => None,
    }
}

/// What a step shows besides its calls.
fn step_item(word: &[u8], words: &[&[u8]]) -> Option<Item>
    ensures { result ≡ item_words.step_item_from word.now (behind.words_behind words.now) }
{
    if is(word, "leader") {
        leader(words)
    } else if is(word, "reach") {
        reach_item(words)
    } else if is(word, "halted") {
        halted(words)
    } else if is(word, "listed") {
        only_number64(words).map(|count| Item::Listed { count })
    } else if is(word, "pending") {
        pending(words)
    } else if is(word, "skip") {
        skip_reason(words).map(|reason| Item::Skip { reason })
    } else {
        None
    }
}

/// What becomes of a session and of its calls without an answer, and what a step shows besides its calls.
fn session_item(word: &[u8], words: &[&[u8]]) -> Option<Item>
    ensures { result ≡ item_words.session_item_from word.now (behind.words_behind words.now) }
{
    if is(word, "opened") {
        opened(words)
    } else if is(word, "ended") {
        ended(words)
    } else if is(word, "doubt") {
        two_numbers64(words).map(|(session, number)| Item::Doubt { session, number })
    } else if is(word, "lost") {
        two_numbers64(words).map(|(session, number)| Item::Lost { session, number })
    } else if is(word, "unsent") {
        two_numbers64(words).map(|(session, number)| Item::Unsent { session, number })
    } else if is(word, "unanswered") {
        two_numbers64(words).map(|(session, number)| Item::Unanswered { session, number })
    } else {
        step_item(word, words)
    }
}

/// An item by its word and the words behind it.
fn worded_item(alloc: Global, word: &[u8], words: &[&[u8]]) -> Result<Option<Item>, NoMemory>
    ensures { IfOk result (λ read. read ≡ item_words.worded_item_from word.now (behind.words_behind words.now)) }
{
    if is(word, "called") {
        called(alloc, words)
    } else if is(word, "commit") {
        Ok(only_number64(words).map(|place| Item::Commit { place }))
    } else if is(word, "reply") {
        reply_item(alloc, words)
    } else if is(word, "event") {
        event_item(alloc, words)
    } else if is(word, "watch") {
        watched(alloc, words)
    } else if is(word, "read") {
        read_item(alloc, words)
    } else {
        Ok(session_item(word, words))
    }
}

/// The item of the words of a line; `None` exactly where they are no item's.
pub fn item(alloc: Global, words: &[&[u8]]) -> Result<Option<Item>, NoMemory>
    ensures { IfOk result (λ read. read ≡ item_words.item_from (behind.words_behind words.now)) }
{
    match words.split_first() {
        Some((word, rest)) => worded_item(alloc, word, rest),
        None => Ok(None),
    }
}
