ghost use Rattle.std.specs.Prelude.{◌≡◌, IfOk, ◌≤◌, take, drop};
ghost use Rattle.spec_report_read.specs.ReplyWords as reply_words;
ghost use Rattle.text_words.specs.Behind as behind;
ghost use Rattle.report_read.specs.ReadAnswers as read_answers;

use crate::operands::{numbers64, only_number64, two_numbers64};
use ax_types::{Event, List, Name, NoMemory, Reply};
use std::alloc::Global;
use text_words::{
    is, key_and_text, name, number, only_key, only_signed, only_text, without_operands,
};

/// A reply that is one word.
fn plain_reply(word: &[u8]) -> Option<Reply>
    ensures { result ≡ reply_words.plain_reply_from word.now }
{
    if is(word, "done") {
        Some(Reply::Done)
    } else if is(word, "none") {
        Some(Reply::Nothing)
    } else if is(word, "true") {
        Some(Reply::Yes)
    } else if is(word, "false") {
        Some(Reply::No)
    } else if is(word, "busy") {
        Some(Reply::Busy)
    } else if is(word, "already") {
        Some(Reply::Already)
    } else if is(word, "not-holder") {
        Some(Reply::NotHolder)
    } else if is(word, "not-member") {
        Some(Reply::NotMember)
    } else if is(word, "overflow") {
        Some(Reply::Overflow)
    } else if is(word, "full") {
        Some(Reply::Full)
    } else if is(word, "wrong-kind") {
        Some(Reply::WrongKind)
    } else {
        None
    }
}

/// A reply by its word and its operands.
fn worded_reply(alloc: Global, word: &[u8], words: &[&[u8]]) -> Result<Option<Reply>, NoMemory>
    ensures { IfOk result (λ read. read ≡ reply_words.worded_reply_from word.now (behind.words_behind words.now)) }
{
    if is(word, "number") {
        Ok(only_signed(words).map(Reply::Number))
    } else if is(word, "some") {
        Ok(only_text(alloc, words)?.map(Reply::Found))
    } else if is(word, "fence") {
        Ok(only_number64(words).map(Reply::Fence))
    } else if is(word, "holder") {
        Ok(two_numbers64(words).map(|(session, fence)| Reply::Holder { session, fence }))
    } else if is(word, "leader") {
        Ok(two_numbers64(words).map(|(session, term)| Reply::Leader { session, term }))
    } else if is(word, "members") {
        Ok(numbers64(alloc, words)?.map(Reply::Members))
    } else {
        Ok(plain_reply(word).and_then(|reply| without_operands(reply, words)))
    }
}

/// The reply of these words; `None` exactly where they are none.
pub fn reply(alloc: Global, words: &[&[u8]]) -> Result<Option<Reply>, NoMemory>
    ensures { IfOk result (λ read. read ≡ reply_words.reply_from (behind.words_behind words.now)) }
{
    match words.split_first() {
        Some((word, rest)) => worded_reply(alloc, word, rest),
        None => Ok(None),
    }
}

/// An event by its word, the name of its resource and its operands.
fn named_event(
    alloc: Global,
    word: &[u8],
    name: Name,
    words: &[&[u8]],
) -> Result<Option<Event>, NoMemory>
    ensures { IfOk result (λ read. read ≡ reply_words.named_event_from word.now name (behind.words_behind words.now)) }
{
    if is(word, "changed") {
        Ok(key_and_text(alloc, words)?.map(|(key, text)| Event::Changed { name, key, text }))
    } else if is(word, "removed") {
        Ok(only_key(alloc, words)?.map(|key| Event::Removed { name, key }))
    } else if is(word, "set") {
        Ok(only_text(alloc, words)?.map(|text| Event::Set { name, text }))
    } else if is(word, "cleared") {
        Ok(without_operands(Event::Cleared { name }, words))
    } else if is(word, "granted") {
        Ok(only_number64(words).map(|fence| Event::Granted { name, fence }))
    } else if is(word, "joined") {
        Ok(only_number64(words).map(|session| Event::Joined { name, session }))
    } else if is(word, "left") {
        Ok(only_number64(words).map(|session| Event::Left { name, session }))
    } else if is(word, "elected") {
        Ok(two_numbers64(words).map(|(session, term)| Event::Elected {
            name,
            session,
            term,
        }))
    } else if is(word, "message") {
        Ok(only_text(alloc, words)?.map(|text| Event::Message { name, text }))
    } else {
        Ok(None)
    }
}

/// The event of these words; `None` exactly where they are none.
pub fn event(alloc: Global, words: &[&[u8]]) -> Result<Option<Event>, NoMemory>
    ensures { IfOk result (λ read. read ≡ reply_words.event_from (behind.words_behind words.now)) }
{
    match words {
        [word, name_word, operands @ ..] => match name(alloc, name_word)? {
            Some(name) => named_event(alloc, word, name, operands),
            None => Ok(None),
        },
        _ => Ok(None),
    }
}

/// How many words an event has, by its first.
fn event_size(word: &[u8]) -> usize
    ensures value { result ≡ reply_words.event_size word.now }
    ensures few { result ≤ 4 }
{
    if is(word, "changed") {
        4
    } else if is(word, "elected") {
        4
    } else if is(word, "cleared") {
        2
    } else {
        3
    }
}

/// How many words the event has that begins these.
fn first_size(words: &[&[u8]]) -> usize
    ensures { result ≡ read_answers.first_size (behind.words_behind words.now) }
{
    match words.first() {
        Some(word) => event_size(word),
        None => 0,
    }
}

/// So many words at the front; all of them where they are fewer.
#[tactic(auto, using(std::proofs::lemmas::List::take_min))]
fn front<'a, 'b>(words: &'a [&'b [u8]], count: usize) -> &'a [&'b [u8]]
    ensures { result.now ≡ take count words.now }
{
    &words[..count.min(words.len())]
}

/// The words behind so many at the front.
#[tactic(auto, using(crate::proofs::Cuts::drop_min))]
fn behind_front<'a, 'b>(words: &'a [&'b [u8]], count: usize) -> &'a [&'b [u8]]
    ensures { result.now ≡ drop count words.now }
{
    &words[count.min(words.len())..]
}

/// The event that begins the words.
fn first_event(alloc: Global, words: &[&[u8]]) -> Result<Option<Event>, NoMemory>
    ensures { IfOk result (λ read. read ≡ reply_words.first_event_from (behind.words_behind words.now)) }
{
    event(alloc, front(words, first_size(words)))
}

/// The words behind the event that begins them.
fn behind_event<'a, 'b>(words: &'a [&'b [u8]]) -> &'a [&'b [u8]]
    ensures { behind.words_behind result.now ≡ reply_words.behind_event (behind.words_behind words.now) }
{
    behind_front(words, first_size(words))
}

#[tactic(auto, using(crate::proofs::Loops::event_read))]
/// So many events, and no further word.
fn events(alloc: Global, count: u64, words: &[&[u8]]) -> Result<Option<List<Event>>, NoMemory>
    ensures { IfOk result (λ read. read ≡ reply_words.events_from count (behind.words_behind words.now)) }
{
    let mut read = List::new(alloc);
    let mut rest = words;
    let mut left = count;
    'events: while left > 0 {
        match first_event(alloc, rest)? {
            Some(event) => read.push(event)?,
            None => return Ok(None),
        }
        rest = behind_event(rest);
        left -= 1;
    }
    Ok(without_operands(read, rest))
}

/// The number of events, one at least, and each of them; `None` exactly where the words are no such thing.
pub fn counted_events(
    alloc: Global,
    count: &[u8],
    words: &[&[u8]],
) -> Result<Option<List<Event>>, NoMemory>
    ensures { IfOk result (λ read. read ≡ reply_words.counted_events_from count.now (behind.words_behind words.now)) }
{
    match number(count, 1, u64::MAX) {
        Some(count) => events(alloc, count, words),
        None => Ok(None),
    }
}
