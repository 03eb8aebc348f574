ghost use Rattle.std.specs.Prelude.{◌≡◌, IfOk, ◌∷◌};
ghost use Rattle.spec_text.specs.Words as spec_words;
ghost use Rattle.spec_report_read.specs.ReplyWords as reply_words;
ghost use Rattle.spec_report_read.specs.ItemWords as item_words;
ghost use Rattle.text_words.specs.Behind as behind;

use crate::operands::{number64, only_number64, two_numbers64};
use ax_types::limits::MAX_CLIENTS;
use ax_types::{Act, NoMemory, RunEnd, WindowCall};
use std::alloc::Global;
use text_words::{client, command_call, is, without_operands};

/// The command of a session.
fn done_by(session: u64, call: WindowCall) -> Option<Act>
    ensures { result ≡ item_words.done_by session call }
{
    match call {
        WindowCall::Command { name, op } => Some(Act::Do { session, name, op }),
        WindowCall::Query { .. } => None,
    }
}

fn done(alloc: Global, words: &[&[u8]]) -> Result<Option<Act>, NoMemory>
    ensures { IfOk result (λ read. read ≡ item_words.do_from (behind.words_behind words.now)) }
{
    let Some((word, rest)) = words.split_first() else {
        return Ok(None);
    };
    let Some(session) = number64(word) else {
        return Ok(None);
    };
    match command_call(alloc, rest)? {
        Some(call) => Ok(done_by(session, call)),
        None => Ok(None),
    }
}

fn open(words: &[&[u8]]) -> Option<Act>
    ensures { result ≡ item_words.open_from (behind.words_behind words.now) }
{
    match words {
        [client_word, opening] => Some(Act::Open {
            client: client(client_word, MAX_CLIENTS)?,
            opening: number64(opening)?,
        }),
        _ => None,
    }
}

fn worded_act(alloc: Global, word: &[u8], words: &[&[u8]]) -> Result<Option<Act>, NoMemory>
    ensures { IfOk result (λ read. read ≡ item_words.worded_act_from word.now (behind.words_behind words.now)) }
{
    if is(word, "do") {
        done(alloc, words)
    } else if is(word, "nothing") {
        Ok(without_operands(Act::Nothing, words))
    } else if is(word, "open") {
        Ok(open(words))
    } else if is(word, "keep") {
        Ok(only_number64(words).map(|session| Act::Keep { session }))
    } else if is(word, "close") {
        Ok(only_number64(words).map(|session| Act::Close { session }))
    } else if is(word, "expire") {
        Ok(only_number64(words).map(|session| Act::Expire { session }))
    } else {
        Ok(None)
    }
}

fn act(alloc: Global, words: &[&[u8]]) -> Result<Option<Act>, NoMemory>
    ensures { IfOk result (λ read. read ≡ item_words.act_from (behind.words_behind words.now)) }
{
    match words.split_first() {
        Some((word, rest)) => worded_act(alloc, word, rest),
        None => Ok(None),
    }
}

/// Whether the word is this number.
fn is_that_number(place: u64, word: &[u8]) -> bool
    ensures { result ≡ item_words.is_that_number place (reply_words.number64_from word.now) }
{
    match number64(word) {
        Some(number) => number == place,
        None => false,
    }
}

/// The time and the act of the words `P TIME ACT`, where P is this place.
pub fn entry(alloc: Global, place: u64, words: &[&[u8]]) -> Result<Option<(u64, Act)>, NoMemory>
    ensures { IfOk result (λ read. read ≡ item_words.entry_from place (behind.words_behind words.now)) }
{
    match words {
        [place_word, time, rest @ ..] => {
            if !is_that_number(place, place_word) {
                return Ok(None);
            }
            timed_act(alloc, time, rest)
        }
        _ => Ok(None),
    }
}

fn timed_act(alloc: Global, time: &[u8], words: &[&[u8]]) -> Result<Option<(u64, Act)>, NoMemory>
    ensures { IfOk result (λ read. read ≡ spec_words.both (λ time act. (time, act)) (reply_words.number64_from time.now) (item_words.act_from (behind.words_behind words.now))) }
{
    let act = act(alloc, words)?;
    Ok(made_entry(number64(time), act))
}

fn made_entry(time: Option<u64>, act: Option<Act>) -> Option<(u64, Act)>
    ensures { result ≡ spec_words.both (λ time act. (time, act)) time act }
{
    Some((time?, act?))
}

/// The session and the number of the words `waiting S N`.
pub fn waiting_call(words: &[&[u8]]) -> Option<(u64, u64)>
    ensures { result ≡ item_words.waiting_call_from (behind.words_behind words.now) }
{
    let (word, rest) = words.split_first()?;
    if is(word, "waiting") {
        two_numbers64(rest)
    } else {
        None
    }
}

fn step_limit(word: &[u8], line: &[u8]) -> Option<RunEnd>
    ensures { result ≡ item_words.step_limit_from word.now line.now }
{
    if is(word, "step-limit") {
        number64(line).map(|line| RunEnd::StepLimit { line })
    } else {
        None
    }
}

/// How a run ended, by the words `done` or `step-limit LINE`.
pub fn run_end(words: &[&[u8]]) -> Option<RunEnd>
    ensures { result ≡ item_words.run_end_from (behind.words_behind words.now) }
{
    match words {
        [word] => {
            if is(word, "done") {
                Some(RunEnd::Done)
            } else {
                None
            }
        }
        [word, line] => step_limit(word, line),
        _ => None,
    }
}
