ghost use Rattle.std.specs.Prelude.{◌≡◌, ◌==◌, IfOk, ◌∷◌, []};
ghost use Rattle.std.specs.List.{position};
ghost use Rattle.spec_report_read.specs.ReplyWords as reply_words;
ghost use Rattle.spec_report_read.specs.ItemWords as item_words;
ghost use Rattle.text_words.specs.Behind as behind;

use ax_types::{List, NoMemory};
use std::alloc::Global;
use text_words::number;

/// A number of 64 bits.
pub fn number64(word: &[u8]) -> Option<u64>
    ensures { result ≡ reply_words.number64_from word.now }
{
    number(word, 0, u64::MAX)
}

pub fn pair_of_numbers(a: &[u8], b: &[u8]) -> Option<(u64, u64)>
    ensures { result ≡ reply_words.pair_of_numbers a.now b.now }
{
    Some((number64(a)?, number64(b)?))
}

pub fn three_numbers64(a: &[u8], b: &[u8], c: &[u8]) -> Option<(u64, u64, u64)>
    ensures { result ≡ item_words.three_numbers64 a.now b.now c.now }
{
    let (x, y) = pair_of_numbers(a, b)?;
    Some((x, y, number64(c)?))
}

pub fn only_number64(words: &[&[u8]]) -> Option<u64>
    ensures { result ≡ reply_words.only_number64 (behind.words_behind words.now) }
{
    match words {
        [a] => number64(a),
        _ => None,
    }
}

pub fn two_numbers64(words: &[&[u8]]) -> Option<(u64, u64)>
    ensures { result ≡ reply_words.two_numbers64 (behind.words_behind words.now) }
{
    match words {
        [a, b] => pair_of_numbers(a, b),
        _ => None,
    }
}

pub fn numbers64(alloc: Global, words: &[&[u8]]) -> Result<Option<List<u64>>, NoMemory>
    ensures { IfOk result (λ read. read ≡ reply_words.numbers64_from (behind.words_behind words.now)) }
{
    let mut numbers = List::new(alloc);
    'words: for word in words {
        match number64(word) {
            Some(number) => numbers.push(number)?,
            None => return Ok(None),
        }
    }
    Ok(Some(numbers))
}

/// Where the first dot stands.
fn dot(word: &[u8]) -> Option<usize>
    ensures { result ≡ position (λ b. b == 46) word.now }
{
    word.iter().position(|b| *b == b'.')
}

/// The numbers before and behind the first dot: `TERM.A`.
pub fn arrival(word: &[u8]) -> Option<(u64, u64)>
    ensures { result ≡ item_words.arrival_from word.now }
{
    match dot(word) {
        Some(at) => pair_of_numbers(&word[..at], &word[at + 1..]),
        None => None,
    }
}
