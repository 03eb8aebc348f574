ghost use Rattle.std.specs.Prelude.{◌≡◌, IfOk, ◌∷◌, [], Some, None};
ghost use Rattle.std.specs.Str.{bytes_eq};
ghost use Rattle.spec_text.specs.Words as text_words;
ghost use Rattle.spec_text.specs.OperationWords as operation_words;
ghost use Rattle.text_words.specs.Behind as behind;

use crate::numbers::{life, signed};
use ax_types::{Key, Life, Name, NoMemory, Text};
use std::alloc::Global;

/// Whether the word is this text.
pub fn is(word: &[u8], text: &str) -> bool
    ensures { result ≡ bytes_eq word.now text.now }
{
    word == text.as_bytes()
}

/// The name of a resource; `None` exactly where the word has not its form.
pub fn name(alloc: Global, word: &[u8]) -> Result<Option<Name>, NoMemory>
    ensures { IfOk result (λ read. read ≡ text_words.name_of word.now) }
{
    Name::read(alloc, word)
}

fn key(alloc: Global, word: &[u8]) -> Result<Option<Key>, NoMemory>
    ensures { IfOk result (λ read. read ≡ text_words.name_of word.now) }
{
    Key::read(alloc, word)
}

fn text(alloc: Global, word: &[u8]) -> Result<Option<Text>, NoMemory>
    ensures { IfOk result (λ read. read ≡ text_words.text_of word.now) }
{
    Text::read(alloc, word)
}

/// The value, where no operands are given.
pub fn without_operands<T: Drop>(value: T, words: &[&[u8]]) -> Option<T>
    ensures { result ≡ operation_words.without_operands value (behind.words_behind words.now) }
{
    if words.is_empty() { Some(value) } else { None }
}

/// The key of a single word; `None` exactly where it is no key, or there are more or fewer words.
pub fn only_key(alloc: Global, words: &[&[u8]]) -> Result<Option<Key>, NoMemory>
    ensures { IfOk result (λ read. read ≡ operation_words.only_key (behind.words_behind words.now)) }
{
    match words {
        [k] => key(alloc, k),
        _ => Ok(None),
    }
}

/// The text of a single word; `None` exactly where it is no text, or there are more or fewer words.
pub fn only_text(alloc: Global, words: &[&[u8]]) -> Result<Option<Text>, NoMemory>
    ensures { IfOk result (λ read. read ≡ operation_words.only_text (behind.words_behind words.now)) }
{
    match words {
        [v] => text(alloc, v),
        _ => Ok(None),
    }
}

/// The signed number of a single word; `None` exactly where it is none, or there are more or fewer words.
pub fn only_signed(words: &[&[u8]]) -> Option<i64>
    ensures { result ≡ operation_words.only_signed (behind.words_behind words.now) }
{
    match words {
        [n] => signed(n),
        _ => None,
    }
}

pub fn two_signed(words: &[&[u8]]) -> Option<(i64, i64)>
    ensures { result ≡ operation_words.two_signed (behind.words_behind words.now) }
{
    match words {
        [expected, number] => Some((signed(expected)?, signed(number)?)),
        _ => None,
    }
}

fn pair_of_key_and_text(alloc: Global, k: &[u8], v: &[u8]) -> Result<Option<(Key, Text)>, NoMemory>
    ensures { IfOk result (λ read. read ≡ operation_words.key_and_text (k.now ∷ v.now ∷ [])) }
{
    match (key(alloc, k)?, text(alloc, v)?) {
        (Some(key), Some(text)) => Ok(Some((key, text))),
        _ => Ok(None),
    }
}

/// The key and the text of two words; `None` exactly where the words are not these two.
pub fn key_and_text(alloc: Global, words: &[&[u8]]) -> Result<Option<(Key, Text)>, NoMemory>
    ensures { IfOk result (λ read. read ≡ operation_words.key_and_text (behind.words_behind words.now)) }
{
    match words {
        [k, v] => pair_of_key_and_text(alloc, k, v),
        _ => Ok(None),
    }
}

fn pair_of_texts(alloc: Global, e: &[u8], v: &[u8]) -> Result<Option<(Text, Text)>, NoMemory>
    ensures { IfOk result (λ read. read ≡ operation_words.two_texts (e.now ∷ v.now ∷ [])) }
{
    match (text(alloc, e)?, text(alloc, v)?) {
        (Some(expected), Some(text)) => Ok(Some((expected, text))),
        _ => Ok(None),
    }
}

pub fn two_texts(alloc: Global, words: &[&[u8]]) -> Result<Option<(Text, Text)>, NoMemory>
    ensures { IfOk result (λ read. read ≡ operation_words.two_texts (behind.words_behind words.now)) }
{
    match words {
        [e, v] => pair_of_texts(alloc, e, v),
        _ => Ok(None),
    }
}

fn entry_with_life(
    alloc: Global,
    k: &[u8],
    v: &[u8],
    l: &[u8],
) -> Result<Option<(Key, Text, Life)>, NoMemory>
    ensures { IfOk result (λ read. read ≡ operation_words.lasting_entry (k.now ∷ v.now ∷ l.now ∷ [])) }
{
    match (pair_of_key_and_text(alloc, k, v)?, life(l)) {
        (Some((key, text)), Some(life)) => Ok(Some((key, text, life))),
        _ => Ok(None),
    }
}

pub fn lasting_entry(alloc: Global, words: &[&[u8]]) -> Result<Option<(Key, Text, Life)>, NoMemory>
    ensures { IfOk result (λ read. read ≡ operation_words.lasting_entry (behind.words_behind words.now)) }
{
    match words {
        [k, v, l] => entry_with_life(alloc, k, v, l),
        _ => Ok(None),
    }
}
