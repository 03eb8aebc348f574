ghost use Rattle.std.specs.Prelude.{◌≡◌, IfOk};
ghost use Rattle.spec_text.specs.OperationWords as operation_words;
ghost use Rattle.spec_text.specs.Words as text_words;
ghost use Rattle.ax_types.specs.declared.ops.WindowCall.TheVariants as call;
ghost use Rattle.text_words.specs.Behind as behind;

use crate::operands::{is, name};
use crate::operations::operation;
use crate::queries::question;
use ax_types::{Level, Name, NoMemory, Op, Query, WindowCall};
use std::alloc::Global;

/// The level of a query; `None` exactly where the word is neither `seq` nor `lin`.
pub fn level(word: &[u8]) -> Option<Level>
    ensures { result ≡ operation_words.level_of word.now }
{
    if is(word, "seq") {
        Some(Level::Seq)
    } else if is(word, "lin") {
        Some(Level::Lin)
    } else {
        None
    }
}

fn made_command(name: Option<Name>, op: Option<Op>) -> Option<WindowCall>
    ensures { result ≡ text_words.both call.Command name op }
{
    Some(WindowCall::Command {
        name: name?,
        op: op?,
    })
}

fn made_query(level: Level, name: Option<Name>, query: Option<Query>) -> Option<WindowCall>
    ensures { result ≡ text_words.both (call.Query level) name query }
{
    Some(WindowCall::Query {
        level,
        name: name?,
        query: query?,
    })
}

/// The command of the words `KIND NAME OPERATION`; `None` exactly where they are no such words.
pub fn command_call(alloc: Global, words: &[&[u8]]) -> Result<Option<WindowCall>, NoMemory>
    ensures { IfOk result (λ read. read ≡ operation_words.command_call_of (behind.words_behind words.now)) }
{
    match words {
        [kind, name_word, word, operands @ ..] => {
            let name = name(alloc, name_word)?;
            Ok(made_command(name, operation(alloc, kind, word, operands)?))
        }
        _ => Ok(None),
    }
}

/// The query of the words `KIND NAME QUERY` at this level; `None` exactly where they are no such words.
fn query_call(alloc: Global, level: Level, words: &[&[u8]]) -> Result<Option<WindowCall>, NoMemory>
    ensures { IfOk result (λ read. read ≡ operation_words.query_call_of level (behind.words_behind words.now)) }
{
    match words {
        [kind, name_word, word, operands @ ..] => {
            let name = name(alloc, name_word)?;
            Ok(made_query(level, name, question(alloc, kind, word, operands)?))
        }
        _ => Ok(None),
    }
}

/// The query of the words `LEVEL KIND NAME QUERY`; `None` exactly where they are no such words.
pub fn leveled_call(alloc: Global, words: &[&[u8]]) -> Result<Option<WindowCall>, NoMemory>
    ensures { IfOk result (λ read. read ≡ operation_words.leveled_call_of (behind.words_behind words.now)) }
{
    match words {
        [level_word, rest @ ..] => match level(level_word) {
            Some(level) => query_call(alloc, level, rest),
            None => Ok(None),
        },
        [] => Ok(None),
    }
}

/// The call of the words `call KIND NAME OPERATION` or `query LEVEL KIND NAME QUERY`; `None` exactly where they are no such words.
pub fn call(alloc: Global, words: &[&[u8]]) -> Result<Option<WindowCall>, NoMemory>
    ensures { IfOk result (λ read. read ≡ operation_words.call_of (behind.words_behind words.now)) }
{
    match words {
        [word, rest @ ..] => {
            if is(word, "call") {
                command_call(alloc, rest)
            } else if is(word, "query") {
                leveled_call(alloc, rest)
            } else {
                Ok(None)
            }
        }
        [] => Ok(None),
    }
}
