//! A book that is driven by lines, and read by what it prints.
ghost use Rattle.std.specs.Prelude.{◌≡◌, false, OnOk};

use ax_types::{Act, NoMemory, Turn, WindowCall};
use report_text::{write_event, write_reply};
use res_registry::Book;
use std::alloc::Global;
use std::process::Abort;
use std::test::Fail;
use text_words::call;

/// A place, a log time, a session, what it does or asks, and what comes of it: the reply, and each session that is told, with
/// its event.
pub type Row = (u64, u64, u64, &'static str, &'static str);

fn turn_text(alloc: Global, turn: &Turn) -> Result<String, NoMemory> {
    let mut text = String::new(alloc);
    write_reply(&mut text, &turn.reply)?;
    for (session, event) in turn.told.iter() {
        write!(text, ", {session} ")?;
        write_event(&mut text, event)?;
    }
    Ok(text)
}

/// The call of a line.
fn call_of(alloc: Global, line: &str) -> Result<WindowCall, Fail> {
    let words: Vec<&[u8]> = line.as_bytes().split(|b| *b == b' ').collect(alloc)?;
    Ok(call(alloc, words.as_slice())?.ok_or("no call")?)
}

/// What an act gives, as text.
fn acted(alloc: Global, book: &mut Book, row: &Row, act: &Act) -> Result<String, Fail>
    requires { book.old.is_spent ≡ false }
    ensures { OnOk result (book.new.is_spent ≡ false) }
{
    let turn = book.act(row.0, row.1, act)?;
    Ok(turn_text(alloc, &turn)?)
}

/// What a call gives, as text.
fn called(alloc: Global, book: &mut Book, row: &Row, line: &str) -> Result<String, Fail>
    requires { book.old.is_spent ≡ false }
    ensures { OnOk result (book.new.is_spent ≡ false) }
{
    match call_of(alloc, line)? {
        WindowCall::Command { name, op } => {
            let session = row.2;
            acted(alloc, book, row, &Act::Do { session, name, op })
        }
        WindowCall::Query { name, query, .. } => {
            let mut text = String::new(alloc);
            write_reply(&mut text, &book.ask(&name, &query)?)?;
            Ok(text)
        }
    }
}

/// What comes of a line, as text.
fn answered(alloc: Global, book: &mut Book, row: &Row, line: &str) -> Result<String, Fail>
    requires { book.old.is_spent ≡ false }
    ensures { OnOk result (book.new.is_spent ≡ false) }
{
    let session = row.2;
    match line {
        "keep" => acted(alloc, book, row, &Act::Keep { session }),
        "close" => acted(alloc, book, row, &Act::Close { session }),
        "expire" => acted(alloc, book, row, &Act::Expire { session }),
        _ => called(alloc, book, row, line),
    }
}

/// Goes through a table, and compares what comes of each row.
pub fn walk(rt: &impl Abort, alloc: Global, mut book: Book, rows: &[Row]) -> Result<(), Fail>
    requires { book.is_spent ≡ false }
{
    'rows: for row in rows {
        let got = answered(alloc, &mut book, row, row.3)?;
        assert_eq!(rt; got.as_str(), row.4, "at {} of session {}", row.3, row.2);
    }
    Ok(())
}

/// Each session from `sessions` says the same, at place and log time 1.
pub fn repeat(alloc: Global, book: &mut Book, sessions: u64, line: &str) -> Result<(), Fail>
    requires { book.old.is_spent ≡ false }
    ensures { OnOk result (book.new.is_spent ≡ false) }
{
    'sessions: for session in 0..sessions {
        answered(alloc, book, &(1, 1, session, "", ""), line)?;
    }
    Ok(())
}

/// Session 5 says a line with each number from 0 to 1,023 in it, at place and log time 1.
pub fn number(alloc: Global, book: &mut Book, before: &str, after: &str) -> Result<(), Fail>
    requires { book.old.is_spent ≡ false }
    ensures { OnOk result (book.new.is_spent ≡ false) }
{
    'numbers: for i in 0..1024_u64 {
        let line = format!(in alloc; "{before}{i}{after}")?;
        answered(alloc, book, &(1, 1, 5, "", ""), line.as_str())?;
    }
    Ok(())
}
