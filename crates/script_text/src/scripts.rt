ghost use Rattle.std.specs.Prelude.{◌≡◌, IfOk, Some, None, ◌∷◌, ◌==◌, ◌≤◌, ◌+◌, ◌^◌, length};
ghost use Rattle.std.specs.List.{position, slice_split};
ghost use Rattle.spec_text.specs.Words as words;
ghost use Rattle.spec_script.specs.Scripts as scripts;
ghost use Rattle.text_words.specs.Behind as behind;
ghost use Rattle.script_text.specs.ReadScripts as read_scripts;
ghost use Rattle.script_text.specs.Drafts as drafts;

use crate::drafts::Draft;
use crate::lines::{cluster, words_line};
use ax_types::limits::{MAX_LINE, MAX_SCRIPT};
use ax_types::{NoMemory, Script, Why};
use std::alloc::{AllocError, Global};

/// Why bytes are no script.
#[derive(Clone, Copy)]
pub enum ScriptRefused {
    /// The first line that is refused, counted from 1, and the first reason for it.
    Refused { line: u64, why: Why },
    NoMemory,
}

/// Why a line is not read.
#[derive(Clone, Copy)]
enum LineRefused {
    Why(Why),
    NoMemory,
}

impl From<NoMemory> for LineRefused {
    ghost use Rattle.script_text.specs.declared.scripts.LineRefused.TheVariants as refused;

    ghost from_gives = { λ _ e. e ≡ refused.NoMemory };

    fn from(_error: NoMemory) -> LineRefused {
        LineRefused::NoMemory
    }
}

/// Where a line stands.
#[derive(Clone, Copy)]
struct Place {
    race: bool,
    number: u64,
    /// No newline ends it.
    is_last: bool,
    /// It holds the byte after the longest script.
    is_past: bool,
}

fn cut<'a>(alloc: Global, line: &'a [u8]) -> Result<Vec<&'a [u8]>, AllocError>
    ensures { IfOk result (λ v. behind.words_behind v.items ≡ words.words_of line.now) }
{
    line.split(|b| *b == b' ').collect(alloc)
}

/// The words of a line.
fn words<'a>(alloc: Global, line: &'a [u8]) -> Result<Vec<&'a [u8]>, NoMemory>
    ensures { IfOk result (λ v. behind.words_behind v.items ≡ words.words_of line.now) }
{
    Ok(cut(alloc, line)?)
}

/// Whether a line does nothing: it is empty or begins with `#`.
fn is_skipped(line: &[u8]) -> bool
    ensures { result ≡ scripts.is_skipped line.now }
{
    match line {
        [] => true,
        [first, ..] => *first == b'#',
    }
}

/// The limit that a line passes.
fn in_limits(is_past: bool, line: &[u8]) -> Option<Why>
    ensures { result ≡ scripts.in_limits is_past line.now }
{
    if MAX_LINE < line.len() {
        Some(Why::LineTooLong)
    } else if is_past {
        Some(Why::TooLong)
    } else {
        None
    }
}

/// Reads a line where the cluster line is due.
fn first_line(alloc: Global, place: Place, line: &[u8]) -> Result<Option<Draft>, LineRefused>
    ensures { read_scripts.LineAnswers (scripts.after_first (read_scripts.place_behind place) line.now) result }
{
    if is_skipped(line) {
        if place.is_last {
            return Err(LineRefused::Why(Why::Cluster));
        }
        return match in_limits(place.is_past, line) {
            Some(why) => Err(LineRefused::Why(why)),
            None => Ok(None),
        };
    }
    match cluster(alloc, words(alloc, line)?.as_slice()) {
        Some(mut draft) => match in_limits(place.is_past, line) {
            Some(why) => Err(LineRefused::Why(why)),
            None => {
                draft.script.last_line = place.number;
                Ok(Some(draft))
            }
        },
        None => Err(LineRefused::Why(Why::Cluster)),
    }
}

/// Reads a line behind the cluster line.
fn later_line(
    alloc: Global,
    place: Place,
    line: &[u8],
    draft: &mut Draft,
) -> Result<(), LineRefused>
    ensures { read_scripts.LaterAnswers (scripts.after_later (read_scripts.place_behind place) line.now (drafts.draft_of draft.old)) result draft.new }
{
    if let Some(why) = in_limits(place.is_past, line) {
        return Err(LineRefused::Why(why));
    }
    if is_skipped(line) {
        if !line.is_empty() {
            draft.script.last_line = place.number;
        }
        return Ok(());
    }
    let words = words(alloc, line)?;
    if words_line(alloc, place.race, place.number, words.as_slice(), draft)? {
        Ok(())
    } else {
        Err(LineRefused::Why(Why::Grammar))
    }
}

/// The bytes that are judged: all, or those up to the one after the longest script.
fn judged(bytes: &[u8]) -> &[u8]
    ensures judged { result.now ≡ scripts.judged_bytes bytes.now }
    ensures few { length result.now ≤ 1048577 }
{
    if bytes.len() > MAX_SCRIPT {
        &bytes[..MAX_SCRIPT + 1]
    } else {
        bytes
    }
}

/// Where the first newline stands.
fn newline(bytes: &[u8]) -> Option<usize>
    ensures { result ≡ position (λ b. b == 10) bytes.now }
{
    bytes.iter().position(|b| *b == b'\n')
}

/// The first line, and what stands behind the newline that ends it.
fn cut_line(bytes: &[u8]) -> (&[u8], Option<&[u8]>)
    ensures { slice_split (λ b. b == 10) bytes.now ≡ result.0.now ∷ read_scripts.lines_in result.1 }
{
    match newline(bytes) {
        Some(at) => (&bytes[..at], Some(&bytes[at + 1..])),
        None => (bytes, None),
    }
}

/// Where a line with this number stands, with these bytes behind the newline that ends it.
fn place_of(race: bool, is_long: bool, number: u64, more: Option<&[u8]>) -> Place
    ensures { read_scripts.place_behind result ≡ scripts.position_of race is_long number (read_scripts.lines_in more.entry) }
{
    Place {
        race,
        number,
        is_last: is_last_line(more),
        is_past: is_long && ends(more),
    }
}

/// Whether no line comes any more.
fn is_last_line(more: Option<&[u8]>) -> bool
    ensures { result ≡ scripts.is_empty (read_scripts.lines_in more.entry) }
{
    more.is_none()
}

/// Whether no byte comes any more.
fn ends(more: Option<&[u8]>) -> bool
    ensures { result ≡ scripts.holds_last_byte (read_scripts.lines_in more.entry) }
{
    match more {
        Some(bytes) => bytes.is_empty(),
        None => true,
    }
}

fn refused_at(line: u64, refused: LineRefused) -> ScriptRefused
    ensures { result ≡ read_scripts.refusal_at line refused }
{
    match refused {
        LineRefused::Why(why) => ScriptRefused::Refused { line, why },
        LineRefused::NoMemory => ScriptRefused::NoMemory,
    }
}

/// Reads the lines behind the cluster line.
fn later_lines(
    alloc: Global,
    race: bool,
    is_long: bool,
    mut draft: Draft,
    mut rest: Option<&[u8]>,
    mut number: u64,
) -> Result<Script, ScriptRefused>
    requires { number + length (read_scripts.lines_in rest) ≤ 2 ^ 62 }
    ensures { read_scripts.ReadsAs (scripts.read_lines race is_long (read_scripts.lines_in rest.entry) number (Some (drafts.draft_of draft))) result }
{
    'lines: while let Some(bytes) = rest {
        let (line, more) = cut_line(bytes);
        let place = place_of(race, is_long, number, more);
        if let Err(refused) = later_line(alloc, place, line, &mut draft) {
            return Err(refused_at(number, refused));
        }
        number += 1;
        rest = more;
    }
    Ok(draft.script)
}

/// Reads the lines up to the cluster line, and the others behind it.
fn all_lines(
    alloc: Global,
    race: bool,
    is_long: bool,
    bytes: &[u8],
) -> Result<Script, ScriptRefused>
    requires { 1 + length (slice_split (λ b. b == 10) bytes.now) ≤ 2 ^ 62 }
    ensures { read_scripts.ReadsAs (scripts.read_lines race is_long (slice_split (λ b. b == 10) bytes.now) 1 None) result }
{
    let mut rest = bytes;
    let mut number: u64 = 1;
    'lines: loop {
        let (line, more) = cut_line(rest);
        let place = place_of(race, is_long, number, more);
        match first_line(alloc, place, line) {
            Ok(Some(draft)) => return later_lines(alloc, race, is_long, draft, more, number + 1),
            Ok(None) => {}
            Err(refused) => return Err(refused_at(number, refused)),
        }
        let Some(bytes) = more else {
            unreachable!();
        };
        number += 1;
        rest = bytes;
    }
}

/// Reads a script, of `run`, or of `race`, which has lines of its own. It is `Ok` exactly where the bytes are of the grammar, with
/// that script. Else the first refused line comes with the first of its reasons `Cluster`, `LineTooLong`, `TooLong` and `Grammar`.
pub fn read_script(alloc: Global, bytes: &[u8], race: bool) -> Result<Script, ScriptRefused>
    ensures { read_scripts.ReadsAs (scripts.read_script_of race bytes.now) result }
{
    all_lines(alloc, race, bytes.len() > MAX_SCRIPT, judged(bytes))
}
