ghost use Rattle.std.specs.Prelude.{◌≡◌, IfOk, map, string_bytes, true, false, option_and_then, option_map};
ghost use Rattle.clap.specs.Simple.{app_of, with_rule};
ghost use Rattle.clap.specs.Walk.{first_of, rows_of};
ghost use Rattle.clap.specs.Matches.{found_of};
ghost use Rattle.spec_text.specs.Words as text_words;
ghost use Rattle.spec_command.specs.CommandLine as command_lines;
ghost use Rattle.command_words.specs.Meaning as meaning;
ghost use Rattle.command_words.specs.Given as command_words_given;

use ax_types::limits::{MAX_NODES, MAX_SEED, MAX_TIMEOUT};
use ax_types::{Command, List, NoMemory};
use clap::error::ErrorKind;
use clap::{Arg, ArgAction, ArgMatches};
use std::alloc::{AllocError, Global};
use text_words::{is, number};

/// Why words give no command.
#[derive(Clone, Copy)]
pub enum WordsRefused {
    /// They are no words of a command.
    Usage,
    NoMemory,
}

impl From<NoMemory> for WordsRefused {
    ghost use Rattle.command_words.specs.declared.words.WordsRefused.TheVariants as refused;

    ghost from_gives = { λ _ e. e ≡ refused.NoMemory };

    fn from(_error: NoMemory) -> WordsRefused {
        WordsRefused::NoMemory
    }
}

fn plain_command<'a>(alloc: Global) -> clap::Command<'a>
    ensures { app_of result ≡ command_lines.plain_axrun }
{
    clap::Command::new(alloc, "axrun")
        .no_binary_name(true)
        .disable_help_flag(true)
        .disable_version_flag(true)
}

fn with_positional<'a>(
    alloc: Global,
    command: clap::Command<'a>,
    name: &'a str,
    required: bool,
) -> Result<clap::Command<'a>, AllocError>
    ensures { IfOk result (λ c. app_of c ≡ with_rule (app_of command.entry) (command_lines.positional name.now required)) }
{
    let arg = Arg::new(alloc, name)
        .required(required)
        .action(ArgAction::Set);
    command.arg(arg)
}

fn with_flag<'a>(
    alloc: Global,
    command: clap::Command<'a>,
    name: &'a str,
) -> Result<clap::Command<'a>, AllocError>
    ensures { IfOk result (λ c. app_of c ≡ with_rule (app_of command.entry) (command_lines.flag name.now)) }
{
    let arg = Arg::new(alloc, name).long(name).action(ArgAction::SetTrue);
    command.arg(arg)
}

fn with_option<'a>(
    alloc: Global,
    command: clap::Command<'a>,
    name: &'a str,
) -> Result<clap::Command<'a>, AllocError>
    ensures { IfOk result (λ c. app_of c ≡ with_rule (app_of command.entry) (command_lines.option name.now)) }
{
    let arg = Arg::new(alloc, name).long(name).action(ArgAction::Set);
    command.arg(arg)
}

#[tactic(auto, unfolding(spec_command::specs::CommandLine::axrun))]
fn command_line<'a>(alloc: Global) -> Result<clap::Command<'a>, AllocError>
    ensures { IfOk result (λ c. app_of c ≡ command_lines.axrun) }
{
    let command = with_positional(alloc, plain_command(alloc), "command", true)?;
    let command = with_positional(alloc, command, "operand", false)?;
    let command = with_flag(alloc, command, "json")?;
    let command = with_flag(alloc, command, "steps")?;
    let command = with_option(alloc, command, "nodes")?;
    with_option(alloc, command, "timeout")
}

/// What `clap` finds in the words.
fn parsed(alloc: Global, words: &[String]) -> Result<ArgMatches<'_>, WordsRefused>
    ensures { meaning.Parses (map string_bytes words.now) result }
{
    let Ok(line) = command_line(alloc) else {
        return Err(WordsRefused::NoMemory);
    };
    match line.try_get_matches_from(words) {
        Ok(matches) => Ok(matches),
        Err(error) => match error.kind() {
            ErrorKind::OutOfMemory => Err(WordsRefused::NoMemory),
            _ => Err(WordsRefused::Usage),
        },
    }
}

/// What the words give beside the command.
#[derive(Clone, Copy)]
struct Given<'a> {
    operand: Option<&'a str>,
    json: bool,
    steps: bool,
    nodes: Option<&'a str>,
    timeout: Option<&'a str>,
}

fn value<'a>(matches: &ArgMatches<'a>, id: &str) -> Option<&'a str>
    ensures { command_words_given.text_behind result ≡ first_of id.now (rows_of (found_of matches.now)) }
{
    matches.get_str(id)
}

fn is_set(value: Option<&str>) -> bool
    ensures { result ≡ command_lines.is_set (command_words_given.text_behind value.entry) }
{
    match value {
        Some(text) => text == "true",
        None => false,
    }
}

fn all_given<'a>(matches: &ArgMatches<'a>) -> Given<'a>
    ensures { command_words_given.given_behind result ≡ command_lines.operands (rows_of (found_of matches.now)) }
{
    Given {
        operand: value(matches, "operand"),
        json: is_set(value(matches, "json")),
        steps: is_set(value(matches, "steps")),
        nodes: value(matches, "nodes"),
        timeout: value(matches, "timeout"),
    }
}

fn folder(alloc: Global, operand: &str) -> Result<List<u8>, NoMemory>
    ensures { IfOk result (λ folder. folder ≡ operand.now) }
{
    Ok(List::from_vec(operand.as_bytes().to_vec(alloc)?))
}

fn number_in(value: Option<&str>, low: u64, high: u64) -> Option<u64>
    ensures { result ≡ option_and_then (text_words.number_within low high) (command_words_given.text_behind value.entry) }
{
    number(value?.as_bytes(), low, high)
}

/// The flags and options that a command takes.
#[derive(Clone, Copy)]
struct Takes {
    json: bool,
    steps: bool,
    /// `--nodes` with `--timeout`.
    options: bool,
}

impl Takes {
    /// None of them.
    const NONE: Takes = Takes {
        json: false,
        steps: false,
        options: false,
    };

    /// `--json` alone.
    const JSON: Takes = Takes {
        json: true,
        steps: false,
        options: false,
    };

    /// `--steps` alone.
    const STEPS: Takes = Takes {
        json: false,
        steps: true,
        options: false,
    };

    /// `--nodes` with `--timeout` alone.
    const OPTIONS: Takes = Takes {
        json: false,
        steps: false,
        options: true,
    };
}

/// Whether no flag or option is given but those that the command takes.
fn takes_only(takes: Takes, given: &Given<'_>) -> bool
    ensures { result ≡ command_lines.takes_only takes.json takes.steps takes.options (command_words_given.given_behind given.now) }
{
    (takes.json || !given.json)
        && ((takes.steps || !given.steps)
            && (takes.options || !(given.nodes.is_some() || given.timeout.is_some())))
}

fn run(given: &Given<'_>) -> Option<Command>
    ensures { result ≡ command_lines.run_of (command_words_given.given_behind given.now) }
{
    if takes_only(Takes::JSON, given) && given.operand.is_none() {
        Some(Command::Run { json: given.json })
    } else {
        None
    }
}

fn run_in(alloc: Global, given: &Given<'_>) -> Result<Option<Command>, NoMemory>
    ensures { IfOk result (λ read. read ≡ command_lines.run_in_of (command_words_given.given_behind given.now)) }
{
    if !takes_only(Takes::JSON, given) {
        return Ok(None);
    }
    match given.operand {
        Some(operand) => Ok(Some(Command::RunIn {
            folder: folder(alloc, operand)?,
            json: given.json,
        })),
        None => Ok(None),
    }
}

fn generate(given: &Given<'_>) -> Option<Command>
    ensures { result ≡ command_lines.gen_of (command_words_given.given_behind given.now) }
{
    if !takes_only(Takes::NONE, given) {
        return None;
    }
    Some(Command::Gen {
        seed: number_in(given.operand, 0, u64::from(MAX_SEED))? as u32,
    })
}

fn race(given: &Given<'_>) -> Option<Command>
    ensures { result ≡ command_lines.race_of (command_words_given.given_behind given.now) }
{
    if takes_only(Takes::STEPS, given) && given.operand.is_none() {
        Some(Command::Race { steps: given.steps })
    } else {
        None
    }
}

fn upgrade(alloc: Global, given: &Given<'_>) -> Result<Option<Command>, NoMemory>
    ensures { IfOk result (λ read. read ≡ command_lines.upgrade_of (command_words_given.given_behind given.now)) }
{
    if !takes_only(Takes::NONE, given) {
        return Ok(None);
    }
    match given.operand {
        Some(operand) => Ok(Some(Command::Upgrade {
            folder: folder(alloc, operand)?,
        })),
        None => Ok(None),
    }
}

fn audit(given: &Given<'_>) -> Option<Command>
    ensures { result ≡ command_lines.audit_of (command_words_given.given_behind given.now) }
{
    if !takes_only(Takes::NONE, given) {
        return None;
    }
    Some(Command::Audit {
        timeout: number_in(given.operand, 1, MAX_TIMEOUT)?,
    })
}

fn sizes(given: &Given<'_>) -> Option<(u8, u64)>
    ensures { result ≡ text_words.both (λ nodes timeout. (nodes, timeout)) (option_and_then (text_words.number_within 1 9) (command_words_given.text_behind given.now.nodes)) (option_and_then text_words.timeout_of (command_words_given.text_behind given.now.timeout)) }
{
    let nodes = number_in(given.nodes, 1, u64::from(MAX_NODES))? as u8;
    Some((nodes, number_in(given.timeout, 1, MAX_TIMEOUT)?))
}

fn salvage(alloc: Global, given: &Given<'_>) -> Result<Option<Command>, NoMemory>
    ensures { IfOk result (λ read. read ≡ command_lines.salvage_of (command_words_given.given_behind given.now)) }
{
    if !takes_only(Takes::OPTIONS, given) {
        return Ok(None);
    }
    match (given.operand, sizes(given)) {
        (Some(operand), Some((nodes, timeout))) => Ok(Some(Command::Salvage {
            folder: folder(alloc, operand)?,
            nodes,
            timeout,
        })),
        _ => Ok(None),
    }
}

fn command_by(alloc: Global, word: &str, given: &Given<'_>) -> Result<Option<Command>, NoMemory>
    ensures { IfOk result (λ read. read ≡ command_lines.command_by word.now (command_words_given.given_behind given.now)) }
{
    if word == "run" {
        Ok(run(given))
    } else if word == "run-in" {
        run_in(alloc, given)
    } else if word == "gen" {
        Ok(generate(given))
    } else if word == "race" {
        Ok(race(given))
    } else if word == "upgrade" {
        upgrade(alloc, given)
    } else if word == "audit" {
        Ok(audit(given))
    } else if word == "salvage" {
        salvage(alloc, given)
    } else {
        Ok(None)
    }
}

fn command_found(alloc: Global, matches: &ArgMatches<'_>) -> Result<Option<Command>, NoMemory>
    ensures { IfOk result (λ read. read ≡ command_lines.command_in (rows_of (found_of matches.now))) }
{
    match value(matches, "command") {
        Some(word) => command_by(alloc, word, &all_given(matches)),
        None => Ok(None),
    }
}

/// The command of these words, which do not hold the program's name. Usage comes exactly where `clap` refuses the words, or no
/// command has the operand, flags and options that they give.
pub fn command_of(alloc: Global, words: &[String]) -> Result<Command, WordsRefused>
    ensures { meaning.Means (command_lines.command_of_words (map string_bytes words.now)) result }
{
    let matches = parsed(alloc, words)?;
    match command_found(alloc, &matches)? {
        Some(command) => Ok(command),
        None => Err(WordsRefused::Usage),
    }
}
