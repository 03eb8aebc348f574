ghost use Rattle.std.specs.Prelude.{◌≡◌, IfOk, Some, None, ◌-◌, ◌≤◌, ◌+◌, option_map, slice_index, if◌then◌else◌};
ghost use Rattle.spec_script.specs.Scripts as scripts;
ghost use Rattle.spec_text.specs.Words as text_words;
ghost use Rattle.spec_text.specs.OperationWords as operation_words;
ghost use Rattle.text_words.specs.Behind as behind;
ghost use Rattle.script_text.specs.Drafts as drafts;

use crate::drafts::Draft;
use crate::steps::{Sizes, client_and_watch, only_node, step};
use ax_types::limits::{MAX_CALLERS, MAX_CALLS, MAX_CLIENTS, MAX_FEEDS, MAX_NODES, MAX_ROUND};
use ax_types::{CallerLine, ClientId, Line, List, NoMemory, NodeId, Script, Step, WindowCall};
use std::alloc::Global;
use text_words::{call, client, is, node, number, timeout, without_operands};

fn new_draft(alloc: Global, nodes: NodeId, clients: ClientId, timeout: u64) -> Draft
    ensures { drafts.draft_of result ≡ scripts.new_draft nodes clients timeout }
{
    Draft {
        script: Script {
            nodes: nodes.number(),
            clients: clients.number(),
            timeout,
            lines: List::new(alloc),
            callers: List::new(alloc),
            plan: List::new(alloc),
            feeds: List::new(alloc),
            last_line: 0,
        },
        callers: 0,
        totals: [0; MAX_CALLERS],
    }
}

fn is_cluster_line(a: &[u8], b: &[u8], c: &[u8]) -> bool
    ensures { result ≡ scripts.is_cluster_line a.now b.now c.now }
{
    is(a, "cluster") && (is(b, "clients") && is(c, "timeout"))
}

fn sized_draft(alloc: Global, n: &[u8], m: &[u8], t: &[u8]) -> Option<Draft>
    ensures { option_map drafts.draft_of result ≡ scripts.sized_draft n.now m.now t.now }
{
    let nodes = node(n, MAX_NODES)?;
    let clients = client(m, MAX_CLIENTS)?;
    Some(new_draft(alloc, nodes, clients, timeout(t)?))
}

/// The draft of a cluster line, `cluster N clients M timeout T`; `None` exactly where the words are none.
pub fn cluster(alloc: Global, words: &[&[u8]]) -> Option<Draft>
    ensures { option_map drafts.draft_of result ≡ scripts.cluster_draft (behind.words_behind words.now) }
{
    match words {
        [a, n, b, m, c, t] => {
            if is_cluster_line(a, b, c) {
                sized_draft(alloc, n, m, t)
            } else {
                None
            }
        }
        _ => None,
    }
}

fn sizes(draft: &Draft) -> Sizes
    ensures nodes { result.nodes ≡ draft.now.script.nodes }
    ensures clients { result.clients ≡ draft.now.script.clients }
{
    Sizes {
        nodes: draft.script.nodes,
        clients: draft.script.clients,
    }
}

/// A line that `run` takes, behind the cluster line.
fn line(alloc: Global, words: &[&[u8]], sizes: Sizes) -> Result<Option<Line>, NoMemory>
    ensures { IfOk result (λ read. read ≡ scripts.line_of sizes.nodes sizes.clients (behind.words_behind words.now)) }
{
    let Some((word, rest)) = words.split_first() else {
        return Ok(None);
    };
    if is(word, "flush") {
        Ok(without_operands(Line::Flush, rest))
    } else if is(word, "settle") {
        Ok(only_node(rest, sizes).map(Line::Settle))
    } else {
        Ok(step(alloc, words, sizes)?.map(Line::Do))
    }
}

/// Whether lines have come that only `race` takes.
fn is_set_up(script: &Script) -> bool
    ensures { result ≡ scripts.is_set_up script.now }
{
    !(script.callers.is_empty() && (script.plan.is_empty() && script.feeds.is_empty()))
}

fn set_up_line(
    alloc: Global,
    number: u64,
    words: &[&[u8]],
    draft: &mut Draft,
) -> Result<bool, NoMemory>
    ensures { IfOk result (λ read. drafts.Leaves (scripts.after_set_up_line number (behind.words_behind words.now) (drafts.draft_of draft.old)) read draft.new) }
{
    if is_set_up(&draft.script) {
        return Ok(false);
    }
    match line(alloc, words, sizes(draft))? {
        Some(line) => {
            draft.script.lines.push((number, line))?;
            Ok(true)
        }
        None => Ok(false),
    }
}

fn caller_number(word: &[u8], draft: &Draft) -> Option<u8>
    ensures { result ≡ scripts.caller_of (drafts.draft_of draft.now) word.now }
{
    Some(number(
        word,
        1,
        (MAX_CALLERS as u64).min(u64::from(draft.callers) + 1),
    )? as u8)
}

fn call_count(word: &[u8], total: u64) -> Option<u64>
    ensures { result ≡ text_words.number_within 1 (10000 - total) word.now }
{
    number(word, 1, MAX_CALLS.saturating_sub(total))
}

fn add_caller(
    number: u64,
    draft: &mut Draft,
    caller: u8,
    count: u64,
    call: WindowCall,
) -> Result<(), NoMemory>
    requires first { 1 ≤ caller }
    requires last { caller ≤ 16 }
    requires fits { slice_index draft.old.totals (caller - 1) + count ≤ 10000 }
    ensures { IfOk result (λ _. drafts.draft_of draft.new ≡ scripts.with_caller number (drafts.draft_of draft.old) caller count call) }
{
    draft.script.callers.push(CallerLine {
        line: number,
        caller,
        count,
        call,
    })?;
    draft.callers = draft.callers.max(caller);
    draft.totals[caller as usize - 1] += count;
    Ok(())
}

fn calls_of_caller(
    alloc: Global,
    number: u64,
    caller: u8,
    count_word: &[u8],
    words: &[&[u8]],
    draft: &mut Draft,
) -> Result<bool, NoMemory>
    requires first { 1 ≤ caller }
    requires last { caller ≤ 16 }
    ensures { IfOk result (λ read. drafts.Leaves (text_words.both (scripts.with_caller number (drafts.draft_of draft.old) caller) (scripts.count_of (drafts.draft_of draft.old) caller count_word.now) (operation_words.call_of (behind.words_behind words.now))) read draft.new) }
{
    let Some(count) = call_count(count_word, draft.totals[caller as usize - 1]) else {
        return Ok(false);
    };
    match call(alloc, words)? {
        Some(call) => {
            add_caller(number, draft, caller, count, call)?;
            Ok(true)
        }
        None => Ok(false),
    }
}

fn caller_line(
    alloc: Global,
    number: u64,
    words: &[&[u8]],
    draft: &mut Draft,
) -> Result<bool, NoMemory>
    ensures { IfOk result (λ read. drafts.Leaves (scripts.after_caller number (behind.words_behind words.now) (drafts.draft_of draft.old)) read draft.new) }
{
    match words {
        [i, n, rest @ ..] => match caller_number(i, draft) {
            Some(caller) => calls_of_caller(alloc, number, caller, n, rest, draft),
            None => Ok(false),
        },
        _ => Ok(false),
    }
}

/// Whether a step may stand behind `at R`.
fn is_planned(step: &Step) -> bool
    ensures { result ≡ scripts.is_planned step.now }
{
    match step {
        Step::Elect { .. }
        | Step::Beat { .. }
        | Step::Crash { .. }
        | Step::Start { .. }
        | Step::Clock { .. }
        | Step::Expire { .. }
        | Step::Cut { .. }
        | Step::Join { .. } => true,
        Step::Switch { client, .. } => client.number() == 1,
        Step::Keep { client } => client.number() == 1,
        _ => false,
    }
}

fn plan_step(draft: &mut Draft, round: u64, step: Step) -> Result<bool, NoMemory>
    ensures { IfOk result (λ read. drafts.Leaves (option_map (scripts.with_plan (drafts.draft_of draft.old) round) (scripts.planned step)) read draft.new) }
{
    if is_planned(&step) {
        draft.script.plan.push((round, step))?;
        Ok(true)
    } else {
        Ok(false)
    }
}

fn plan_line(alloc: Global, words: &[&[u8]], draft: &mut Draft) -> Result<bool, NoMemory>
    ensures { IfOk result (λ read. drafts.Leaves (scripts.after_plan (behind.words_behind words.now) (drafts.draft_of draft.old)) read draft.new) }
{
    let Some((word, rest)) = words.split_first() else {
        return Ok(false);
    };
    let Some(round) = number(word, 1, MAX_ROUND) else {
        return Ok(false);
    };
    match step(alloc, rest, sizes(draft))? {
        Some(step) => plan_step(draft, round, step),
        None => Ok(false),
    }
}

fn feed_line(words: &[&[u8]], draft: &mut Draft) -> Result<bool, NoMemory>
    ensures { IfOk result (λ read. drafts.Leaves (scripts.after_feed (behind.words_behind words.now) (drafts.draft_of draft.old)) read draft.new) }
{
    if draft.script.feeds.len() >= MAX_FEEDS {
        return Ok(false);
    }
    match client_and_watch(words, sizes(draft)) {
        Some(feed) => {
            draft.script.feeds.push(feed)?;
            Ok(true)
        }
        None => Ok(false),
    }
}

fn race_line(
    alloc: Global,
    number: u64,
    words: &[&[u8]],
    draft: &mut Draft,
) -> Result<bool, NoMemory>
    ensures { IfOk result (λ read. drafts.Leaves (scripts.after_race_line number (behind.words_behind words.now) (drafts.draft_of draft.old)) read draft.new) }
{
    let Some((word, rest)) = words.split_first() else {
        return Ok(false);
    };
    if is(word, "caller") {
        caller_line(alloc, number, rest, draft)
    } else if is(word, "at") {
        plan_line(alloc, rest, draft)
    } else if is(word, "feed") {
        feed_line(rest, draft)
    } else {
        set_up_line(alloc, number, words, draft)
    }
}

fn later_line(
    alloc: Global,
    race: bool,
    number: u64,
    words: &[&[u8]],
    draft: &mut Draft,
) -> Result<bool, NoMemory>
    ensures { IfOk result (λ read. drafts.Leaves (if race then scripts.after_race_line number (behind.words_behind words.now) (drafts.draft_of draft.old) else scripts.after_set_up_line number (behind.words_behind words.now) (drafts.draft_of draft.old)) read draft.new) }
{
    if race {
        race_line(alloc, number, words, draft)
    } else {
        set_up_line(alloc, number, words, draft)
    }
}

/// Reads a line with words behind the cluster line; `false` exactly where it is none of the grammar.
pub fn words_line(
    alloc: Global,
    race: bool,
    number: u64,
    words: &[&[u8]],
    draft: &mut Draft,
) -> Result<bool, NoMemory>
    ensures { IfOk result (λ read. drafts.Leaves (scripts.after_words race number (behind.words_behind words.now) (drafts.draft_of draft.old)) read draft.new) }
{
    if later_line(alloc, race, number, words, draft)? {
        draft.script.last_line = number;
        Ok(true)
    } else {
        Ok(false)
    }
}
