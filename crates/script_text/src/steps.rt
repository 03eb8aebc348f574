ghost use Rattle.std.specs.Prelude.{◌≡◌, ◌≤◌, IfOk, ◌∷◌, [], Some, None};
ghost use Rattle.spec_text.specs.Words as text_words;
ghost use Rattle.spec_script.specs.StepLines as step_lines;
ghost use Rattle.text_words.specs.Behind as behind;

use ax_types::{ClientId, End, NoMemory, NodeId, Step, WatchKind, WindowCall};
use std::alloc::Global;
use text_words::{
    client, command_call, is, leveled_call, node, packet_number, time, without_operands,
};

/// How many nodes and clients a cluster has.
#[derive(Clone, Copy)]
pub struct Sizes {
    pub nodes: u8,
    pub clients: u8,
    ghost nodes_fit: { nodes ≤ 9 },
    ghost clients_fit: { clients ≤ 16 },
}

pub fn only_node(words: &[&[u8]], sizes: Sizes) -> Option<NodeId>
    ensures { result ≡ step_lines.only_node sizes.nodes (behind.words_behind words.now) }
{
    match words {
        [k] => node(k, sizes.nodes),
        _ => None,
    }
}

fn node_and_time(words: &[&[u8]], sizes: Sizes) -> Option<(NodeId, u64)>
    ensures { result ≡ step_lines.node_and_time sizes.nodes (behind.words_behind words.now) }
{
    match words {
        [k, t] => Some((node(k, sizes.nodes)?, time(t)?)),
        _ => None,
    }
}

fn only_number(words: &[&[u8]]) -> Option<u64>
    ensures { result ≡ step_lines.only_number (behind.words_behind words.now) }
{
    match words {
        [p] => packet_number(p),
        _ => None,
    }
}

fn number_and_bytes(words: &[&[u8]]) -> Option<(u64, u64)>
    ensures { result ≡ step_lines.number_and_bytes (behind.words_behind words.now) }
{
    match words {
        [p, b] => Some((packet_number(p)?, packet_number(b)?)),
        _ => None,
    }
}

fn only_client(words: &[&[u8]], sizes: Sizes) -> Option<ClientId>
    ensures { result ≡ step_lines.only_client sizes.clients (behind.words_behind words.now) }
{
    match words {
        [c] => client(c, sizes.clients),
        _ => None,
    }
}

fn client_and_node(words: &[&[u8]], sizes: Sizes) -> Option<(ClientId, NodeId)>
    ensures { result ≡ step_lines.client_and_node sizes.nodes sizes.clients (behind.words_behind words.now) }
{
    match words {
        [c, k] => Some((client(c, sizes.clients)?, node(k, sizes.nodes)?)),
        _ => None,
    }
}

/// What a watch is of; `None` exactly where the word is none of `all`, `changes` and `grants`.
pub fn watch_kind(word: &[u8]) -> Option<WatchKind>
    ensures { result ≡ step_lines.watch_kind_of word.now }
{
    if is(word, "all") {
        Some(WatchKind::All)
    } else if is(word, "changes") {
        Some(WatchKind::Changes)
    } else if is(word, "grants") {
        Some(WatchKind::Grants)
    } else {
        None
    }
}

pub fn client_and_watch(words: &[&[u8]], sizes: Sizes) -> Option<(ClientId, WatchKind)>
    ensures { result ≡ step_lines.client_and_watch sizes.clients (behind.words_behind words.now) }
{
    match words {
        [c, kind] => Some((client(c, sizes.clients)?, watch_kind(kind)?)),
        _ => None,
    }
}

/// An end of a link, `nK` or `cC`.
fn end(word: &[u8], sizes: Sizes) -> Option<End>
    ensures { result ≡ step_lines.end_of sizes.nodes sizes.clients word.now }
{
    let (first, rest) = word.split_first()?;
    if *first == b'n' {
        Some(End::Node(node(rest, sizes.nodes)?))
    } else if *first == b'c' {
        Some(End::Client(client(rest, sizes.clients)?))
    } else {
        None
    }
}

/// Whether the ends differ and not both are clients.
fn is_link(one: &End, other: &End) -> bool
    ensures { result ≡ step_lines.is_link one.now other.now }
{
    match one {
        End::Node(a) => match other {
            End::Node(b) => a.number() != b.number(),
            End::Client(_) => true,
        },
        End::Client(_) => match other {
            End::Node(_) => true,
            End::Client(_) => false,
        },
    }
}

fn link_of_ends(one: End, other: End) -> Option<(End, End)>
    ensures { result ≡ step_lines.link_between one other }
{
    if is_link(&one, &other) {
        Some((one, other))
    } else {
        None
    }
}

fn link(words: &[&[u8]], sizes: Sizes) -> Option<(End, End)>
    ensures { result ≡ step_lines.link_of sizes.nodes sizes.clients (behind.words_behind words.now) }
{
    match words {
        [e, f] => link_of_ends(end(e, sizes)?, end(f, sizes)?),
        _ => None,
    }
}

fn node_step(words: &[&[u8]], sizes: Sizes) -> Option<Step>
    ensures { result ≡ step_lines.node_step_of sizes.nodes (behind.words_behind words.now) }
{
    let (word, rest) = words.split_first()?;
    if is(word, "elect") {
        only_node(rest, sizes).map(|node| Step::Elect { node })
    } else if is(word, "beat") {
        only_node(rest, sizes).map(|node| Step::Beat { node })
    } else if is(word, "crash") {
        only_node(rest, sizes).map(|node| Step::Crash { node })
    } else if is(word, "start") {
        only_node(rest, sizes).map(|node| Step::Start { node })
    } else if is(word, "expire") {
        only_node(rest, sizes).map(|node| Step::Expire { node })
    } else if is(word, "clock") {
        node_and_time(rest, sizes).map(|(node, time)| Step::Clock { node, time })
    } else {
        None
    }
}

fn network_step(words: &[&[u8]], sizes: Sizes) -> Option<Step>
    ensures { result ≡ step_lines.network_step_of sizes.nodes sizes.clients (behind.words_behind words.now) }
{
    let (word, rest) = words.split_first()?;
    if is(word, "cut") {
        link(rest, sizes).map(|(one, other)| Step::Cut { one, other })
    } else if is(word, "join") {
        link(rest, sizes).map(|(one, other)| Step::Join { one, other })
    } else if is(word, "deliver") {
        only_number(rest).map(|number| Step::Deliver { number })
    } else if is(word, "drop") {
        only_number(rest).map(|number| Step::Drop { number })
    } else if is(word, "short") {
        number_and_bytes(rest).map(|(number, bytes)| Step::Short { number, bytes })
    } else if is(word, "list") {
        without_operands(Step::List, rest)
    } else {
        None
    }
}

fn client_step(words: &[&[u8]], sizes: Sizes) -> Option<Step>
    ensures { result ≡ step_lines.client_step_of sizes.nodes sizes.clients (behind.words_behind words.now) }
{
    let (word, rest) = words.split_first()?;
    if is(word, "open") {
        client_and_node(rest, sizes).map(|(client, node)| Step::Open { client, node })
    } else if is(word, "switch") {
        client_and_node(rest, sizes).map(|(client, node)| Step::Switch { client, node })
    } else if is(word, "resend") {
        only_client(rest, sizes).map(|client| Step::Resend { client })
    } else if is(word, "keep") {
        only_client(rest, sizes).map(|client| Step::Keep { client })
    } else if is(word, "close") {
        only_client(rest, sizes).map(|client| Step::Close { client })
    } else if is(word, "watch") {
        client_and_watch(rest, sizes).map(|(client, kind)| Step::Watch { client, kind })
    } else {
        None
    }
}

/// A client's call as a step.
fn made_call(client: ClientId, call: WindowCall) -> Step
    ensures { result ≡ step_lines.made_call client call }
{
    match call {
        WindowCall::Command { name, op } => Step::Call { client, name, op },
        WindowCall::Query { level, name, query } => Step::Query {
            client,
            level,
            name,
            query,
        },
    }
}

fn called(client: Option<ClientId>, call: Option<WindowCall>) -> Option<Step>
    ensures { result ≡ text_words.both step_lines.made_call client call }
{
    Some(made_call(client?, call?))
}

fn call_step(alloc: Global, words: &[&[u8]], sizes: Sizes) -> Result<Option<Step>, NoMemory>
    ensures { IfOk result (λ read. read ≡ step_lines.call_step_of sizes.clients (behind.words_behind words.now)) }
{
    match words {
        [word, c, rest @ ..] => {
            if is(word, "call") {
                Ok(called(client(c, sizes.clients), command_call(alloc, rest)?))
            } else if is(word, "query") {
                Ok(called(client(c, sizes.clients), leveled_call(alloc, rest)?))
            } else {
                Ok(None)
            }
        }
        _ => Ok(None),
    }
}

/// The step of these words, in a cluster of these sizes; `None` exactly where they are no step.
pub fn step(alloc: Global, words: &[&[u8]], sizes: Sizes) -> Result<Option<Step>, NoMemory>
    ensures { IfOk result (λ read. read ≡ step_lines.step_of sizes.nodes sizes.clients (behind.words_behind words.now)) }
{
    if let Some(step) = node_step(words, sizes) {
        return Ok(Some(step));
    }
    if let Some(step) = network_step(words, sizes) {
        return Ok(Some(step));
    }
    if let Some(step) = client_step(words, sizes) {
        return Ok(Some(step));
    }
    call_step(alloc, words, sizes)
}
