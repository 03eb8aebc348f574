ghost use Rattle.std.specs.Prelude.{◌≡◌, ◌<◌, ◌≤◌, ◌+◌, ◌∷◌, ◌++◌, IfOk, IsTrue, string_bytes};
ghost use Rattle.std.specs.Fmt.{decimal};
ghost use Rattle.ax_types.specs.Letters as letters;
ghost use Rattle.ax_types.specs.declared.scripts.Line.TheVariants as line;
ghost use Rattle.ax_types.specs.declared.steps.Step.TheVariants as step;
ghost use Rattle.spec_gen.specs.Generator as generators;
ghost use Rattle.script_gen.specs.Deeds as deeds;

use crate::draws::Draws;
use ax_types::{
    ClientId, Key, Level, Line, LongOp, LongQuery, MapOp, MapQuery, Name, NoMemory, NodeId, Op,
    Query, Step, Text,
};
use std::alloc::Global;

fn name(alloc: Global, text: &str) -> Result<Name, NoMemory>
    requires { IsTrue (letters.is_name text.now) }
    ensures { IfOk result (λ name. name ≡ text.now) }
{
    match Name::read(alloc, text.as_bytes())? {
        Some(name) => Ok(name),
        None => unreachable!(),
    }
}

fn key(alloc: Global, text: &str) -> Result<Key, NoMemory>
    requires { IsTrue (letters.is_name text.now) }
    ensures { IfOk result (λ key. key ≡ text.now) }
{
    match Key::read(alloc, text.as_bytes())? {
        Some(key) => Ok(key),
        None => unreachable!(),
    }
}

fn text(alloc: Global, text: &str) -> Result<Text, NoMemory>
    requires { IsTrue (letters.is_text text.now) }
    ensures { IfOk result (λ value. value ≡ text.now) }
{
    match Text::read(alloc, text.as_bytes())? {
        Some(text) => Ok(text),
        None => unreachable!(),
    }
}

/// `kI`
#[tactic(auto, using(crate::proofs::Digits::key_of_number))]
fn numbered_key(alloc: Global, number: u32) -> Result<Key, NoMemory>
    ensures { IfOk result (λ key. key ≡ 107 ∷ decimal number) }
{
    let text = format!(in alloc; "k{number}")?;
    key(alloc, text.as_str())
}

/// `vJ`
#[tactic(auto, using(crate::proofs::Digits::text_of_number))]
fn numbered_text(alloc: Global, number: u32) -> Result<Text, NoMemory>
    ensures { IfOk result (λ text. text ≡ 118 ∷ decimal number) }
{
    let value = format!(in alloc; "v{number}")?;
    text(alloc, value.as_str())
}

/// The node with this number.
pub fn node(number: u8) -> NodeId
    requires first { 1 ≤ number }
    requires last { number ≤ 9 }
    ensures { result ≡ number }
{
    match NodeId::new(number) {
        Some(node) => node,
        None => unreachable!(),
    }
}

/// The client with this number.
pub fn client(number: u8) -> ClientId
    requires first { 1 ≤ number }
    requires last { number ≤ 16 }
    ensures { result ≡ number }
{
    match ClientId::new(number) {
        Some(client) => client,
        None => unreachable!(),
    }
}

/// `call C long n add V`
fn add_line(alloc: Global, client: ClientId, value: u32) -> Result<Line, NoMemory>
    ensures { IfOk result (λ line. line ≡ generators.add_line client value) }
{
    Ok(Line::Do(Step::Call {
        client,
        name: name(alloc, "n")?,
        op: Op::Long(LongOp::Add {
            delta: i64::from(value),
        }),
    }))
}

/// `call C map m put kI vJ`
fn put_line(alloc: Global, client: ClientId, key_number: u32, value: u32) -> Result<Line, NoMemory>
    ensures { IfOk result (λ line. line ≡ generators.put_line client key_number value) }
{
    Ok(Line::Do(Step::Call {
        client,
        name: name(alloc, "m")?,
        op: Op::Map(MapOp::Put {
            key: numbered_key(alloc, key_number)?,
            text: numbered_text(alloc, value)?,
        }),
    }))
}

/// `query C seq map m get kI`
fn get_line(alloc: Global, client: ClientId, key_number: u32) -> Result<Line, NoMemory>
    ensures { IfOk result (λ line. line ≡ generators.get_line client key_number) }
{
    Ok(Line::Do(Step::Query {
        client,
        level: Level::Seq,
        name: name(alloc, "m")?,
        query: Query::Map(MapQuery::Get {
            key: numbered_key(alloc, key_number)?,
        }),
    }))
}

/// `query C lin long n get`
fn fresh_line(alloc: Global, client: ClientId) -> Result<Line, NoMemory>
    ensures { IfOk result (λ line. line ≡ generators.fresh_line client) }
{
    Ok(Line::Do(Step::Query {
        client,
        level: Level::Lin,
        name: name(alloc, "n")?,
        query: Query::Long(LongQuery::Get),
    }))
}

/// What a client does in its turn.
#[derive(Clone, Copy)]
enum Deed {
    Add,
    Put,
    Get,
    Fresh,
    Settle,
    Keep,
}

impl Deed {
    /// What the number that was drawn for it stands for.
    fn of(number: u32) -> Deed
        ensures { result ≡ deeds.deed_of number }
    {
        match number {
            0..=3 => Deed::Add,
            4..=5 => Deed::Put,
            6 => Deed::Get,
            7 => Deed::Fresh,
            8 => Deed::Settle,
            _ => Deed::Keep,
        }
    }
}

/// The line of a client that does this in its turn.
fn deed_line(
    alloc: Global,
    client: ClientId,
    deed: Deed,
    draws: &mut Draws,
) -> Result<Line, NoMemory>
    ensures { IfOk result (λ line. deeds.turn_doing client deed draws.old.state ≡ record { line = line; state = draws.new.state }) }
{
    match deed {
        Deed::Add => add_line(alloc, client, draws.draw(100)),
        Deed::Put => {
            let key = draws.draw(20);
            let value = draws.draw(100);
            put_line(alloc, client, key, value)
        }
        Deed::Get => get_line(alloc, client, draws.draw(20)),
        Deed::Fresh => fresh_line(alloc, client),
        Deed::Settle => Ok(Line::Settle(node(1))),
        Deed::Keep => Ok(Line::Do(Step::Keep { client })),
    }
}

/// The line of a turn: it draws its client, what it does, and the numbers that it needs.
#[tactic(auto, using(crate::proofs::Deeds::turn_for_number))]
pub fn turn(alloc: Global, draws: &mut Draws) -> Result<Line, NoMemory>
    ensures { IfOk result (λ line. generators.drawn_turn draws.old.state ≡ record { line = line; state = draws.new.state }) }
{
    let client = client(1 + draws.draw(4) as u8);
    let deed = Deed::of(draws.draw(10));
    deed_line(alloc, client, deed, draws)
}
