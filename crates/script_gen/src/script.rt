ghost use Rattle.std.specs.Prelude.{◌≡◌, ◌<◌, ◌≤◌, ◌+◌, ◌^◌, ◌∷◌, ◌++◌, [], IfOk, ℕ, length};
ghost use Rattle.ax_types.specs.declared.scripts.Line.TheVariants as line;
ghost use Rattle.ax_types.specs.declared.steps.Step.TheVariants as step;
ghost use Rattle.script_gen.specs.GeneratedLines as generated_lines;
ghost use Rattle.ax_types.specs.Places as lists;
ghost use Rattle.spec_gen.specs.Generator as generators;

use crate::draws::Draws;
use crate::turns::{client, node, turn};
use ax_types::limits::GENERATED_TURNS;
use ax_types::{ClientId, Line, List, NoMemory, NodeId, Script, Step};
use std::alloc::Global;

fn turn_count() -> u64
    ensures count { result ≡ generators.turn_count }
    ensures few { result ≤ 2000 }
{
    GENERATED_TURNS
}

/// Adds a line with its number, which is that of the lines before it and the cluster line.
fn add(lines: &mut List<(u64, Line)>, line: Line) -> Result<(), NoMemory>
    requires { length lines.old < 2 ^ 32 }
    ensures { IfOk result (λ _. lines.new ≡ lines.old ++ (length lines.old + 2, line) ∷ []) }
{
    let number = lines.len() as u64 + 2;
    lines.push((number, line))
}

/// `settle 1`
fn settle() -> Line
    ensures { result ≡ line.Settle 1 }
{
    Line::Settle(node(1))
}

/// `open C K`
fn open(client: ClientId, node: NodeId) -> Line
    ensures { result ≡ line.Do (step.Open client node) }
{
    Line::Do(Step::Open { client, node })
}

/// Adds the lines before the turns: a leader, and a session for each client.
fn add_first(lines: &mut List<(u64, Line)>) -> Result<(), NoMemory>
    requires { lines.old ≡ [] }
    ensures { IfOk result (λ _. lines.new ≡ lists.numbered 2 generators.set_up_lines) }
{
    add(lines, Line::Do(Step::Elect { node: node(1) }))?;
    add(lines, settle())?;
    add(lines, open(client(1), node(1)))?;
    add(lines, open(client(2), node(2)))?;
    add(lines, open(client(3), node(3)))?;
    add(lines, open(client(4), node(1)))?;
    add(lines, settle())
}

/// Adds the line of the turn with this number, and a `settle 1` behind every eighth.
fn add_turn(
    alloc: Global,
    number: u64,
    draws: &mut Draws,
    lines: &mut List<(u64, Line)>,
) -> Result<(), NoMemory>
    requires { length lines.old < 2 ^ 31 }
    ensures added { IfOk result (λ _. (left : ℕ) → generated_lines.with_lines lines.old (generators.turns (left + 1) number draws.old.state) ≡ generated_lines.with_lines lines.new (generators.turns left (number + 1) draws.new.state)) }
    ensures few { IfOk result (λ _. length lines.new ≤ length lines.old + 2) }
{
    let line = turn(alloc, draws)?;
    add(lines, line)?;
    if number % 8 == 0 {
        add(lines, settle())?;
        return Ok(());
    }
    Ok(())
}

/// Adds the lines of so many turns, and a `settle 1` at the end.
fn add_turns(
    alloc: Global,
    count: u64,
    seed: u32,
    lines: &mut List<(u64, Line)>,
) -> Result<(), NoMemory>
    requires few { count ≤ 2000 }
    requires small { seed < 2 ^ 31 }
    requires short { length lines.old ≤ 2000 }
    ensures { IfOk result (λ _. lines.new ≡ generated_lines.with_lines lines.old (generators.turns count 1 seed)) }
{
    let mut draws = Draws { state: seed };
    'turns: for number in 1..count + 1 {
        add_turn(alloc, number, &mut draws, lines)?;
    }
    add(lines, settle())?;
    Ok(())
}

/// The script of a seed; the cluster line is its first line.
pub fn gen_script(alloc: Global, seed: u32) -> Result<Script, NoMemory>
    requires { seed < 2 ^ 31 }
    ensures { IfOk result (λ script. script ≡ generators.gen_script seed) }
{
    let mut lines = List::new(alloc);
    add_first(&mut lines)?;
    add_turns(alloc, turn_count(), seed, &mut lines)?;
    let last_line = lines.len() as u64 + 1;
    Ok(Script {
        nodes: 3,
        clients: 4,
        timeout: 1_000_000,
        lines,
        callers: List::new(alloc),
        plan: List::new(alloc),
        feeds: List::new(alloc),
        last_line,
    })
}
