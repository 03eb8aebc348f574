ghost use Rattle.std.specs.Prelude.{◌≡◌, OnOk, string_bytes, ◌++◌};
ghost use Rattle.spec_script.specs.StepLines as step_lines;

use ax_types::{NoMemory, Step};
use report_text::{
    blank, level_text, one_operand, two_operands, watch_text, word, write_op, write_query,
};

/// Appends the words of a step's line. After want of memory the line may have a part of them.
pub fn write_step(line: &mut String, step: &Step) -> Result<(), NoMemory>
    ensures { OnOk result (string_bytes line.new ≡ string_bytes line.old ++ step_lines.step_text step.now) }
{
    match step {
        Step::Elect { node } => one_operand(line, "elect", *node),
        Step::Beat { node } => one_operand(line, "beat", *node),
        Step::Crash { node } => one_operand(line, "crash", *node),
        Step::Start { node } => one_operand(line, "start", *node),
        Step::Clock { node, time } => two_operands(line, "clock", *node, *time),
        Step::Expire { node } => one_operand(line, "expire", *node),
        Step::Cut { one, other } => two_operands(line, "cut", *one, *other),
        Step::Join { one, other } => two_operands(line, "join", *one, *other),
        Step::Deliver { number } => one_operand(line, "deliver", *number),
        Step::Drop { number } => one_operand(line, "drop", *number),
        Step::Short { number, bytes } => two_operands(line, "short", *number, *bytes),
        Step::List => word(line, "list"),
        Step::Open { client, node } => two_operands(line, "open", *client, *node),
        Step::Switch { client, node } => two_operands(line, "switch", *client, *node),
        Step::Resend { client } => one_operand(line, "resend", *client),
        Step::Keep { client } => one_operand(line, "keep", *client),
        Step::Close { client } => one_operand(line, "close", *client),
        Step::Watch { client, kind } => two_operands(line, "watch", *client, watch_text(*kind)),
        Step::Call { client, name, op } => {
            one_operand(line, "call", *client)?;
            blank(line)?;
            write_op(line, name, op)
        }
        Step::Query {
            client,
            level,
            name,
            query,
        } => {
            two_operands(line, "query", *client, level_text(*level))?;
            blank(line)?;
            write_query(line, name, query)
        }
    }
}
