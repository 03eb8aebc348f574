ghost use Rattle.std.specs.Prelude.{◌≡◌, OnOk, IfSome, string_bytes, ◌++◌, ◌∷◌, []};
ghost use Rattle.spec_report.specs.CallLines as call_lines;

use ax_types::NoMemory;
use std::fmt::Display;

/// A blank.
pub fn blank(line: &mut String) -> Result<(), NoMemory>
    ensures { OnOk result (string_bytes line.new ≡ string_bytes line.old ++ (32 ∷ [])) }
{
    Ok(line.push_str(" ")?)
}

/// A word alone.
pub fn word(line: &mut String, word: &str) -> Result<(), NoMemory>
    ensures { OnOk result (string_bytes line.new ≡ string_bytes line.old ++ word.now) }
{
    Ok(line.push_str(word)?)
}

/// A word and an operand, with one blank between.
pub fn one_operand<X: Display + Drop>(line: &mut String, word: &str, x: X) -> Result<(), NoMemory>
    ensures { OnOk result (IfSome (X.output x)
        (λ a. string_bytes line.new ≡ string_bytes line.old ++ call_lines.one_operand word.now a)) }
{
    Ok(write!(line, "{word} {x}")?)
}

/// A word and two operands, with one blank between.
pub fn two_operands<X: Display + Drop, Y: Display + Drop>(
    line: &mut String,
    word: &str,
    x: X,
    y: Y,
) -> Result<(), NoMemory>
    ensures { OnOk result (IfSome (X.output x) (λ a. IfSome (Y.output y)
        (λ b. string_bytes line.new ≡ string_bytes line.old ++ call_lines.two_operands word.now a b))) }
{
    Ok(write!(line, "{word} {x} {y}")?)
}

/// A word and three operands, with one blank between.
pub fn three_operands<X: Display + Drop, Y: Display + Drop, Z: Display + Drop>(
    line: &mut String,
    word: &str,
    x: X,
    y: Y,
    z: Z,
) -> Result<(), NoMemory>
    ensures { OnOk result (IfSome (X.output x) (λ a. IfSome (Y.output y) (λ b. IfSome (Z.output z)
        (λ c. string_bytes line.new ≡ string_bytes line.old ++ call_lines.three_operands word.now a b c)))) }
{
    Ok(write!(line, "{word} {x} {y} {z}")?)
}
