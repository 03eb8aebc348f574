//! Scripts are read as they are written.
#![tactic(auto)]

ghost use Rattle.law_script.specs.ScriptsWithin as scripts_within;
ghost use Rattle.law_script.specs.StepsReadBack as steps_read_back;

/// A word is read as a number of 64 bits exactly where it is that number in decimal: no sign, no leading zero, no other byte.
pub fn number_is_decimal()
    ensures { steps_read_back.NumberIsDecimal }
{}

/// The text of a step is read as that step, in a cluster that has its nodes and clients, where its numbers are within their limits
/// and the ends of a link differ and are not both clients.
pub fn step_is_read_back()
    ensures { steps_read_back.StepIsReadBack }
{}

/// A script that is read has a cluster within its limits: 1 to 9 nodes, at most 16 clients, and a timeout of 1 to 1,000,000,000.
pub fn scripts_are_within()
    ensures { scripts_within.ScriptsAreWithin }
{}
