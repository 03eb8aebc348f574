//! Worked command lines.
#![tactic(auto)]

ghost use Rattle.std.specs.Prelude.{◌≡◌, ◌∷◌, [], Some, None, true, false, codes};
ghost use Rattle.ax_types.specs.declared.scripts.Command.TheVariants as command;
ghost use Rattle.spec_command.specs.CommandLine as command_lines;

/// Words of each command.
pub fn accepted_words()
    ensures run { command_lines.command_of_words (codes "run" ∷ []) ≡ Some (command.Run false) }
    ensures run_json { command_lines.command_of_words (codes "--json" ∷ codes "run" ∷ []) ≡ Some (command.Run true) }
    ensures run_in { command_lines.command_of_words (codes "run-in" ∷ codes "d" ∷ codes "--json" ∷ []) ≡ Some (command.RunIn (codes "d") true) }
    ensures generate { command_lines.command_of_words (codes "gen" ∷ codes "2147483647" ∷ []) ≡ Some (command.Gen 2147483647) }
    ensures race { command_lines.command_of_words (codes "race" ∷ codes "--steps" ∷ []) ≡ Some (command.Race true) }
    ensures upgrade { command_lines.command_of_words (codes "upgrade" ∷ codes "x" ∷ []) ≡ Some (command.Upgrade (codes "x")) }
    ensures audit { command_lines.command_of_words (codes "audit" ∷ codes "1000" ∷ []) ≡ Some (command.Audit 1000) }
    ensures salvage { command_lines.command_of_words (codes "salvage" ∷ codes "x" ∷ codes "--nodes" ∷ codes "3" ∷ codes "--timeout=1000" ∷ []) ≡ Some (command.Salvage (codes "x") 3 1000) }
{}

/// Words that no command has: an operand, a flag or an option too many or too few, a number outside its limits or spelled otherwise.
pub fn refused_words()
    ensures no_words { command_lines.command_of_words [] ≡ None }
    ensures unknown { command_lines.command_of_words (codes "walk" ∷ []) ≡ None }
    ensures extra_operand { command_lines.command_of_words (codes "run" ∷ codes "x" ∷ []) ≡ None }
    ensures missing_operand { command_lines.command_of_words (codes "run-in" ∷ []) ≡ None }
    ensures third_word { command_lines.command_of_words (codes "run-in" ∷ codes "a" ∷ codes "b" ∷ []) ≡ None }
    ensures wrong_flag { command_lines.command_of_words (codes "race" ∷ codes "--json" ∷ []) ≡ None }
    ensures flag_twice { command_lines.command_of_words (codes "run" ∷ codes "--json" ∷ codes "--json" ∷ []) ≡ None }
    ensures help { command_lines.command_of_words (codes "--help" ∷ []) ≡ None }
    ensures seed_too_great { command_lines.command_of_words (codes "gen" ∷ codes "2147483648" ∷ []) ≡ None }
    ensures leading_zero { command_lines.command_of_words (codes "gen" ∷ codes "01" ∷ []) ≡ None }
    ensures timeout_of_zero { command_lines.command_of_words (codes "audit" ∷ codes "0" ∷ []) ≡ None }
    ensures missing_option { command_lines.command_of_words (codes "salvage" ∷ codes "x" ∷ codes "--nodes" ∷ codes "3" ∷ []) ≡ None }
    ensures option_of_another { command_lines.command_of_words (codes "run" ∷ codes "--nodes" ∷ codes "3" ∷ []) ≡ None }
{}
