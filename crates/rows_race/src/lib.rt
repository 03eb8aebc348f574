//! Worked races.
#![tactic(auto)]

ghost use Rattle.std.specs.Prelude.{◌≡◌, ℕ, Bool, true, [], ◌∷◌, ◌++◌};
ghost use Rattle.spec_claims.specs.Transcript as transcripts;
ghost use Rattle.spec_run.specs.Run as runs;
ghost use Rattle.spec_race.specs.Race as races;
ghost use Rattle.rows_race.specs.RaceRows as race_rows;

/// A race of one caller with one call on one node: its set-up, and its one round.
pub fn one_caller_row()
    ensures setup { runs.unfolded race_rows.small_world (runs.works_of race_rows.setup_lines) race_rows.five_fine ≡ race_rows.setup_steps }
    ensures starts { races.may_start race_rows.set_up ≡ true }
    ensures told { races.caller_lines 2 (races.calls_before race_rows.set_up) (transcripts.transcript (runs.ran race_rows.set_up race_rows.round_steps).shown) (0 ∷ []) ≡ race_rows.first_line ∷ [] }
    ensures round { races.raced [] (race_rows.set_up_with ((race_rows.one_call ∷ []) ∷ [])) (race_rows.five_fine ++ race_rows.five_fine) ≡ race_rows.round_steps }
{}

/// Its steps are those of a race of the script.
pub fn one_caller_race()
    ensures { races.IsRace race_rows.small_race (race_rows.one_call ∷ []) (race_rows.setup_steps ++ race_rows.round_steps) }
{}

/// Where the only node crashes in round 1 the pump stops after 64 rounds that gave no outcome, and the call is left open.
pub fn dead_rounds_row()
    ensures steps { races.raced race_rows.crash_plan (race_rows.set_up_with race_rows.dead_takes) race_rows.many_fine ≡ race_rows.dead_steps }
    ensures told { races.unanswered_items 2 (transcripts.transcript (runs.ran race_rows.set_up race_rows.dead_steps).shown) ≡ race_rows.dead_outcomes }
{}
