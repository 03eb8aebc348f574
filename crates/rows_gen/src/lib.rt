//! What the generator draws first.
#![tactic(auto)]

ghost use Rattle.std.specs.Prelude.{◌≡◌, ℕ, ◌+◌, [], ◌∷◌, ◌++◌, slice_get, codes};
ghost use Rattle.spec_gen.specs.Generator as generators;
ghost use Rattle.rows_gen.specs.GeneratedRows as generated_rows;

/// What is drawn first from 1, before a remainder is taken.
pub fn first_draws()
    ensures { generated_rows.draws_of (generated_rows.states_of 8 1) ≡ 16838 ∷ 5758 ∷ 10113 ∷ 17515 ∷ 31051 ∷ 5627 ∷ 23010 ∷ 7419 ∷ [] }
{}

/// The first turns from 1 stand on lines 9, 10 and 11.
pub fn first_turns()
    ensures first { slice_get (generators.gen_script 1).lines 7 ≡ Some (9, generated_rows.settle_first) }
    ensures second { slice_get (generators.gen_script 1).lines 8 ≡ Some (10, generated_rows.put_of_the_second) }
    ensures third { slice_get (generators.gen_script 1).lines 9 ≡ Some (11, generated_rows.keep_of_the_third) }
{}
