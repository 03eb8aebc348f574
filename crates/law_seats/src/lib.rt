//! The laws of the clients of a run: as long as what the network keeps for them is true, what they show is as claimed.
#![tactic(auto)]

ghost use Rattle.law_seats.specs.Seats as seats;

/// Each step keeps how the clients stand, and its items are as claimed.
pub fn each_step_seats()
    ensures { seats.EachStepSeats }
{}

/// What the clients of a run show is as claimed of any history of which what was kept for them was true before each step.
pub fn runs_are_claimed()
    ensures { seats.RunsAreClaimed }
{}
