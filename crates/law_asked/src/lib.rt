//! The laws of the requests of a run: what is under way, in a log or kept by a store is what a client said.
#![tactic(auto)]

ghost use Rattle.law_asked.specs.Asked as asked;

/// What a client said stays said, whatever step is made.
pub fn said_stays()
    ensures { asked.SaidStays }
{}

/// Each step keeps that each request under way and in a log is one of its client.
pub fn each_step_says()
    ensures { asked.EachStepSays }
{}

/// So it is after each run, of any history of which what was kept for clients was true before each step.
pub fn runs_are_said()
    ensures { asked.RunsAreSaid }
{}

/// What is committed is what a client said, and each step keeps that.
pub fn committed_says()
    ensures { asked.EachStepCommits }
{}
