//! The headline, as a program that makes the steps of a run says it: of each world that steps led to, and of a script's run.
#![tactic(auto)]

ghost use Rattle.law_headline.specs.Headline as laws;

/// From empty stores a run begins, and each step that the stores may have fared so in goes on with it.
pub fn runs_go_on()
    ensures begin { laws.RunsBegin }
    ensures go_on { laws.RunsGoOn }
{}

/// What a run shows is faithful to its history and hands out once, and the stores keep the history; and so after each step more.
pub fn runs_stand()
    ensures run { laws.RunsStand }
    ensures step { laws.StepsStand }
{}

/// A script in hand of which nothing is left, or of which as many steps were made as a run may have, is run to its end.
pub fn scripts_end()
    ensures { laws.ScriptsEnd }
{}

/// What is written of a script's run to its end is the report of items that are faithful to its history and hand out once, and the
/// stores keep the history.
pub fn reports_stand()
    ensures { laws.ReportsStand }
{}
