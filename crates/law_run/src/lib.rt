//! The laws of a script's run: what a loop over its lines, and within a line over its steps, keeps.
#![tactic(auto)]

ghost use Rattle.law_run.specs.InHand as laws;

/// Before its first step a script is in hand whole.
pub fn scripts_begin()
    ensures { laws.ScriptsBegin }
{}

/// A script stays in hand where the step is made that is due: of any jobs that are left, and of those that begin with a step, or
/// with deliveries for as long as there is a packet to deliver.
pub fn steps_follow()
    ensures due { laws.DueStepsFollow }
    ensures made { laws.MadeStepsFollow }
    ensures delivered { laws.DeliveriesFollow }
{}

/// Deliveries end where there is no packet to deliver.
pub fn idle_jobs_end()
    ensures { laws.IdleJobsEnd }
{}

/// Where nothing is left to do, or as many steps were made as a run may have, the kept steps are the script's, and what is left of
/// the script is what is left in hand.
pub fn scripts_unfold()
    ensures { laws.ScriptsUnfold }
{}
