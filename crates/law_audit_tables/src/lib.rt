//! One pass with tables finds what the conditions of the audit say.
#![tactic(auto)]

ghost use Rattle.law_audit_tables.specs.TablesFound as laws;
ghost use Rattle.law_audit_tables.specs.DigestsSuffice as suffice;
ghost use Rattle.law_audit_tables.specs.BySession as by_session;
ghost use Rattle.law_audit_tables.specs.Found as found;

/// The walk over a history with a table of signs finds whether it is lawful.
pub fn signs_find_lawful()
    ensures { laws.SignsFindLawful }
{}

/// The walk over a history with the book gives what each act gives.
pub fn turns_are_given()
    ensures { laws.TurnsAreGiven }
{}

/// The walk over the items with what is known of a session finds whether its outcomes are in order.
pub fn outcomes_are_walked()
    ensures { laws.OutcomesAreWalked }
{}

/// The walk over the items with the acts that are left finds whether a session's commands take effect once, in order.
pub fn once_is_walked()
    ensures { laws.OnceIsWalked }
{}

/// The walk over the items with the batches that are left finds whether a session hears what it is told, in order.
pub fn heard_is_walked()
    ensures { laws.HeardIsWalked }
{}

/// The walk over the items with the numbers of the commands and the greatest place finds whether a session's reads grow.
pub fn reads_are_walked()
    ensures { laws.ReadsAreWalked }
{}

/// The walk over the items with a session's course finds whether it ends rightly.
pub fn ends_are_walked()
    ensures { laws.EndsAreWalked }
{}

/// The calls that wait, as a report tells them, are those without an outcome.
pub fn waiting_is_told()
    ensures { laws.WaitingIsTold }
{}

/// The walks for one session find the same in its digest of a report as in the report.
pub fn digests_suffice()
    ensures { suffice.DigestsSuffice }
{}

/// What the items say is right where the walk with the calls above finds it right for each session.
pub fn right_is_walked()
    ensures { by_session.RightBySession }
{}

/// Reads are fresh where the walk with the requests that reached a leader finds them fresh for each session.
pub fn fresh_is_walked()
    ensures { by_session.FreshBySession }
{}

/// The verdict is that of what was found of each condition, whatever the order of the sessions.
pub fn verdict_is_found()
    ensures { found.VerdictIsFound }
{}
