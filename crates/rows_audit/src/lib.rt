//! Audits of reports as theorems: five runs that are faithful, and each of the ten conditions broken once.
#![tactic(auto)]

ghost use Rattle.std.specs.Prelude.{◌≡◌};
ghost use Rattle.ax_types.specs.declared.findings.Clause.TheVariants as clause;
ghost use Rattle.ax_types.specs.declared.findings.Verdict.TheVariants as verdict;
ghost use Rattle.spec_audit.specs.Audit as audits;
ghost use Rattle.rows_audit.specs.FaithfulReports as faithful_reports;
ghost use Rattle.rows_audit.specs.BrokenReports as broken_reports;

/// One client adds 5 to a long.
pub fn one_add_is_faithful()
    ensures { audits.audit 1000 faithful_reports.of_one_add ≡ verdict.Faithful }
{}

/// The leader is lost after it committed a call, and the next one answers it.
pub fn leader_lost_is_faithful()
    ensures { audits.audit 1000 faithful_reports.of_leader_lost ≡ verdict.Faithful }
{}

/// A batch of events is lost and sent again.
pub fn lost_batch_is_faithful()
    ensures { audits.audit 1000 faithful_reports.of_lost_batch ≡ verdict.Faithful }
{}

/// A session expires with three calls unanswered.
pub fn doubt_is_faithful()
    ensures { audits.audit 1000 faithful_reports.of_doubt ≡ verdict.Faithful }
{}

/// Two clients join a group, and one leaves and joins again.
pub fn group_is_faithful()
    ensures { audits.audit 1000 faithful_reports.of_group ≡ verdict.Faithful }
{}

/// A session expires before its time.
pub fn early_expiry_is_unlawful()
    ensures { audits.audit 1000 broken_reports.early_expiry ≡ verdict.Broken clause.Lawful 0 }
{}

/// A reply has another number than the resource gives.
pub fn wrong_number_is_not_right()
    ensures { audits.audit 1000 broken_reports.wrong_number ≡ verdict.Broken clause.Right 0 }
{}

/// A history has an entry more than was committed.
pub fn long_history_has_a_wrong_length()
    ensures { audits.audit 1000 broken_reports.long_history ≡ verdict.Broken clause.Length 0 }
{}

/// A linearizable read is older than a commit above the arrival of its request.
pub fn stale_read_is_not_fresh()
    ensures { audits.audit 1000 broken_reports.stale_read ≡ verdict.Broken clause.Fresh 0 }
{}

/// A command stands in the history that its session never called.
pub fn uncalled_command_is_not_once()
    ensures { audits.audit 1000 broken_reports.uncalled ≡ verdict.Broken clause.Once 2 }
{}

/// A session's second read has an earlier place than its first.
pub fn read_that_goes_back_is_not_growing()
    ensures { audits.audit 1000 broken_reports.read_back ≡ verdict.Broken clause.Growing 2 }
{}

/// A reply comes before the event that its place names.
pub fn late_event_is_not_heard()
    ensures { audits.audit 1000 broken_reports.late_event ≡ verdict.Broken clause.Heard 2 }
{}

/// The second call of a session is answered before its first.
pub fn second_answer_first_is_no_order_of_outcomes()
    ensures { audits.audit 1000 broken_reports.second_first ≡ verdict.Broken clause.Outcomes 2 }
{}

/// A session's end is told, and its unanswered call is in no doubt.
pub fn end_without_doubt_is_no_end()
    ensures { audits.audit 1000 broken_reports.no_doubt ≡ verdict.Broken clause.Ends 2 }
{}

/// A call waits that was answered.
pub fn answered_call_does_not_wait()
    ensures { audits.audit 1000 broken_reports.still_waiting ≡ verdict.Broken clause.Waiting 0 }
{}
