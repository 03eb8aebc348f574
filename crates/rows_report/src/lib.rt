//! The reports of some runs line for line, and each form of a line once: what the definitions of a report give.
#![tactic(auto)]

ghost use Rattle.std.specs.Prelude.{◌≡◌, [], ◌∷◌, map};
ghost use Rattle.ax_types.specs.declared.scripts.RunEnd.TheVariants as run_end;
ghost use Rattle.spec_report.specs.CallLines as call_lines;
ghost use Rattle.spec_report.specs.Replies as replies;
ghost use Rattle.spec_report.specs.Items as items;
ghost use Rattle.spec_report.specs.Report as reports;
ghost use Rattle.spec_report.specs.Json as json_form;
ghost use Rattle.rows_report.specs.ReportRows as runs;
ghost use Rattle.rows_report.specs.Spellings as forms;

/// The report of a run in which one client adds 5 to a long.
pub fn one_add_is_written()
    ensures { reports.report_text runs.one_add_items runs.one_add_history run_end.Done ≡ items.lines_text runs.one_add_report }
{}

/// The report of a run in which the leader is lost after it committed a call, and the next one answers it.
pub fn leader_lost_is_written()
    ensures { reports.report_text runs.leader_lost_items runs.leader_lost_history run_end.Done ≡ items.lines_text runs.leader_lost_report }
{}

/// The report of a run in which a batch of events is lost and sent again.
pub fn lost_batch_is_written()
    ensures { reports.report_text runs.lost_batch_items runs.lost_batch_history run_end.Done ≡ items.lines_text runs.lost_batch_report }
{}

/// The report of a run in which a session expires with three calls unanswered.
pub fn doubt_is_written()
    ensures { reports.report_text runs.doubt_items runs.doubt_history run_end.Done ≡ items.lines_text runs.doubt_report }
{}

/// The report of a run in which two clients join a group, and one leaves and joins again.
pub fn group_is_written()
    ensures { reports.report_text runs.group_items runs.group_history run_end.Done ≡ items.lines_text runs.group_report }
{}

/// The report of a run in which a caller locks a lock, and a listener hears of it.
pub fn listener_is_written()
    ensures { reports.race_text runs.listener_items runs.listener_history runs.listener_extra run_end.Done ≡ items.lines_text runs.listener_lines }
{}

/// The JSON form of the first of these reports.
pub fn one_add_is_written_in_json()
    ensures { json_form.json_text (record { items = runs.one_add_items; history = runs.one_add_history; waiting = []; end = run_end.Done }) ≡ runs.one_add_json }
{}

/// In a string of the JSON form a `\` stands before each `"` and each `\`.
pub fn quotes_are_written_in_json()
    ensures { json_form.json_text (record { items = runs.quotes_items; history = []; waiting = (2, 2) ∷ []; end = run_end.StepLimit 7 }) ≡ runs.quotes_json }
{}

/// Each operation and query as it is written.
pub fn each_call_is_written()
    ensures { map call_lines.call_text forms.each_call ≡ forms.call_lines }
{}

/// Each reply as it is written.
pub fn each_reply_is_written()
    ensures { map replies.reply_text forms.each_reply ≡ forms.reply_lines }
{}

/// Each event as it is written.
pub fn each_event_is_written()
    ensures { map replies.event_text forms.each_event ≡ forms.event_lines }
{}

/// Each item as it is written.
pub fn each_item_is_written()
    ensures { map items.item_line forms.each_item ≡ forms.item_lines }
{}

/// Each act of a history as it is written.
pub fn each_act_is_written()
    ensures { reports.act_lines 1 forms.each_act ≡ forms.act_spellings }
{}

/// Each line of callers and feeds as it is written.
pub fn each_extra_is_written()
    ensures { forms.each_extra ≡ forms.extra_lines }
{}
