//! A report is read back from its JSON form.
#![tactic(auto)]

ghost use Rattle.law_report_read.specs.ReportReadBack as report_read_back;

/// The JSON value of a report is read as that report, where its lines are of the grammar and its history has a place for each act.
pub fn report_is_read_back()
    ensures { report_read_back.ReportIsReadBack }
{}

/// The JSON text of such a report is read as that report, where it is no longer than a report may be.
pub fn json_is_read_back()
    ensures { report_read_back.JsonIsReadBack }
{}
