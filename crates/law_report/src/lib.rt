//! Different runs have different reports, in text and in JSON.
#![tactic(auto)]

ghost use Rattle.law_report.specs.ReportsDiffer as reports_differ;
ghost use Rattle.spec_report.specs.ReportValues as report_values;

/// Runs whose reports have one text are one run: the items, the history and the end are told apart.
pub fn text_tells_run()
    ensures { reports_differ.TextTellsRun }
{}

/// Runs with callers and feeds whose reports have one text are one run, with the same lines of callers and feeds.
pub fn race_text_tells_run()
    ensures { reports_differ.RaceTextTellsRun }
{}

/// Lines of callers with one text tell one caller, one number and one outcome.
pub fn caller_text_tells()
    ensures { reports_differ.CallerTextTells }
{}

/// Lines of feeds with one text tell one feed and one event.
pub fn feed_text_tells()
    ensures { reports_differ.FeedTextTells }
{}

/// Runs whose reports have one JSON text are one run.
pub fn json_tells_run()
    ensures { reports_differ.JsonTellsRun }
{}

/// Reports with one JSON text are one report, its calls that wait included.
pub fn json_tells_report()
    ensures { reports_differ.JsonTellsReport }
{}

/// In the JSON strings of a report's lines a `\` stands before each `"` and each `\`, and nothing else is escaped.
pub fn json_escapes_quotes_alone()
    ensures { reports_differ.EscapesQuotesAlone }
{}

/// A run with values within their types, as these laws ask for.
pub fn first_run_is_within_types()
    ensures { report_values.IsRun reports_differ.first_run }
{}
