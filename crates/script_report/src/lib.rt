//! The report of a script: it is run, and what it shows is written, as a text while it runs, or as JSON at its end.
#![tactic(auto)]

mod report;

pub use report::report_of_script;
