//! Elections, appends and crashes.
use crate::schedules::{Do, walk};
use std::test::Fail;

/// Three nodes elect, append and commit, and a node that was down catches up: what was appended meanwhile is committed again
/// where it leads.
static CATCH_UP: [(Do, &str); 18] = [
    (Do::Elect(1), ""),
    (Do::Flush, "1 leads 1,"),
    (Do::Beat(1), "1 leads 1,"),
    (Do::Flush, "1 leads 1, 1.0"),
    (Do::Crash(3), "1 leads 1, 1.0"),
    (Do::Append(1, 5, 2), "1 leads 1, 1.0"),
    (Do::Beat(1), "1 leads 1, 1.0"),
    (Do::Flush, "1 leads 1, 1.0 1.5 1.6"),
    (Do::Start(3), "1 leads 1, 1.0 1.5 1.6"),
    (Do::Beat(1), "1 leads 1, 1.0 1.5 1.6"),
    (Do::Flush, "1 leads 1, 1.0 1.5 1.6"),
    (Do::Crash(1), "1.0 1.5 1.6"),
    (Do::Elect(3), "1.0 1.5 1.6"),
    (Do::Flush, "3 leads 2, 1.0 1.5 1.6"),
    (Do::Append(3, 7, 1), "3 leads 2, 1.0 1.5 1.6"),
    (Do::Beat(3), "3 leads 2, 1.0 1.5 1.6"),
    (Do::Flush, "3 leads 2, 1.0 1.5 1.6 2.0 2.7"),
    (Do::Append(1, 8, 1), "3 leads 2, 1.0 1.5 1.6 2.0 2.7"),
];

/// Entries of an old term are on a majority and are not committed by counting: a leader of a later term overwrites them
/// (Ongaro 2014, figure 3.7).
static OLD_TERM: [(Do, &str); 36] = [
    (Do::Elect(1), ""),
    (Do::Flush, "1 leads 1,"),
    (Do::Beat(1), "1 leads 1,"),
    (Do::Flush, "1 leads 1, 1.0"),
    // Nodes 1 and 2 have 16 entries of term 1.
    (Do::Append(1, 7, 16), "1 leads 1, 1.0"),
    (Do::Beat(1), "1 leads 1, 1.0"),
    (Do::Pass(1, 2), "1 leads 1, 1.0"),
    (Do::Crash(1), "1.0"),
    // Node 5 leads term 2, and alone has its entry.
    (Do::Elect(5), "1.0"),
    (Do::Pass(5, 3), "1.0"),
    (Do::Pass(5, 4), "1.0"),
    (Do::Pass(3, 5), "1.0"),
    (Do::Pass(4, 5), "5 leads 2, 1.0"),
    (Do::Crash(5), "1.0"),
    // Node 1 leads term 3, and brings the entries of term 1 to node 3.
    (Do::Start(1), "1.0"),
    (Do::Elect(1), "1.0"),
    (Do::Elect(1), "1.0"),
    (Do::Pass(1, 2), "1.0"),
    (Do::Pass(1, 4), "1.0"),
    (Do::Pass(2, 1), "1.0"),
    (Do::Pass(4, 1), "1 leads 3, 1.0"),
    (Do::Beat(1), "1 leads 3, 1.0"),
    (Do::Pass(1, 3), "1 leads 3, 1.0"),
    (Do::Pass(3, 1), "1 leads 3, 1.0"),
    (Do::Pass(1, 3), "1 leads 3, 1.0"),
    (Do::Pass(3, 1), "1 leads 3, 1.0"),
    (Do::Crash(1), "1.0"),
    // Node 5 leads a later term, and its log counts.
    (Do::Start(5), "1.0"),
    (Do::Elect(5), "1.0"),
    (Do::Elect(5), "1.0"),
    (Do::Pass(5, 3), "1.0"),
    (Do::Pass(5, 4), "1.0"),
    (Do::Pass(3, 5), "1.0"),
    (Do::Pass(4, 5), "5 leads 4, 1.0"),
    (Do::Beat(5), "5 leads 4, 1.0"),
    (Do::Flush, "5 leads 4, 1.0 2.0 4.0"),
];

#[test]
fn node_catches_up(rt: HostRuntime) -> Result<(), Fail> {
    walk(&rt, rt.alloc(), 3, &CATCH_UP)
}

#[test]
fn old_term_is_not_counted(rt: HostRuntime) -> Result<(), Fail> {
    walk(&rt, rt.alloc(), 5, &OLD_TERM)
}
