//! Stores that fail between any two saves of a step, or within one.
use crate::schedules::{Do, walk};
use std::alloc::Global;
use std::process::Abort;
use std::test::Fail;

/// A candidacy saves its term: it is lost before that save, and kept after it.
static ELECTION: [(Do, &str); 12] = [
    (Do::HaltElect(1, 0), ""),
    (Do::Start(1), ""),
    (Do::HaltElect(1, 2), ""),
    (Do::Elect(1), ""),
    (Do::Flush, "1 leads 1,"),
    (Do::Crash(1), ""),
    (Do::Start(1), ""),
    (Do::HaltElect(1, 1), ""),
    (Do::Start(1), ""),
    (Do::Elect(1), ""),
    (Do::Flush, "1 leads 3,"),
    (Do::HaltElect(1, 0), "1 leads 3,"),
];

/// Of an append that failed, two of three entries stay.
static APPEND: [(Do, &str); 10] = [
    (Do::Elect(1), ""),
    (Do::Flush, "1 leads 1,"),
    (Do::HaltAppend(1, 7, 3, 0, 4), "1 leads 1,"),
    (Do::HaltAppend(1, 7, 3, 1, 1), "1 leads 1,"),
    (Do::HaltAppend(1, 7, 3, 0, 2), ""),
    (Do::Start(1), ""),
    (Do::Elect(1), ""),
    (Do::Flush, "1 leads 2,"),
    (Do::Beat(1), "1 leads 2,"),
    (Do::Flush, "1 leads 2, 1.0 1.7 1.8 2.0"),
];

#[test]
fn election_halts(rt: HostRuntime) -> Result<(), Fail> {
    walk(&rt, rt.alloc(), 3, &ELECTION)
}

#[test]
fn append_halts(rt: HostRuntime) -> Result<(), Fail> {
    walk(&rt, rt.alloc(), 3, &APPEND)
}

/// Node 1 has three entries of term 1, and gets a packet of term 2 by which it saves a term, a cut and three entries: it halts
/// there, and then leads, so that what it kept is committed.
fn cut_halts(
    rt: &impl Abort,
    alloc: Global,
    saved: u64,
    added: u64,
    first: &'static str,
    last: &'static str,
) -> Result<(), Fail> {
    let rows = [
        (Do::Elect(1), ""),
        (Do::Flush, "1 leads 1,"),
        (Do::Beat(1), "1 leads 1,"),
        (Do::Flush, "1 leads 1, 1.0"),
        (Do::Append(1, 7, 3), "1 leads 1, 1.0"),
        (Do::Crash(1), "1.0"),
        (Do::Elect(2), "1.0"),
        (Do::Flush, "2 leads 2, 1.0"),
        (Do::Append(2, 5, 2), "2 leads 2, 1.0"),
        (Do::Start(1), "2 leads 2, 1.0"),
        (Do::Beat(2), "2 leads 2, 1.0"),
        (Do::HaltPass(2, 1, saved, added), "2 leads 2, 1.0"),
        (Do::Crash(2), "1.0"),
        (Do::Start(1), "1.0"),
        (Do::Elect(1), "1.0"),
        (Do::Pass(1, 3), "1.0"),
        (Do::Pass(3, 1), first),
        (Do::Elect(1), first),
        (Do::Pass(1, 3), first),
        (Do::Pass(3, 1), "1 leads 3, 1.0"),
        (Do::Beat(1), "1 leads 3, 1.0"),
        (Do::Pass(1, 3), "1 leads 3, 1.0"),
        (Do::Flush, last),
    ];
    walk(rt, alloc, 3, &rows)
}

#[test]
fn each_save_halts(rt: HostRuntime) -> Result<(), Fail> {
    let alloc = rt.alloc();
    let leads = "1 leads 3, 1.0";
    cut_halts(&rt, alloc, 0, 0, "1.0", "1 leads 3, 1.0 1.7 1.8 1.9 3.0")?;
    cut_halts(&rt, alloc, 1, 0, leads, "1 leads 3, 1.0 1.7 1.8 1.9 3.0")?;
    cut_halts(&rt, alloc, 2, 0, leads, "1 leads 3, 1.0 3.0")?;
    cut_halts(&rt, alloc, 2, 1, leads, "1 leads 3, 1.0 2.0 3.0")?;
    cut_halts(&rt, alloc, 2, 2, leads, "1 leads 3, 1.0 2.0 2.5 3.0")?;
    cut_halts(&rt, alloc, 2, 3, leads, "1 leads 3, 1.0 2.0 2.5 2.6 3.0")?;
    cut_halts(&rt, alloc, 3, 0, leads, "1 leads 3, 1.0 2.0 2.5 2.6 3.0")
}
