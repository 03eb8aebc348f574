//! The laws of linearizable reads (Ongaro 2014, 6.4): after every list of steps of a cluster.
#![tactic(auto)]

ghost use Rattle.law_agreement.specs.Agreement as agreements;
ghost use Rattle.law_reads.specs.Reads as laws;

/// A read that is given was taken by that node in that term under that number, and its place is at least every place that was
/// committed anywhere when it was taken.
pub fn reads_are_fresh()
    ensures { agreements.Always laws.ReadsAreFresh }
{}

/// No two reads of one term have one number, so the read that was taken is the only one.
pub fn reads_differ()
    ensures { agreements.Always laws.ReadsDiffer }
{}

/// The reads of a term are numbered 1, 2, 3, in the order in which they were taken.
pub fn reads_are_numbered()
    ensures { agreements.Always laws.ReadsAreNumbered }
{}
