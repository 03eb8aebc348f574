//! The law of release: what a client's sequencer gives out keeps the claims of order.
#![tactic(auto)]

ghost use Rattle.law_release.specs.Releases as releases;

/// Of every list of calls in order, release gives out a beginning, each call with the answer that it has got: its events are
/// heard, and a read's place is at least that of the read before. The first call that is left has no answer, or one whose
/// events are not heard, or one that is older than the last read, which it loses and is asked again.
pub fn release_keeps_claims()
    ensures { releases.ReleaseKeepsClaims }
{}

/// What is given out and what is left have together the numbers of the calls, in their order.
pub fn release_keeps_numbers()
    ensures { releases.ReleaseKeepsNumbers }
{}
