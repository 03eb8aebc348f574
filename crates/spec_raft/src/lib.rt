//! The parts of a Raft node, as definitions: majorities, the log, the votes, a leader's progress and its reads.
//! The rules are those of Ongaro's dissertation of 2014, chapters 3 and 6; each definition names its section.
#![tactic(auto)]
