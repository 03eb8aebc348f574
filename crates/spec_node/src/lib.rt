//! One Raft node, as definitions: its state, its rules, its step, and what its store keeps.
//! The rules are those of Ongaro's dissertation of 2014, chapters 3 and 6; each definition names its section.
#![tactic(auto)]
