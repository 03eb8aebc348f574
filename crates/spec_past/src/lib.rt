//! The past of a cluster as the laws need it: who voted for whom with which log, the log of each leader, what was acknowledged
//! and what is committed; and what is sound of it.
#![tactic(auto)]
