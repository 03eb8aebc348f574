//! The generator: the script that a number gives, and the summary of its run.
#![tactic(auto)]
