//! The words of the command line: which words are a command, and which. Definitions and examples.
#![tactic(auto)]
