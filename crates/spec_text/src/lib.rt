//! How the words of a line are read: numbers, names, operations, queries and calls. Definitions and their laws.
#![tactic(auto)]
