//! How packets and entries are spelled in bytes, and how bytes are read as them: definitions and their laws.
#![tactic(auto)]
