//! The language of scripts, as definitions: how steps and lines are read and written, and how bytes are read as a script.
#![tactic(auto)]
