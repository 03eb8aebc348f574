//! The parts of a client, as definitions: its calls in order with their answers, and its server and openings.
#![tactic(auto)]
