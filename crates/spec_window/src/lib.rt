//! The call window: its words and steps, what seats and the pump keep, and what must agree at its close.
#![tactic(auto)]
