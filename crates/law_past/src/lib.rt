//! Each change of a cluster's past keeps what is sound of it: votes and logs of leaders, acknowledgements, and what is committed.
#![tactic(auto)]
