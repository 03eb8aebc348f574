//! Sets, queues, multimaps and topics.
#![tactic(auto)]

mod multimap;
mod pairs;
mod queue;
mod set;
mod topic;

pub use multimap::MultimapBox;
pub use queue::QueueBox;
pub use set::SetBox;
pub use topic::TopicBox;
