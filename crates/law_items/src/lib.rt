//! The laws of the items that nodes show: leaders, commits and reached reads.
#![tactic(auto)]

ghost use Rattle.law_items.specs.Ordered as laws;

/// Commits rise; a term has one leader; a read is reached at the leader of its term, and arrivals of a term count 1, 2, 3.
pub fn node_items_are_ordered()
    ensures { laws.NodeItemsAreOrdered }
{}

/// The history is as long as the greatest commit says.
pub fn history_is_counted()
    ensures { laws.HistoryIsCounted }
{}
