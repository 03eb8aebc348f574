//! The law of an upgrade: it changes nothing that a node keeps.
#![tactic(auto)]

ghost use Rattle.law_upgrade.specs.UpgradePromise as laws;

/// An upgraded journal has the term, the vote and the log that it had, and is of version 2, or of version 0 as it was; and
/// an upgrade of an upgraded journal changes nothing.
pub fn upgrade_keeps_content()
    ensures content { laws.UpgradeKeepsContent }
    ensures version { laws.UpgradeEndsVersionOne }
    ensures again { laws.SecondUpgradeChangesNothing }
{}
