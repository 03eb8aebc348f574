//! The laws of the servers of a run: what is proved of a cluster of Raft nodes holds of them.
#![tactic(auto)]

ghost use Rattle.law_hosts.specs.Hosts as hosts;
ghost use Rattle.law_hosts.specs.Committed as committed;

/// After every run, and whichever of the entries at stake the stores of the nodes that are down hold, there is an execution of a
/// cluster of Raft nodes with the nodes of the servers, which sent all packets between nodes, and of which the ledger tells what
/// is committed, who led, and which reads were taken and given.
pub fn hosts_are_matched()
    ensures { hosts.HostsAreMatched }
{}

/// What is committed stays when more steps are made, and its times never fall.
pub fn committed_stays()
    ensures grows { committed.CommittedStays }
    ensures times { committed.CommittedTimesRise }
{}

/// The log of each server that is up holds what is committed, up to its commit.
pub fn logs_hold_committed()
    ensures { committed.LogsHoldCommitted }
{}

/// The history is the acts of what is committed, and each server's session state is that after what is committed up to its commit.
pub fn history_is_of_committed()
    ensures history { committed.HistoryIsOfCommitted }
    ensures states { committed.ServersHaveApplied }
{}
