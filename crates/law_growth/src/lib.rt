//! The laws of what stays in a run: the servers and the clients, what was sent, and the history.
#![tactic(auto)]

ghost use Rattle.law_growth.specs.Staying as laws;

/// No step adds or removes a server or a client, and each stays at its number.
pub fn servers_stay()
    ensures shape { laws.ServersStay }
    ensures numbers { laws.NumbersStay }
    ensures run { laws.RunsHaveNumbers }
{}

/// What was sent in some steps was sent in more steps, and only what was sent is kept by the network.
pub fn requests_stay()
    ensures grows { laws.SentGrows }
    ensures kept { laws.KeptWereSent }
{}

/// The history after a step, and after a list of steps, begins with the history before.
pub fn history_follows()
    ensures step { laws.HistoryFollows }
    ensures run { laws.HistoriesFollow }
{}
