//! The laws of what a server answers: whatever it tells a client is true then, whether it leads or not.
#![tactic(auto)]

ghost use Rattle.law_answers.specs.Passing as passing;
ghost use Rattle.law_answers.specs.TrueSteps as laws;

/// What an entry that is applied sends to clients is true.
pub fn entries_answer_truly()
    ensures { laws.AnswersOfEntries }
{}

/// Whatever a step of a server tells a client is true, and its answers stay true.
pub fn servers_send_truth()
    ensures { laws.ServersSendTruth }
{}

/// A server that starts answers truly.
pub fn servers_start()
    ensures { laws.ServersStart }
{}

/// A server that takes no step answers truly as the run goes on.
pub fn servers_last()
    ensures { laws.ServersLast }
{}

/// What is asked of a step can be: a new server may take its first one.
pub fn first_step_may_be_made()
    ensures { laws.FirstStepMayBeMade }
{}

/// What a server's Raft node keeps and sends goes out unchanged, and a request is passed on as it came.
pub fn servers_pass_on()
    ensures { passing.ServersPassOn }
{}

/// A server appends to the log what it was asked for, and the ends of sessions.
pub fn servers_append_requests()
    ensures { passing.ServersAppendRequests }
{}
