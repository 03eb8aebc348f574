//! The laws of one client (Ongaro 2014, 6.3 and 6.4): whatever happens at it, its own calls and what reaches it in any order,
//! with repeats and losses, as long as what reaches it is true of one history.
#![tactic(auto)]

ghost use Rattle.law_client.specs.Example as examples;
ghost use Rattle.law_client.specs.Promises as promises;

/// A new client stands to the items above it and to any history as its steps keep it.
pub fn new_client_stands()
    ensures { promises.NewClientStands }
{}

/// Each input of a client, and each item of others, keeps how the client stands; the items of the step are as claimed.
pub fn each_step_keeps()
    ensures { promises.EachStepKeeps }
{}

/// Calls of a session are numbered 1, 2, 3; outcomes come in the order of the calls, one for each, of the kind of the call.
pub fn outcomes_follow_calls()
    ensures { promises.OutcomesFollowCalls }
{}

/// What is called, answered, heard or ended of a session stands between its opening and its end, which the history has there.
pub fn items_stand_in_session()
    ensures { promises.ItemsStandInSession }
{}

/// A read's place is at least that of each read of its session above, and all commands called before it took effect up to it.
pub fn reads_never_go_back()
    ensures { promises.ReadsNeverGoBack }
{}

/// What a session heard, in order, begins what the history tells it.
pub fn events_come_in_order()
    ensures { promises.EventsComeInOrder }
{}

/// The events up to the place of a response stand above it.
pub fn events_precede_responses()
    ensures { promises.EventsPrecedeResponses }
{}

/// A session is opened once, by its client; a reply and a read are the plain resource's at their places.
pub fn client_items_are_right()
    ensures { promises.ClientItemsAreRight }
{}

/// A linearizable read names the arrival of its query at a leader, and its place is at least each commit above that arrival.
pub fn reads_name_their_reach()
    ensures { promises.ReadsNameTheirReach }
{}

/// In each step, below the end of a session that expired stands what becomes of its calls without an outcome, and nothing else;
/// where it was closed none lacks one; and nothing is in doubt or lost elsewhere.
pub fn each_step_ends_as_told()
    ensures { promises.EachStepEndsAsTold }
{}

/// So it is in all that one client alone shows.
pub fn sessions_end_as_told()
    ensures { promises.SessionsEndAsTold }
{}

/// Something meets the premises of these laws: what happens in the example may happen.
pub fn example_may_happen()
    ensures { examples.ExampleMayHappen }
{}

/// A run of a client: what it shows among the commits, answers out of order and twice.
pub fn example_shows()
    ensures { examples.ExampleShows }
{}
