//! The laws of a client's requests: what they say is what its items show.
#![tactic(auto)]

ghost use Rattle.law_requests.specs.Requests as requests;

/// In each step, each request that a client sends names the client and a session that it opened; a command and a query are
/// those that their `called` item shows, a command with its rank as its sequence; a close was asked for.
pub fn requests_say_calls()
    ensures { requests.RequestsSayCalls }
{}

/// So it is of a new client, in each step, whatever happens at it.
pub fn each_request_says()
    ensures { requests.EachRequestSays }
{}

/// What a request says stays so, whatever happens at the client.
pub fn said_stays_said()
    ensures { requests.SaidStaysSaid }
{}

/// A close that was asked for stays so: the client waits for the end, or the end is told.
pub fn closes_stay()
    ensures { requests.ClosesStay }
{}

/// The items of a client are of sessions that the history opens for it, whose openings it showed.
pub fn own_items_are_of_own_sessions()
    ensures { requests.OwnItemsAreOfOwnSessions }
{}
