ghost use Rattle.std.specs.Prelude.{◌≡◌};
ghost use Rattle.spec_client.specs.Clients as clients;

use ax_types::ClientState;

/// The session of a client that has one, open, closing or ended, else 0.
pub fn own_session(state: ClientState) -> u64
    ensures { result ≡ clients.own_session state }
{
    match state {
        ClientState::Live { session }
        | ClientState::Closing { session }
        | ClientState::Ended { session } => session,
        ClientState::NoneYet | ClientState::Opening => 0,
    }
}

/// Whether the session is open.
pub fn is_live(state: ClientState) -> bool
    ensures { result ≡ clients.is_live_client state }
{
    matches!(state, ClientState::Live { .. })
}

/// Whether an opening is under way.
pub fn is_opening(state: ClientState) -> bool
    ensures { result ≡ clients.is_opening state }
{
    matches!(state, ClientState::Opening)
}

/// Whether the session is closing.
pub fn is_closing(state: ClientState) -> bool
    ensures { result ≡ clients.is_closing state }
{
    matches!(state, ClientState::Closing { .. })
}

/// Whether the session is open or closing.
pub fn is_joined(state: ClientState) -> bool
    ensures { result ≡ clients.is_joined state }
{
    is_live(state) || is_closing(state)
}

/// Whether the client is opening a session, or has one that is open or closing.
pub fn is_busy(state: ClientState) -> bool
    ensures { result ≡ clients.is_busy state }
{
    is_opening(state) || is_joined(state)
}
