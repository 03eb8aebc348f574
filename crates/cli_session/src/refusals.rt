ghost use Rattle.std.specs.Prelude.{◌≡◌};
ghost use Rattle.spec_client.specs.Clients as clients;
ghost use Rattle.cli_session.specs.Refusals as refusals;

use crate::parts::Parts;
use crate::states::{is_busy, is_joined, is_live};
use ax_types::ClientRefused;
use ax_types::limits::MAX_UNANSWERED;

impl Parts {
    /// Why no session is opened: there is one, or one is being opened.
    pub fn open_refusal(&self) -> Option<ClientRefused>
        ensures { result ≡ refusals.refusal_by (clients.open_refusal self.now.client) }
    {
        if is_busy(self.state) {
            return Some(ClientRefused::SessionOpen);
        }
        None
    }

    /// Why nothing is called: there is no open session, or as many calls are unanswered as may be.
    pub fn call_refusal(&self) -> Option<ClientRefused>
        ensures { result ≡ refusals.refusal_by (clients.call_refusal self.now.client) }
    {
        if !is_live(self.state) {
            return Some(ClientRefused::NoSession);
        }
        if self.sequencer.unanswered() as u64 >= MAX_UNANSWERED {
            return Some(ClientRefused::WindowFull);
        }
        None
    }

    /// Why no sign of life is sent: there is no session.
    pub fn keep_refusal(&self) -> Option<ClientRefused>
        ensures { result ≡ refusals.refusal_by (clients.keep_refusal self.now.client) }
    {
        if !is_joined(self.state) {
            return Some(ClientRefused::NoSession);
        }
        None
    }

    /// Why the session is not closed: there is no open one, or calls are unanswered.
    pub fn close_refusal(&self) -> Option<ClientRefused>
        ensures { result ≡ refusals.refusal_by (clients.close_refusal self.now.client) }
    {
        if !is_live(self.state) {
            return Some(ClientRefused::NoSession);
        }
        let unanswered = self.sequencer.unanswered() as u64;
        if unanswered > 0 {
            return Some(ClientRefused::Busy { unanswered });
        }
        None
    }

    /// Why nothing is sent again: there is no session, and none is being opened.
    pub fn resend_refusal(&self) -> Option<ClientRefused>
        ensures { result ≡ refusals.refusal_by (clients.resend_refusal self.now.client) }
    {
        if !is_busy(self.state) {
            return Some(ClientRefused::NoSession);
        }
        None
    }
}
