ghost use Rattle.std.specs.Prelude.{◌≡◌, ◌+◌, ◌<◌, Some, IfOk, IfSome, OnOk};
ghost use Rattle.std.specs.List.{AllByRecursion};
ghost use Rattle.spec_sessions.specs.Outboxes as outbox;
ghost use Rattle.spec_sessions.specs.Sessions as session_states;

use crate::outboxes::Outboxes;
use crate::telling::tell_all;
use ax_types::{Act, Applied, ClientId, Duplicate, KeptReply, NoMemory, Payload, Reply, Turn};
use sess_table::Table;
use std::alloc::Global;

/// The sessions, and what is kept for those that are live.
#[derive(Drop)]
pub struct Parts {
    pub alloc: Global,
    pub table: Table,
    pub boxes: Outboxes,
}

/// What an entry does beside the parts: the act, the session and the sequence of the command that it carries out, and the
/// answer where there is no such command.
#[derive(Drop)]
pub struct Effect {
    pub act: Act,
    pub command: Option<(u64, u64)>,
    pub answer: Option<Payload>,
}

/// The reply of a command, as its client is told.
pub fn reply_payload(session: u64, kept: &KeptReply) -> Result<Payload, NoMemory>
    ensures { IfOk result (λ payload. payload ≡ session_states.reply_payload session kept.now) }
{
    Ok(Payload::Reply {
        session,
        seq: kept.seq,
        place: kept.place,
        events: kept.events,
        reply: kept.reply.copy()?,
    })
}

/// An answer goes to the client that the entry names.
fn answer_to(client: Option<ClientId>, answer: Option<Payload>) -> Option<(ClientId, Payload)>
    ensures { result ≡ session_states.answer_to client answer }
{
    match (client, answer) {
        (Some(client), Some(payload)) => Some((client, payload)),
        _ => None,
    }
}

impl Parts {
    /// Keeps the reply of a session's next command, and answers what its client is told.
    fn keep_reply(
        &mut self,
        place: u64,
        session: u64,
        seq: u64,
        reply: &Reply,
    ) -> Result<Payload, NoMemory>
        requires { seq ≡ outbox.last_seq self.old.boxes session + 1 }
        ensures ok { IfOk result (λ payload. payload ≡ session_states.reply_payload session (session_states.cached_reply place self.old.boxes (session, seq) reply.now)) }
        ensures after { OnOk result (self.new ≡ record self.old { boxes = session_states.boxes_with self.old.boxes place (Some (session, seq)) reply.now }) }
    {
        let kept = KeptReply {
            seq,
            place,
            events: self.boxes.last_batch(session),
            reply: reply.copy()?,
        };
        let payload = reply_payload(session, &kept)?;
        self.boxes.keep_reply(session, kept)?;
        Ok(payload)
    }

    /// The reply of the command that was carried out is kept. Answers the reply, and what the client is told; where
    /// there was no such command, none and the other answer.
    fn answer(
        &mut self,
        place: u64,
        command: Option<(u64, u64)>,
        reply: Reply,
        other: Option<Payload>,
    ) -> Result<(Option<Reply>, Option<Payload>), NoMemory>
        requires { IfSome command (λ c. c.1 ≡ outbox.last_seq self.old.boxes c.0 + 1) }
        ensures reply { IfOk result (λ given. given.0 ≡ session_states.given_reply command reply) }
        ensures answer { IfOk result (λ given. given.1 ≡ session_states.command_answer self.old.boxes place command reply other) }
        ensures after { OnOk result (self.new ≡ record self.old { boxes = session_states.boxes_with self.old.boxes place command reply }) }
    {
        match command {
            Some((session, seq)) => {
                let payload = self.keep_reply(place, session, seq, &reply)?;
                Ok((Some(reply), Some(payload)))
            }
            None => Ok((None, other)),
        }
    }

    /// The turn of an entry's act: sessions are told, and the reply of its command is kept.
    pub fn settle(
        &mut self,
        place: u64,
        effect: Effect,
        turn: Turn,
        client: Option<ClientId>,
    ) -> Result<Applied, NoMemory>
        requires positive { 0 < place }
        requires earlier { AllByRecursion (λ o. o.batches.last < place) self.old.boxes }
        requires next { IfSome effect.command (λ c. c.1 ≡ outbox.last_seq (outbox.all_told place turn.told self.old.boxes) c.0 + 1) }
        ensures ok { IfOk result (λ applied. applied ≡ record {
          act = effect.act;
          reply = session_states.given_reply effect.command turn.reply;
          answer = session_states.answer_to client (session_states.command_answer (outbox.all_told place turn.told self.old.boxes) place effect.command turn.reply effect.answer);
          batches = outbox.batches_due place turn.told self.old.boxes;
        }) }
        ensures after { OnOk result (self.new ≡ record self.old { boxes = session_states.boxes_with (outbox.all_told place turn.told self.old.boxes) place effect.command turn.reply }) }
    {
        let batches = tell_all(self.alloc, &mut self.boxes, place, turn.told)?;
        let (reply, answer) = self.answer(place, effect.command, turn.reply, effect.answer)?;
        Ok(Applied {
            act: effect.act,
            reply,
            answer: answer_to(client, answer),
            batches,
        })
    }
}
