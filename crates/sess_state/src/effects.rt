//! What an entry does to the sessions (Ongaro 2014, 6.3).
ghost use Rattle.std.specs.Prelude.{◌≡◌, IfOk, OnOk};
ghost use Rattle.std.specs.Option.{option_copied};
ghost use Rattle.ax_types.specs.declared.packets.Payload.TheVariants as payload;
ghost use Rattle.ax_types.specs.declared.sessions.SessionState.TheVariants as known;
ghost use Rattle.spec_sessions.specs.Sessions as session_states;
ghost use Rattle.spec_sessions.specs.Tables as tables;
ghost use Rattle.sess_state.specs.SessionParts as session_parts;

use crate::parts::{Effect, Parts, reply_payload};
use ax_types::{
    Act, Body, ClientId, Duplicate, How, KeptReply, Name, NoMemory, Op, Payload, SessionState,
};

/// The client that an entry's body names.
pub fn body_client(body: &Body) -> Option<ClientId>
    ensures { result ≡ session_states.body_client body.now }
{
    match body {
        Body::Blank | Body::Expire { .. } => None,
        Body::Register { client, .. }
        | Body::Keep { client, .. }
        | Body::Command { client, .. }
        | Body::Close { client, .. } => Some(*client),
    }
}

/// Nothing but an answer.
fn only_answer(answer: Option<Payload>) -> Effect
    ensures { result ≡ session_parts.only_answered answer }
{
    Effect {
        act: Act::Nothing,
        command: None,
        answer,
    }
}

/// Nothing at all: what an entry of an unknown session does.
fn nothing() -> Effect
    ensures { result ≡ session_parts.only_answered None }
{
    only_answer(None)
}

/// An entry of a session that has ended is told so.
fn told_end(session: u64, place: u64, how: How) -> Effect
    ensures { result ≡ session_parts.only_answered (Some (payload.Ended session place how)) }
{
    only_answer(Some(Payload::Ended {
        session,
        place,
        how,
    }))
}

/// The kept reply of a command that came again, unless it is let go.
fn again_from(session: u64, kept: Option<&KeptReply>) -> Result<Effect, NoMemory>
    ensures { (s : session_states.Sessions) → IfOk result (λ effect. effect ≡ session_parts.effect_of (session_states.again_from s session (option_copied kept.entry))) }
{
    match kept {
        Some(kept) => {
            let payload = reply_payload(session, kept)?;
            Ok(only_answer(Some(payload)))
        }
        None => Ok(nothing()),
    }
}

impl Parts {
    /// A session is opened by the register entry at this place and log time.
    fn registering(
        &mut self,
        place: u64,
        time: u64,
        client: ClientId,
        opening: u64,
    ) -> Result<Effect, NoMemory>
        requires { session_parts.LieBelow place self.old.table self.old.boxes }
        ensures effect { IfOk result (λ effect. effect ≡ session_parts.effect_of (session_states.registering (session_parts.of_parts self.old) place time client opening)) }
        ensures after { OnOk result (self.new ≡ session_parts.parts_after self.old (session_states.registering (session_parts.of_parts self.old) place time client opening)) }
    {
        self.table.register(place, client, opening, time)?;
        self.boxes.add(place)?;
        Ok(Effect {
            act: Act::Open { client, opening },
            command: None,
            answer: Some(Payload::Opened {
                opening,
                session: place,
            }),
        })
    }

    /// A sign of life of a session in this state, which says what the client has.
    fn keeping(
        &mut self,
        time: u64,
        session: u64,
        answered: u64,
        heard: u64,
        state: SessionState,
    ) -> Effect
        requires { tables.state_of self.old.table session ≡ state }
        ensures effect { result ≡ session_parts.effect_of (session_states.keeping (session_parts.of_parts self.old) time session answered heard state) }
        ensures after { self.new ≡ session_parts.parts_after self.old (session_states.keeping (session_parts.of_parts self.old) time session answered heard state) }
    {
        match state {
            SessionState::Live => {
                self.table.sign(session, time);
                self.boxes.trim(session, answered, heard);
                Effect {
                    act: Act::Keep { session },
                    command: None,
                    answer: None,
                }
            }
            SessionState::Ended { place, how } => told_end(session, place, how),
            SessionState::Unknown => nothing(),
        }
    }

    /// A command of a live session whose last one has this sequence: the next one is carried out, an earlier one gets its
    /// reply again, and a later one shows a gap.
    fn commanding_live(
        &self,
        session: u64,
        seq: u64,
        name: &Name,
        op: &Op,
        last: u64,
    ) -> Result<Effect, NoMemory>
        ensures { IfOk result (λ effect. effect ≡ session_parts.effect_of (session_states.commanding_live (session_parts.of_parts self.now) session seq name.now op.now last)) }
    {
        if seq <= last {
            again_from(session, self.boxes.reply(session, seq))
        } else if seq - last == 1 {
            Ok(Effect {
                act: Act::Do {
                    session,
                    name: name.copy()?,
                    op: op.copy()?,
                },
                command: Some((session, seq)),
                answer: None,
            })
        } else {
            Ok(only_answer(Some(Payload::Gap { session, last })))
        }
    }

    /// A command of a session in this state.
    fn commanding(
        &self,
        session: u64,
        seq: u64,
        name: &Name,
        op: &Op,
        state: SessionState,
    ) -> Result<Effect, NoMemory>
        ensures { IfOk result (λ effect. effect ≡ session_parts.effect_of (session_states.commanding (session_parts.of_parts self.now) session seq name.now op.now state)) }
    {
        match state {
            SessionState::Live => {
                let last = self.boxes.last_seq(session);
                self.commanding_live(session, seq, name, op, last)
            }
            SessionState::Ended { place, how } => Ok(told_end(session, place, how)),
            SessionState::Unknown => Ok(nothing()),
        }
    }

    /// A live session ends at this place.
    fn ending(
        &mut self,
        place: u64,
        session: u64,
        how: How,
        act: Act,
        answer: Option<Payload>,
    ) -> Result<Effect, NoMemory>
        requires { tables.state_of self.old.table session ≡ known.Live }
        ensures effect { IfOk result (λ effect. effect ≡ session_parts.effect_of (session_states.ending (session_parts.of_parts self.old) place session how act answer)) }
        ensures after { OnOk result (self.new ≡ session_parts.parts_after self.old (session_states.ending (session_parts.of_parts self.old) place session how act answer)) }
    {
        self.table.finish(session, place, how)?;
        self.boxes.remove(session);
        Ok(Effect {
            act,
            command: None,
            answer,
        })
    }

    /// The client closes a session in this state.
    fn closing(&mut self, place: u64, session: u64, state: SessionState) -> Result<Effect, NoMemory>
        requires { tables.state_of self.old.table session ≡ state }
        ensures effect { IfOk result (λ effect. effect ≡ session_parts.effect_of (session_states.closing (session_parts.of_parts self.old) place session state)) }
        ensures after { OnOk result (self.new ≡ session_parts.parts_after self.old (session_states.closing (session_parts.of_parts self.old) place session state)) }
    {
        match state {
            SessionState::Live => {
                let how = How::Closed;
                let answer = Payload::Ended {
                    session,
                    place,
                    how,
                };
                self.ending(place, session, how, Act::Close { session }, Some(answer))
            }
            SessionState::Ended { place, how } => Ok(told_end(session, place, how)),
            SessionState::Unknown => Ok(nothing()),
        }
    }

    #[tactic(auto, using(crate::proofs::BelowNext::expiring_live))]
    /// A leader ends a session that has given no sign for the timeout.
    fn expiring(&mut self, place: u64, time: u64, session: u64) -> Result<Effect, NoMemory>
        ensures effect { IfOk result (λ effect. effect ≡ session_parts.effect_of (session_states.expiring (session_parts.of_parts self.old) place time session)) }
        ensures after { OnOk result (self.new ≡ session_parts.parts_after self.old (session_states.expiring (session_parts.of_parts self.old) place time session)) }
    {
        if self.table.may_expire(session, time) {
            let act = Act::Expire { session };
            self.ending(place, session, How::Expired, act, None)
        } else {
            Ok(nothing())
        }
    }

    #[tactic(auto, using(crate::proofs::QuietCommands::commanding_quiet))]
    /// What an entry's body does at a place and log time.
    pub fn effect(&mut self, place: u64, time: u64, body: &Body) -> Result<Effect, NoMemory>
        requires { session_parts.LieBelow place self.old.table self.old.boxes }
        ensures effect { IfOk result (λ effect. effect ≡ session_parts.effect_of (session_states.effect (session_parts.of_parts self.old) place time body.now)) }
        ensures after { OnOk result (self.new ≡ session_parts.parts_after self.old (session_states.effect (session_parts.of_parts self.old) place time body.now)) }
    {
        match body {
            Body::Blank => Ok(nothing()),
            Body::Register { client, opening } => self.registering(place, time, *client, *opening),
            Body::Keep {
                session,
                answered,
                heard,
                ..
            } => {
                let state = self.table.state_of(*session);
                Ok(self.keeping(time, *session, *answered, *heard, state))
            }
            Body::Command {
                session,
                seq,
                name,
                op,
                ..
            } => {
                let state = self.table.state_of(*session);
                self.commanding(*session, *seq, name, op, state)
            }
            Body::Close { session, .. } => {
                let state = self.table.state_of(*session);
                self.closing(place, *session, state)
            }
            Body::Expire { session } => self.expiring(place, time, *session),
        }
    }
}
