ghost use Rattle.std.specs.Prelude.{◌≡◌, ◌&&◌, [], ◌∷◌, ◌++◌, map, nat_eq, OnOk};
ghost use Rattle.std.specs.Option.{option_map};
ghost use Rattle.spec_node.specs.Node as nodes;
ghost use Rattle.spec_server.specs.Gates as gates;
ghost use Rattle.spec_server.specs.ServerStep as server_steps;
ghost use Rattle.server_parts.specs.StepAsks as asks;

use crate::connections::Connections;
use crate::requests::Hearing;
use ax_types::{
    Asked, Batch, ClientId, End, Entry, Held, List, NoMemory, Packet, Payload, SessionState,
};
use raft_node::RaftNode;
use sess_state::SessState;

/// A packet to a client.
fn to_client(raft: &RaftNode, client: ClientId, payload: Payload) -> Packet
    ensures { result ≡ server_steps.to_client raft.now client payload }
{
    Packet {
        from: End::Node(raft.me()),
        to: End::Client(client),
        payload,
    }
}

/// An answer as a packet, where there is one. It is put behind the packets.
fn answer_to(
    raft: &RaftNode,
    answer: Option<(ClientId, Payload)>,
    packets: &mut List<Packet>,
) -> Result<(), NoMemory>
    ensures { OnOk result (packets.new ≡ packets.old ++ server_steps.answers_to raft.now answer) }
{
    match answer {
        Some((client, payload)) => packets.push(to_client(raft, client, payload)),
        None => Ok(()),
    }
}

/// Whether an entry's answer is given here: the leader gives it for the entries of its own term alone.
fn is_answered(raft: &RaftNode, entry: &Entry) -> bool
    ensures { result ≡ (nodes.is_leader raft.now && nat_eq entry.now.term raft.now.ballot.term) }
{
    raft.is_leader() && entry.term == raft.term()
}

/// The answer of an entry, where it is given here. It is put behind the packets.
pub fn answer_entry(
    raft: &RaftNode,
    entry: &Entry,
    answer: Option<(ClientId, Payload)>,
    packets: &mut List<Packet>,
) -> Result<(), NoMemory>
    ensures { OnOk result (packets.new ≡ packets.old ++ server_steps.entry_answer raft.now entry.now answer) }
{
    if is_answered(raft, entry) {
        answer_to(raft, answer, packets)
    } else {
        Ok(())
    }
}

/// A batch as a payload.
fn batch_payload(session: u64, batch: Batch) -> Payload
    ensures { result ≡ server_steps.batch_payload session batch }
{
    Payload::Batch {
        session,
        place: batch.place,
        prev: batch.prev,
        events: batch.events,
    }
}

/// A batch goes to its session where that is connected here, whoever leads. It is put behind the packets.
fn send_batch(
    raft: &RaftNode,
    connections: &Connections,
    told: (u64, Batch),
    packets: &mut List<Packet>,
) -> Result<(), NoMemory>
    ensures { OnOk result (packets.new ≡ packets.old ++ server_steps.batch_to raft.now told.0 told.1 (gates.connection connections.now told.0)) }
{
    let (session, batch) = told;
    match connections.connection(session) {
        Some(found) => packets.push(to_client(raft, found.client(), batch_payload(session, batch))),
        None => Ok(()),
    }
}

/// Batches go to their sessions. They are put behind the packets.
pub fn send_batches(
    raft: &RaftNode,
    connections: &Connections,
    batches: List<(u64, Batch)>,
    packets: &mut List<Packet>,
) -> Result<(), NoMemory>
    ensures { OnOk result (packets.new ≡ packets.old ++ server_steps.batches_to raft.now connections.now batches) }
{
    'batches: for told in batches.into_vec() {
        send_batch(raft, connections, told, packets)?;
    }
    Ok(())
}

/// The term and the arrival of a reach, 0 where there is none.
fn reach_numbers(reach: Option<(u64, u64)>) -> (u64, u64)
    ensures { result ≡ (server_steps.reach_term reach, server_steps.reach_arrival reach) }
{
    match reach {
        Some(numbers) => numbers,
        None => (0, 0),
    }
}

/// The answer to a query that was let through (Ongaro 2014, 6.4).
fn answer_payload(held: &Held, asked: Asked) -> Payload
    ensures { result ≡ server_steps.answer_payload held.now asked }
{
    match asked {
        Asked::Answer {
            place,
            events,
            reply,
        } => {
            let (term, arrival) = reach_numbers(held.reach);
            Payload::Answer {
                session: held.session,
                call: held.call,
                level: held.level,
                place,
                events,
                term,
                arrival,
                reply,
            }
        }
        Asked::Ended { place, how } => Payload::Ended {
            session: held.session,
            place,
            how,
        },
    }
}

/// The answer to a query that was let through, as a packet. It is put behind the packets.
fn answer_query(
    raft: &RaftNode,
    state: &SessState,
    held: &Held,
    packets: &mut List<Packet>,
) -> Result<(), NoMemory>
    ensures { OnOk result (packets.new ≡ packets.old ++ server_steps.query_answer raft.now state.now.sessions held.now ∷ []) }
{
    let asked = state.ask(held.session, &held.name, &held.query)?;
    packets.push(to_client(raft, held.client, answer_payload(held, asked)))
}

/// The answers to the queries that were let through. They are put behind the packets.
pub fn answer_queries(
    raft: &RaftNode,
    state: &SessState,
    through: List<Held>,
    packets: &mut List<Packet>,
) -> Result<(), NoMemory>
    ensures { OnOk result (packets.new ≡ packets.old ++ map (server_steps.query_answer raft.now state.now.sessions) through) }
{
    'queries: for held in through.into_vec() {
        answer_query(raft, state, &held, packets)?;
    }
    Ok(())
}

/// Batches of a session that its client asked for. They are put behind the packets.
fn send_heard(
    raft: &RaftNode,
    client: ClientId,
    session: u64,
    batches: List<Batch>,
    packets: &mut List<Packet>,
) -> Result<(), NoMemory>
    ensures { OnOk result (packets.new ≡ packets.old ++ map (λ b. server_steps.to_client raft.now client (server_steps.batch_payload session b)) batches) }
{
    'batches: for batch in batches.into_vec() {
        packets.push(to_client(raft, client, batch_payload(session, batch)))?;
    }
    Ok(())
}

/// The answer to Connect and Reset of a session in this state: its end, or its first batches above what it has heard. It is
/// put behind the packets.
fn answer_state(
    raft: &RaftNode,
    state: &SessState,
    hearing: Hearing,
    known: SessionState,
    packets: &mut List<Packet>,
) -> Result<(), NoMemory>
    ensures { OnOk result (packets.new ≡ packets.old ++ server_steps.hearing_state raft.now state.now.sessions (asks.hearing_of hearing) known) }
{
    match known {
        SessionState::Unknown => Ok(()),
        SessionState::Live => {
            let batches = state.after(hearing.session, hearing.heard)?;
            send_heard(raft, hearing.client, hearing.session, batches, packets)
        }
        SessionState::Ended { place, how } => {
            let ended = Payload::Ended {
                session: hearing.session,
                place,
                how,
            };
            packets.push(to_client(raft, hearing.client, ended))
        }
    }
}

/// The answer to Connect and Reset, where one of them came. It is put behind the packets.
pub fn answer_hearing(
    raft: &RaftNode,
    state: &SessState,
    hearing: Option<Hearing>,
    packets: &mut List<Packet>,
) -> Result<(), NoMemory>
    ensures { OnOk result (packets.new ≡ packets.old ++ server_steps.hearing_answer raft.now state.now.sessions (option_map asks.hearing_of hearing)) }
{
    match hearing {
        Some(hearing) => {
            let known = state.state_of(hearing.session);
            answer_state(raft, state, hearing, known, packets)
        }
        None => Ok(()),
    }
}
