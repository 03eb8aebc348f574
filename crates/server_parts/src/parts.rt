ghost use Rattle.std.specs.Prelude.{◌≡◌, ◌≤◌, ◌++◌, [], false, IfOk, OnOk};
ghost use Rattle.std.specs.Option.{option_map};
ghost use Rattle.ax_types.specs.declared.limits.TheConstants.{MAX_TIMEOUT};
ghost use Rattle.spec_server.specs.ServerStep as server_steps;
ghost use Rattle.spec_sessions.specs.Sessions as session_states;
ghost use Rattle.server_parts.specs.StepAsks as asked;
ghost use Rattle.server_parts.specs.StepStages as stages;

use crate::answers::{answer_hearing, answer_queries};
use crate::connections::Connections;
use crate::holding::hold_all;
use crate::places::apply_all;
use crate::readings::Readings;
use crate::requests::{Asks, Hearing};
use ax_types::{Act, Held, Item, List, NoMemory, Out, Packet, Saves, ServerOut};
use query_gate::QueryGate;
use raft_node::RaftNode;
use sess_state::SessState;
use std::alloc::Global;
use std::marker::Model;

/// The parts of a server. Contracts see the server of the definitions, and whether the session state is spent.
#[derive(Drop)]
pub struct Parts {
    /// What the lists of a step are made with.
    pub alloc: Global,
    /// The Raft node, which an input steps first.
    pub raft: RaftNode,
    /// The session state, which is asked for the sessions that are due.
    pub state: SessState,
    gate: QueryGate,
    readings: Readings,
    connections: Connections,
}

impl Model for Parts {
    ghost use Rattle.server_parts.specs.ServerStates as states;

    ghost Value = { states.ServerState };

    ghost view = { λ a. record { server = record { raft = a.raft; state = a.state.sessions; gate = a.gate; readings = a.readings; connections = a.connections }; is_spent = a.state.is_spent } };
}

impl Parts {
    /// The parts of a server around a Raft node to which nothing has happened since it was loaded. They take no memory.
    pub fn around(alloc: Global, raft: RaftNode, timeout: u64) -> Self
        requires low { 1 ≤ timeout }
        requires high { timeout ≤ MAX_TIMEOUT }
        ensures { result ≡ record { server = record { raft = raft; state = session_states.new_sessions timeout; gate = []; readings = []; connections = [] }; is_spent = false } }
    {
        Parts {
            alloc,
            raft,
            state: SessState::new(alloc, timeout),
            gate: QueryGate::new(alloc),
            readings: Readings::new(alloc),
            connections: Connections::new(alloc),
        }
    }

    /// What the Raft node gives where it is asked nothing. It takes no memory.
    pub fn idle(&self) -> Out
        ensures { result ≡ server_steps.idle_out self.now.server.raft }
    {
        Out {
            saves: Saves {
                vote: None,
                cut: None,
                add: List::new(self.alloc),
            },
            packets: List::new(self.alloc),
            committed: self.raft.commit(),
            reads: List::new(self.alloc),
            reached: None,
            led: false,
        }
    }

    /// What a step does once the Raft node has stepped and given this: the places newly committed, the gate, and the answers.
    /// After want of memory the step may be half done.
    pub fn finish(&mut self, out: Out, asks: Asks) -> Result<ServerOut, NoMemory>
        requires { self.old.is_spent ≡ false }
        ensures out { IfOk result (λ o. o ≡ server_steps.out_at (asked.stage_behind self.old.server out (asked.asks_of asks)) (asked.asks_of asks)) }
        ensures after { OnOk result (self.new ≡ record { server = server_steps.server_at (asked.stage_behind self.old.server out (asked.asks_of asks)); is_spent = false }) }
    {
        let reach = self.take_up(asks.connect, asks.read, out.reached)?;
        let mut packets = out.packets;
        pass_on(asks.passed, &mut packets)?;
        let acts = self.catch_up(&mut packets)?;
        self.hold(asks.held, out.reads)?;
        self.let_go(asks.hearing, &mut packets)?;
        Ok(ServerOut {
            saves: out.saves,
            packets,
            committed: out.committed,
            acts,
            led: self.led_term(out.led),
            reach,
        })
    }

    /// A session is connected, and a read that was taken waits with its query, which is told.
    fn take_up(
        &mut self,
        connect: Option<Hearing>,
        read: Option<Held>,
        reached: Option<u64>,
    ) -> Result<Option<Item>, NoMemory>
        ensures reach { IfOk result (λ reach. reach ≡ server_steps.reach_item self.old.server.raft read reached) }
        ensures after { OnOk result (self.new ≡ record { server = stages.taken_up self.old.server (option_map asked.hearing_of connect) read reached; is_spent = self.old.is_spent }) }
    {
        connect_session(&mut self.connections, connect)?;
        self.readings.begin(&self.raft, read, reached)
    }

    /// The places newly committed are applied: what they send is put behind the packets, and the time and the act of each are
    /// given.
    fn catch_up(&mut self, packets: &mut List<Packet>) -> Result<List<(u64, Act)>, NoMemory>
        requires { self.old.is_spent ≡ false }
        ensures acts { IfOk result (λ acts. acts ≡ (stages.progress_in self.old.server).acts) }
        ensures packets { OnOk result (packets.new ≡ packets.old ++ (stages.progress_in self.old.server).packets) }
        ensures after { OnOk result (self.new ≡ record { server = stages.caught_up self.old.server; is_spent = false }) }
    {
        apply_all(
            self.alloc,
            &self.raft,
            &self.connections,
            &mut self.state,
            packets,
        )
    }

    /// A query that came and those of the reads that are ready wait at the gate.
    fn hold(&mut self, held: Option<Held>, reads: List<(u64, u64)>) -> Result<(), NoMemory>
        ensures { OnOk result (self.new ≡ record { server = stages.gated self.old.server (asked.listed held) reads; is_spent = self.old.is_spent }) }
    {
        hold_all(&mut self.gate, &self.readings, held, reads.as_slice())?;
        self.readings.end(&self.raft, reads.as_slice());
        Ok(())
    }

    /// The queries that the state is new enough for are let through and answered, and then Connect and Reset. The answers are
    /// put behind the packets.
    fn let_go(
        &mut self,
        hearing: Option<Hearing>,
        packets: &mut List<Packet>,
    ) -> Result<(), NoMemory>
        ensures packets { OnOk result (packets.new ≡ stages.with_answers packets.old self.old.server (option_map asked.hearing_of hearing)) }
        ensures after { OnOk result (self.new ≡ record { server = stages.let_go self.old.server; is_spent = self.old.is_spent }) }
    {
        let through = self.gate.release(&self.state)?;
        answer_queries(&self.raft, &self.state, through, packets)?;
        answer_hearing(&self.raft, &self.state, hearing, packets)
    }

    /// The term, where the node became its leader.
    fn led_term(&self, led: bool) -> Option<u64>
        ensures { result ≡ server_steps.led_term self.now.server.raft led }
    {
        if led { Some(self.raft.term()) } else { None }
    }
}

/// A session is connected, where one is to be.
fn connect_session(connections: &mut Connections, connect: Option<Hearing>) -> Result<(), NoMemory>
    ensures { OnOk result (connections.new ≡ server_steps.with_connection connections.old (option_map asked.hearing_of connect)) }
{
    match connect {
        Some(hearing) => connections.connect(hearing.session, hearing.client),
        None => Ok(()),
    }
}

/// A packet that is passed on, where one is. It is put behind the packets.
fn pass_on(passed: Option<Packet>, packets: &mut List<Packet>) -> Result<(), NoMemory>
    ensures { OnOk result (packets.new ≡ packets.old ++ asked.listed passed) }
{
    match passed {
        Some(packet) => packets.push(packet),
        None => Ok(()),
    }
}
