ghost use Rattle.std.specs.Prelude.{◌≡◌, ◌≢◌, ◌-◌, ◌^◌, ◌<◌, ◌≤◌, true, false, IfOk, OnOk};
ghost use Rattle.ax_types.specs.declared.raft.RaftInput.TheVariants as input;
ghost use Rattle.spec_node.specs.Node as nodes;
ghost use Rattle.spec_node.specs.NodeStep as node_steps;
ghost use Rattle.raft_node.specs.Conditions as conditions;
ghost use Rattle.raft_node.specs.StepOutcomes as outcomes;

use crate::did::Did;
use crate::node::RaftNode;
use ax_types::{Body, Duplicate, List, NoMemory, NodeId, Out, Payload, RaftInput, Saves};

impl RaftNode {
    /// One step for an input (Ongaro 2014, figure 3.1). What it saves is to be kept before anything else of it counts.
    pub fn step(&mut self, input: &RaftInput) -> Result<Out, NoMemory>
        requires { conditions.MayTake self.old input.now }
        ensures out { IfOk result (λ out. out ≡ node_steps.out self.old input.now) }
        ensures after { OnOk result (self.new ≡ node_steps.stepped self.old input.now) }
    {
        match input {
            RaftInput::Elect { clock } => self.elect(*clock),
            RaftInput::Beat => self.beat(),
            RaftInput::Append { clock, bodies } => self.append(*clock, bodies.copy()?),
            RaftInput::Read => self.read(),
            RaftInput::Message {
                from,
                clock,
                payload,
            } => self.hear(*from, *clock, payload),
        }
    }

    /// The step for a candidacy.
    pub fn elect(&mut self, clock: u64) -> Result<Out, NoMemory>
        requires follower { nodes.is_leader self.old ≡ false }
        requires term { self.old.ballot.term < 2 ^ 64 - 1 }
        ensures out { IfOk result (λ out. out ≡ node_steps.out self.old (input.Elect clock)) }
        ensures after { OnOk result (self.new ≡ node_steps.stepped self.old (input.Elect clock)) }
    {
        let kept = self.kept_ballot();
        let did = self.candidacy(clock)?;
        self.give(kept, did)
    }

    /// The step for a leader's new round. No round follows the greatest number, which is answered as want of memory.
    pub fn beat(&mut self) -> Result<Out, NoMemory>
        requires { nodes.is_leader self.old ≡ true }
        ensures out { IfOk result (λ out. out ≡ node_steps.out self.old input.Beat) }
        ensures after { OnOk result (self.new ≡ node_steps.stepped self.old input.Beat) }
    {
        let kept = self.kept_ballot();
        let did = self.beaten()?;
        self.give(kept, did)
    }

    /// The step for bodies to append at a leader, which become its entries.
    pub fn append(&mut self, clock: u64, bodies: List<Body>) -> Result<Out, NoMemory>
        requires { nodes.is_leader self.old ≡ true }
        ensures out { IfOk result (λ out. out ≡ node_steps.out self.old (input.Append clock bodies)) }
        ensures after { OnOk result (self.new ≡ node_steps.stepped self.old (input.Append clock bodies)) }
    {
        let kept = self.kept_ballot();
        let did = self.appended(clock, bodies)?;
        self.give(kept, did)
    }

    /// The step for a read at a leader. No read follows the greatest number, which is answered as want of memory.
    pub fn read(&mut self) -> Result<Out, NoMemory>
        requires { nodes.is_leader self.old ≡ true }
        ensures out { IfOk result (λ out. out ≡ node_steps.out self.old input.Read) }
        ensures after { OnOk result (self.new ≡ node_steps.stepped self.old input.Read) }
    {
        let kept = self.kept_ballot();
        let did = self.read_arrived()?;
        self.give(kept, did)
    }

    /// The step for a packet from another node. One that is none of the four between nodes changes nothing.
    pub fn hear(&mut self, from: NodeId, clock: u64, payload: &Payload) -> Result<Out, NoMemory>
        requires other { from ≢ self.old.ballot.me }
        requires member { from ≤ self.old.ballot.nodes }
        ensures out { IfOk result (λ out. out ≡ node_steps.out self.old (input.Message from clock payload.now)) }
        ensures after { OnOk result (self.new ≡ node_steps.stepped self.old (input.Message from clock payload.now)) }
    {
        let kept = self.kept_ballot();
        let did = self.packet_heeded(from, clock, payload)?;
        self.give(kept, did)
    }

    /// A packet from another node. A higher term in it is seen first (Ongaro 2014, 3.3).
    fn packet_heeded(
        &mut self,
        from: NodeId,
        clock: u64,
        payload: &Payload,
    ) -> Result<Did, NoMemory>
        requires other { from ≢ self.old.ballot.me }
        requires member { from ≤ self.old.ballot.nodes }
        ensures did { IfOk result (λ did. did ≡ outcomes.shown (node_steps.packet_heeded self.old from clock payload.now)) }
        ensures after { OnOk result (self.new ≡ (node_steps.packet_heeded self.old from clock payload.now).node) }
    {
        match payload {
            Payload::Vote {
                term,
                last,
                last_term,
            } => {
                self.see(*term);
                self.vote_asked(from, *term, *last, *last_term)
            }
            Payload::VoteReply { term, granted } => {
                self.see(*term);
                self.vote_heeded(from, clock, *term, *granted)
            }
            Payload::Append {
                term,
                prev,
                prev_term,
                commit,
                round,
                entries,
            } => {
                self.see(*term);
                self.append_heeded(
                    from,
                    *term,
                    *prev,
                    *prev_term,
                    *commit,
                    *round,
                    entries.as_slice(),
                )
            }
            Payload::AppendReply {
                term,
                ok,
                place,
                round,
            } => {
                self.see(*term);
                self.append_answered(from, *term, *ok, *place, *round)
            }
            _ => Ok(Did::nothing(self.alloc)),
        }
    }

    /// The term and the vote in it.
    fn kept_ballot(&self) -> (u64, Option<NodeId>)
        ensures { result ≡ (self.now.ballot.term, self.now.ballot.vote) }
    {
        (self.ballot.term(), self.ballot.vote())
    }

    /// The term and the vote, where one of them is not as it was.
    fn vote_since(&self, kept: (u64, Option<NodeId>)) -> Option<(u64, Option<NodeId>)>
        ensures { result ≡ outcomes.vote_since kept.0 kept.1 self.now }
    {
        let now = self.kept_ballot();
        if now == kept { None } else { Some(now) }
    }

    /// What a step gives after its rule: what is to be saved since the ballot was as kept, and the reads that are ready,
    /// which wait no more.
    fn give(&mut self, kept: (u64, Option<NodeId>), did: Did) -> Result<Out, NoMemory>
        ensures out { IfOk result (λ out. out ≡ outcomes.out_since kept.0 kept.1 self.old did) }
        ensures after { OnOk result (self.new ≡ node_steps.without_given self.old) }
    {
        let reads = self.leading.take_ready(self.commit)?;
        Ok(Out {
            saves: Saves {
                vote: self.vote_since(kept),
                cut: last_before(did.cut),
                add: did.add,
            },
            packets: did.packets,
            committed: self.commit,
            reads,
            reached: did.reached,
            led: did.led,
        })
    }
}

/// The last place that stays, where the entries from a place on were cut.
fn last_before(cut: Option<u64>) -> Option<u64>
    ensures { result ≡ node_steps.cut_save cut }
{
    match cut {
        None => None,
        Some(place) => Some(place.saturating_sub(1)),
    }
}
