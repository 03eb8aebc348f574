ghost use Rattle.std.specs.Prelude.{◌≡◌, ◌≢◌, ◌-◌, ◌^◌, ◌<◌, ◌≤◌, IfOk, OnOk};
ghost use Rattle.spec_node.specs.Node as nodes;
ghost use Rattle.raft_node.specs.StepOutcomes as outcomes;

use crate::did::Did;
use crate::leading::Leading;
use crate::node::{RaftNode, Role};
use crate::others::Others;
use crate::packets::{packet, single};
use ax_types::{List, NoMemory, NodeId, Packet, Payload};

impl RaftNode {
    /// A term is seen: a higher one makes a follower of this node (Ongaro 2014, 3.3).
    pub(crate) fn see(&mut self, term: u64)
        ensures { self.new ≡ nodes.seen self.old term }
    {
        if self.ballot.see(term) {
            self.role = Role::Follower;
            self.leader = None;
            self.leading = Leading::none(self.alloc, self.ballot.me());
        }
    }

    /// The node stands for election in the next term (Ongaro 2014, 3.4).
    fn stand(&mut self)
        requires { self.old.ballot.term < 2 ^ 64 - 1 }
        ensures { self.new ≡ nodes.candidate self.old }
    {
        self.ballot.begin();
        self.role = Role::Candidate;
        self.leader = None;
        self.leading = Leading::none(self.alloc, self.ballot.me());
    }

    /// A candidacy in the next term (Ongaro 2014, 3.4).
    pub(crate) fn candidacy(&mut self, clock: u64) -> Result<Did, NoMemory>
        requires { self.old.ballot.term < 2 ^ 64 - 1 }
        ensures did { IfOk result (λ did. did ≡ outcomes.shown (nodes.candidacy self.old clock)) }
        ensures after { OnOk result (self.new ≡ (nodes.candidacy self.old clock).node) }
    {
        self.stand();
        if self.ballot.is_elected() {
            return self.lead(clock);
        }
        Ok(Did::sending(self.alloc, self.vote_requests()?))
    }

    /// The packets that ask each other node for its vote.
    fn vote_requests(&self) -> Result<List<Packet>, NoMemory>
        ensures { IfOk result (λ packets. packets ≡ nodes.vote_requests self.now) }
    {
        let mut packets = List::new(self.alloc);
        let mut others = self.others();
        'others: while let Some(node) = others.pop() {
            packets.push(self.vote_request(node))?;
        }
        Ok(packets)
    }

    /// The packet that asks a node for its vote.
    fn vote_request(&self, node: NodeId) -> Packet
        ensures { result ≡ outcomes.vote_request self.now node }
    {
        let payload = Payload::Vote {
            term: self.ballot.term(),
            last: self.log.last(),
            last_term: self.log.last_term(),
        };
        packet(self.ballot.me(), node, payload)
    }

    /// The other nodes, in ascending order.
    pub(crate) fn others(&self) -> Others
        ensures { result ≡ nodes.each_other self.now }
    {
        Others::new(self.ballot.me(), self.ballot.nodes())
    }

    /// A candidate asks for the vote (Ongaro 2014, 3.4 and 3.6.1).
    pub(crate) fn vote_asked(
        &mut self,
        from: NodeId,
        term: u64,
        last: u64,
        last_term: u64,
    ) -> Result<Did, NoMemory>
        requires other { from ≢ self.old.ballot.me }
        requires member { from ≤ self.old.ballot.nodes }
        ensures did { IfOk result (λ did. did ≡ outcomes.shown (nodes.vote_asked self.old from term last last_term)) }
        ensures after { OnOk result (self.new ≡ (nodes.vote_asked self.old from term last last_term).node) }
    {
        let me = self.ballot.me();
        let own_term = self.ballot.term();
        let granted = self.ballot.grant(&self.log, term, from, last, last_term);
        let payload = Payload::VoteReply {
            term: own_term,
            granted,
        };
        let packets = single(self.alloc, packet(me, from, payload))?;
        Ok(Did::sending(self.alloc, packets))
    }

    /// A vote is counted, and the first majority makes a leader (Ongaro 2014, 3.4).
    fn vote_counted(&mut self, from: NodeId, clock: u64) -> Result<Did, NoMemory>
        requires other { from ≢ self.old.ballot.me }
        requires member { from ≤ self.old.ballot.nodes }
        ensures did { IfOk result (λ did. did ≡ outcomes.shown (nodes.vote_counted self.old from clock)) }
        ensures after { OnOk result (self.new ≡ (nodes.vote_counted self.old from clock).node) }
    {
        if self.ballot.count(from) {
            return self.lead(clock);
        }
        Ok(Did::nothing(self.alloc))
    }

    /// An answer to a request for the vote: a candidate of its term counts a vote that was given.
    pub(crate) fn vote_heeded(
        &mut self,
        from: NodeId,
        clock: u64,
        term: u64,
        granted: bool,
    ) -> Result<Did, NoMemory>
        requires other { from ≢ self.old.ballot.me }
        requires member { from ≤ self.old.ballot.nodes }
        ensures did { IfOk result (λ did. did ≡ outcomes.shown (nodes.vote_heeded self.old from clock term granted)) }
        ensures after { OnOk result (self.new ≡ (nodes.vote_heeded self.old from clock term granted).node) }
    {
        if term == self.ballot.term() && self.is_candidate() && granted {
            return self.vote_counted(from, clock);
        }
        Ok(Did::nothing(self.alloc))
    }
}
