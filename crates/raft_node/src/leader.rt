ghost use Rattle.std.specs.Prelude.{◌≡◌, ◌-◌, ◌^◌, ◌<◌, map, IfOk, OnOk};
ghost use Rattle.spec_node.specs.Node as nodes;
ghost use Rattle.raft_node.specs.StepOutcomes as outcomes;

use crate::did::Did;
use crate::leading::Leading;
use crate::node::{RaftNode, Role};
use crate::packets::{packet, single};
use ax_types::{Body, Entry, List, NoMemory, NodeId, Packet, Payload};
use raft_log::copies;

impl RaftNode {
    /// The commit rises as far as a majority holds entries of this term (Ongaro 2014, 3.6.2).
    fn advance(&mut self)
        ensures { self.new ≡ nodes.advanced self.old }
    {
        self.commit = self
            .leading
            .commit_place(&self.log, self.ballot.term(), self.commit);
    }

    /// Entries are added to a leader's log.
    fn extend(&mut self, entries: Vec<Entry>) -> Result<(), NoMemory>
        ensures { OnOk result (self.new ≡ nodes.extended self.old entries.items) }
    {
        self.log.replace(None, entries)?;
        self.advance();
        Ok(())
    }

    /// Bodies as entries of this term, at the greater of a clock and the time of the last entry.
    fn entries_of(&self, clock: u64, bodies: List<Body>) -> Result<Vec<Entry>, NoMemory>
        ensures { IfOk result (λ entries. entries.items ≡ nodes.entries_of self.now.ballot.term (nodes.time_for self.now clock) bodies) }
    {
        let term = self.ballot.term();
        let time = self.time_for(clock);
        let entries = bodies
            .into_vec()
            .into_iter()
            .map(|body| Entry { term, time, body })
            .collect(self.alloc)?;
        Ok(entries)
    }

    /// Bodies are appended as entries of this term (Ongaro 2014, 3.5).
    pub(crate) fn appended(&mut self, clock: u64, bodies: List<Body>) -> Result<Did, NoMemory>
        ensures did { IfOk result (λ did. did ≡ outcomes.shown (nodes.appended self.old clock bodies)) }
        ensures after { OnOk result (self.new ≡ (nodes.appended self.old clock bodies).node) }
    {
        let entries = self.entries_of(clock, bodies)?;
        let add = List::from_vec(copies(self.alloc, &entries)?);
        self.extend(entries)?;
        Ok(Did {
            cut: None,
            add,
            packets: List::new(self.alloc),
            reached: None,
            led: false,
        })
    }

    /// The node leads, as its log stands, from the next place on.
    fn take_lead(&mut self)
        ensures { self.new ≡ nodes.leading_from self.old }
    {
        let me = self.ballot.me();
        self.role = Role::Leader;
        self.leader = Some(me);
        self.leading = Leading::since(self.alloc, me, self.ballot.nodes(), self.log.last() + 1);
    }

    /// A candidate with a majority leads, and appends a blank entry of its term (Ongaro 2014, 3.4 and 6.4).
    pub(crate) fn lead(&mut self, clock: u64) -> Result<Did, NoMemory>
        ensures did { IfOk result (λ did. did ≡ outcomes.shown (nodes.led self.old clock)) }
        ensures after { OnOk result (self.new ≡ (nodes.led self.old clock).node) }
    {
        self.take_lead();
        let mut did = self.appended(clock, single(self.alloc, Body::Blank)?)?;
        did.led = true;
        Ok(did)
    }

    /// The entries that a node gets next, with the one before them at a place (Ongaro 2014, 3.5).
    fn sent_after(&self, node: NodeId, prev: u64) -> Result<Packet, NoMemory>
        requires { prev < 2 ^ 64 - 1 }
        ensures { IfOk result (λ packet. packet ≡ nodes.sent_after self.now node prev) }
    {
        let payload = Payload::Append {
            term: self.ballot.term(),
            prev,
            prev_term: self.log.term_at(prev),
            commit: self.commit,
            round: self.leading.round(),
            entries: self.log.run_from(prev + 1)?,
        };
        Ok(packet(self.ballot.me(), node, payload))
    }

    /// The entries that a node gets next (Ongaro 2014, 3.5).
    fn sent_to(&self, node: NodeId) -> Result<Packet, NoMemory>
        ensures { IfOk result (λ packet. packet ≡ nodes.sent_to self.now node) }
    {
        self.sent_after(node, self.leading.next(node).saturating_sub(1))
    }

    /// A new round, sent to each other node (Ongaro 2014, 3.5 and 6.4).
    pub(crate) fn beaten(&mut self) -> Result<Did, NoMemory>
        ensures did { IfOk result (λ did. did ≡ outcomes.shown (nodes.beaten self.old)) }
        ensures after { OnOk result (self.new ≡ (nodes.beaten self.old).node) }
    {
        self.leading.tick()?;
        Ok(Did::sending(self.alloc, self.sent_to_others()?))
    }

    /// The entries that each other node gets next.
    fn sent_to_others(&self) -> Result<List<Packet>, NoMemory>
        ensures { IfOk result (λ packets. packets ≡ map (nodes.sent_to self.now) (nodes.each_other self.now)) }
    {
        let mut packets = List::new(self.alloc);
        let mut others = self.others();
        'others: while let Some(node) = others.pop() {
            packets.push(self.sent_to(node)?)?;
        }
        Ok(packets)
    }

    /// A read arrives at a leader. It is not taken where 256 wait (Ongaro 2014, 6.4).
    pub(crate) fn read_arrived(&mut self) -> Result<Did, NoMemory>
        ensures did { IfOk result (λ did. did ≡ outcomes.shown (nodes.read_arrived self.old)) }
        ensures after { OnOk result (self.new ≡ (nodes.read_arrived self.old).node) }
    {
        let reached = self.leading.take_read(self.commit)?;
        let mut did = Did::nothing(self.alloc);
        did.reached = reached;
        Ok(did)
    }

    /// The next entries for a node, where it may lack some.
    fn more_to(&self, node: NodeId) -> Result<List<Packet>, NoMemory>
        ensures { IfOk result (λ packets. packets ≡ nodes.more_to self.now node) }
    {
        if self.leading.next(node) > self.log.last() {
            return Ok(List::new(self.alloc));
        }
        single(self.alloc, self.sent_to(node)?)
    }

    /// Another node holds the log up to a place (Ongaro 2014, 3.5).
    fn append_accepted(&mut self, from: NodeId, place: u64, round: u64) -> Result<Did, NoMemory>
        ensures did { IfOk result (λ did. did ≡ outcomes.shown (nodes.append_accepted self.old from place round)) }
        ensures after { OnOk result (self.new ≡ (nodes.append_accepted self.old from place round).node) }
    {
        let last = self.log.last();
        if !self.leading.accept(from, place, round, last) {
            return Ok(Did::nothing(self.alloc));
        }
        self.advance();
        Ok(Did::sending(self.alloc, self.more_to(from)?))
    }

    /// Another node lacks the entry before those sent, and gets earlier ones (Ongaro 2014, 3.5).
    fn append_refused(&mut self, from: NodeId, place: u64, round: u64) -> Result<Did, NoMemory>
        ensures did { IfOk result (λ did. did ≡ outcomes.shown (nodes.append_refused self.old from place round)) }
        ensures after { OnOk result (self.new ≡ (nodes.append_refused self.old from place round).node) }
    {
        if !self.leading.refuse(from, place, round) {
            return Ok(Did::nothing(self.alloc));
        }
        let packets = single(self.alloc, self.sent_to(from)?)?;
        Ok(Did::sending(self.alloc, packets))
    }

    /// The answer to an append packet, which a leader of its term heeds (Ongaro 2014, 3.5).
    pub(crate) fn append_answered(
        &mut self,
        from: NodeId,
        term: u64,
        ok: bool,
        place: u64,
        round: u64,
    ) -> Result<Did, NoMemory>
        ensures did { IfOk result (λ did. did ≡ outcomes.shown (nodes.append_answered self.old from term ok place round)) }
        ensures after { OnOk result (self.new ≡ (nodes.append_answered self.old from term ok place round).node) }
    {
        if !self.is_leader() || term != self.ballot.term() {
            return Ok(Did::nothing(self.alloc));
        }
        if ok {
            self.append_accepted(from, place, round)
        } else {
            self.append_refused(from, place, round)
        }
    }
}
