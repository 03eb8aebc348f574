ghost use Rattle.std.specs.Prelude.{◌≡◌, ◌-◌, ◌^◌, ◌<◌, ◌≤◌, length, drop, IfOk, OnOk, false};
ghost use Rattle.spec_raft.specs.Log as logs;
ghost use Rattle.spec_node.specs.Node as nodes;
ghost use Rattle.raft_node.specs.StepOutcomes as outcomes;

use crate::did::Did;
use crate::node::{RaftNode, Role};
use crate::packets::{packet, single};
use ax_types::{Change, Entry, List, NoMemory, NodeId, Packet, Payload};
use raft_log::copies;
use std::alloc::Global;

impl RaftNode {
    /// The answer to an append packet.
    fn reply_to(&self, from: NodeId, ok: bool, place: u64, round: u64) -> Packet
        ensures { result ≡ nodes.reply_to self.now from ok place round }
    {
        let payload = Payload::AppendReply {
            term: self.ballot.term(),
            ok,
            place,
            round,
        };
        packet(self.ballot.me(), from, payload)
    }

    /// That answer alone.
    fn replying(&self, from: NodeId, ok: bool, place: u64, round: u64) -> Result<Did, NoMemory>
        ensures { IfOk result (λ did. did ≡ outcomes.replying self.now from ok place round) }
    {
        let packets = single(self.alloc, self.reply_to(from, ok, place, round))?;
        Ok(Did::sending(self.alloc, packets))
    }

    /// The node follows a leader of its term.
    fn follow(&mut self, from: NodeId)
        ensures { self.new ≡ nodes.followed self.old from }
    {
        self.role = Role::Follower;
        self.leader = Some(from);
    }

    /// Whether a place is committed, where there is one.
    fn is_committed(&self, place: Option<u64>) -> bool
        ensures { result ≡ nodes.is_committed self.now place }
    {
        match place {
            None => false,
            Some(place) => place <= self.commit,
        }
    }

    /// The log is made to hold the entries sent, and what of it is committed is learnt (Ongaro 2014, 3.5). Answers what
    /// was cut, and how many entries were added.
    fn hold_sent(&mut self, prev: u64, commit: u64, sent: &[Entry]) -> Result<Change, NoMemory>
        requires within { prev ≤ length self.old.log }
        requires small { prev < 2 ^ 63 }
        requires stays { nodes.is_committed self.old (logs.first_conflict self.old.log prev sent.now) ≡ false }
        ensures change { IfOk result (λ change. change ≡ logs.change_of self.old.log prev sent.now) }
        ensures after { OnOk result (self.new ≡ nodes.held_sent self.old prev commit sent.now) }
    {
        let change = self.log.cut_and_add(prev, sent)?;
        self.commit = self.commit.max(commit.min(prev + sent.len() as u64));
        Ok(change)
    }

    /// The entries sent are taken: the answer says so, and those that were lacking are to be saved (Ongaro 2014, 3.5).
    fn sent_taken(
        &mut self,
        from: NodeId,
        prev: u64,
        commit: u64,
        round: u64,
        sent: &[Entry],
    ) -> Result<Did, NoMemory>
        requires within { prev ≤ length self.old.log }
        requires small { prev < 2 ^ 63 }
        requires stays { nodes.is_committed self.old (logs.first_conflict self.old.log prev sent.now) ≡ false }
        ensures did { IfOk result (λ did. did ≡ outcomes.shown (nodes.sent_taken self.old from prev commit round sent.now)) }
        ensures after { OnOk result (self.new ≡ (nodes.sent_taken self.old from prev commit round sent.now).node) }
    {
        let mut did = self.replying(from, true, prev + sent.len() as u64, round)?;
        let change = self.hold_sent(prev, commit, sent)?;
        did.cut = change.cut;
        did.add = last_of(self.alloc, sent, change.added)?;
        Ok(did)
    }

    /// A leader's append packet at a node that follows it. No entry at or below the commit is ever cut: a packet that
    /// would is not answered (Ongaro 2014, 3.5).
    fn append_followed(
        &mut self,
        from: NodeId,
        prev: u64,
        prev_term: u64,
        commit: u64,
        round: u64,
        sent: &[Entry],
    ) -> Result<Did, NoMemory>
        ensures did { IfOk result (λ did. did ≡ outcomes.shown (nodes.append_followed self.old from prev prev_term commit round sent.now)) }
        ensures after { OnOk result (self.new ≡ (nodes.append_followed self.old from prev prev_term commit round sent.now).node) }
    {
        let last = self.log.last();
        if !self.log.match_at(prev, prev_term) {
            let hint = prev.saturating_sub(1).min(last);
            return self.replying(from, false, hint, round);
        }
        let conflict = self.log.first_conflict(prev, sent);
        if self.is_committed(conflict) {
            return Ok(Did::nothing(self.alloc));
        }
        self.sent_taken(from, prev, commit, round, sent)
    }

    /// An append packet. The round of an earlier term is never handed back, and a leader ignores a packet of its own
    /// term (Ongaro 2014, 3.5).
    pub(crate) fn append_heeded(
        &mut self,
        from: NodeId,
        term: u64,
        prev: u64,
        prev_term: u64,
        commit: u64,
        round: u64,
        sent: &[Entry],
    ) -> Result<Did, NoMemory>
        ensures did { IfOk result (λ did. did ≡ outcomes.shown (nodes.append_heeded self.old from term prev prev_term commit round sent.now)) }
        ensures after { OnOk result (self.new ≡ (nodes.append_heeded self.old from term prev prev_term commit round sent.now).node) }
    {
        if term < self.ballot.term() {
            return self.replying(from, false, 0, 0);
        }
        if self.is_leader() {
            return Ok(Did::nothing(self.alloc));
        }
        self.follow(from);
        self.append_followed(from, prev, prev_term, commit, round, sent)
    }
}

/// Copies of the last so many entries.
fn last_of(alloc: Global, entries: &[Entry], count: u64) -> Result<List<Entry>, NoMemory>
    requires { count ≤ length entries.now }
    ensures { IfOk result (λ last. last ≡ drop (length entries.now - count) entries.now) }
{
    let first = entries.len() - count as usize;
    Ok(List::from_vec(copies(alloc, &entries[first..])?))
}
