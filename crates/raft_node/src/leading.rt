ghost use Rattle.std.specs.Prelude.{◌≡◌, ◌^◌, ◌-◌, ◌<◌, ◌≤◌, suc, max, [], None, Some, if◌then◌else◌, IfOk, OnOk};
ghost use Rattle.ax_types.specs.declared.limits.TheConstants.{MAX_NODES};
ghost use Rattle.spec_raft.specs.Progress as progresses;
ghost use Rattle.spec_node.specs.Node as nodes;

use ax_types::{Duplicate, List, NoMemory, NodeId};
use raft_commit::{Progress, Reads};
use raft_log::Log;
use std::alloc::Global;
use std::marker::Model;

/// What only a leader has: its first place, its round, how many reads arrived, those that wait, and what it knows of the
/// other nodes. A node that does not lead has zeros and nothing (Ongaro 2014, 3.5 and 6.4).
#[derive(Drop)]
pub struct Leading {
    alloc: Global,
    first: u64,
    round: u64,
    arrivals: u64,
    reads: Reads,
    peers: Progress,
}

impl Model for Leading {
    ghost use Rattle.spec_node.specs.Node as nodes;

    ghost Value = { nodes.Leading };

    ghost view = { λ a. record { first = a.first; round = a.round; arrivals = a.arrivals; reads = a.reads; peers = a.peers } };
}

impl Leading {
    /// What a node has that does not lead. It takes no memory.
    pub fn none(alloc: Global, me: NodeId) -> Self
        ensures { result ≡ nodes.not_leading }
    {
        Leading {
            alloc,
            first: 0,
            round: 0,
            arrivals: 0,
            reads: Reads::new(alloc),
            peers: Progress::none(me),
        }
    }

    /// What a new leader has, whose first entry is to stand at this place. It takes no memory.
    pub fn since(alloc: Global, me: NodeId, nodes: u8, first: u64) -> Self
        requires member { me ≤ nodes }
        requires within { nodes ≤ MAX_NODES }
        ensures { result ≡ record { first = first; round = 0; arrivals = 0; reads = []; peers = progresses.progress_of me nodes first } }
    {
        Leading {
            alloc,
            first,
            round: 0,
            arrivals: 0,
            reads: Reads::new(alloc),
            peers: Progress::new(me, nodes, first),
        }
    }

    /// The round.
    pub fn round(&self) -> u64
        ensures { result ≡ self.now.round }
    {
        self.round
    }

    /// The place of the leader's first entry.
    pub fn first(&self) -> u64
        ensures { result ≡ self.now.first }
    {
        self.first
    }

    /// A new round. There is none after the greatest number, which is answered as want of memory.
    pub fn tick(&mut self) -> Result<(), NoMemory>
        ensures { OnOk result (self.new ≡ record self.old { round = suc self.old.round }) }
    {
        self.round = next_number(self.round)?;
        Ok(())
    }

    /// A read arrives where a place is committed: its number, `None` exactly where 256 wait, and then it does not wait.
    /// It must see the leader's first place, and waits for the next round (Ongaro 2014, 6.4).
    pub fn take_read(&mut self, commit: u64) -> Result<Option<u64>, NoMemory>
        ensures ok { IfOk result (λ number. number ≡ (if progresses.has_read_room self.old.reads then Some (suc self.old.arrivals) else None)) }
        ensures after { OnOk result (self.new ≡ (if progresses.has_read_room self.old.reads then record self.old { arrivals = suc self.old.arrivals; reads = progresses.with_read self.old.reads (suc self.old.arrivals) (max commit self.old.first) (suc self.old.round) } else self.old)) }
    {
        let number = next_number(self.arrivals)?;
        let round = next_number(self.round)?;
        let place = commit.max(self.first);
        if !self.reads.add(number, place, round)? {
            return Ok(None);
        }
        self.arrivals = number;
        Ok(Some(number))
    }

    /// Takes the reads that are ready where a place is committed: their numbers with their places, in order of arrival.
    pub fn take_ready(&mut self, commit: u64) -> Result<List<(u64, u64)>, NoMemory>
        ensures ok { IfOk result (λ ready. ready ≡ progresses.ready_reads self.old.reads (progresses.confirmed_round self.old.peers) commit) }
        ensures after { OnOk result (self.new ≡ record self.old { reads = progresses.waiting_reads self.old.reads (progresses.confirmed_round self.old.peers) commit }) }
    {
        if self.reads.is_empty() {
            return Ok(List::new(self.alloc));
        }
        let round = self.peers.confirmed_round();
        self.reads.take_ready(round, commit)
    }

    /// The next place to send to another node.
    pub fn next(&self, node: NodeId) -> u64
        ensures { result ≡ progresses.next_place_of self.now.peers node }
    {
        self.peers.next(node)
    }

    /// Another node holds the log up to a place. Answers whether that is new.
    pub fn accept(&mut self, node: NodeId, place: u64, round: u64, last: u64) -> bool
        requires { last < 2 ^ 64 - 1 }
        ensures rises { result ≡ progresses.is_accepted self.old.peers node place last }
        ensures after { self.new ≡ record self.old { peers = progresses.accepted self.old.peers node place round last } }
    {
        self.peers.accepted(node, place, round, last)
    }

    /// Another node lacks the entry before those sent. Answers whether the next place to send falls.
    pub fn refuse(&mut self, node: NodeId, place: u64, round: u64) -> bool
        ensures falls { result ≡ progresses.is_refused self.old.peers node place }
        ensures after { self.new ≡ record self.old { peers = progresses.refused self.old.peers node place round } }
    {
        self.peers.refused(node, place, round)
    }

    /// The greatest place above the commit that a leader of this term may commit, else the commit.
    pub fn commit_place(&self, log: &Log, term: u64, commit: u64) -> u64
        ensures { result ≡ progresses.commit_place self.now.peers log.now term commit }
    {
        self.peers.commit_place(log, term, commit)
    }
}

impl Duplicate for Leading {
    fn copy(&self) -> Result<Leading, NoMemory> {
        Ok(Leading {
            alloc: self.alloc,
            first: self.first,
            round: self.round,
            arrivals: self.arrivals,
            reads: self.reads.copy()?,
            peers: self.peers.copy()?,
        })
    }
}

/// The next number. There is none after the greatest, which is answered as want of memory: no run comes near it.
fn next_number(number: u64) -> Result<u64, NoMemory>
    ensures { IfOk result (λ next. next ≡ suc number) }
{
    if number == u64::MAX {
        return Err(NoMemory);
    }
    Ok(number + 1)
}
