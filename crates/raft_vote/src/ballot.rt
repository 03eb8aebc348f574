ghost use Rattle.std.specs.Prelude.{◌≡◌, ◌≢◌, ℕ, ◌+◌, ◌-◌, ◌^◌, ◌≤◌, ◌<◌, suc, false, [], ◌∷◌, ◌++◌};
ghost use Rattle.ax_types.specs.declared.limits.TheConstants.{MAX_NODES};
ghost use Rattle.spec_raft.specs.Majority as counts;
ghost use Rattle.spec_raft.specs.Ballot as ballots;

use ax_types::limits::MAX_NODES;
use ax_types::{Duplicate, NoMemory, NodeId};
use raft_log::Log;
use std::marker::Model;

/// A node's term, its vote in it, and as a candidate the nodes that voted for it, in the order in which their votes came
/// (Ongaro 2014, 3.4).
#[derive(Drop)]
pub struct Ballot {
    me: NodeId,
    nodes: u8,
    term: u64,
    vote: Option<NodeId>,
    /// The numbers of the nodes that voted, at the first `voter_count` places.
    voters: [u8; MAX_NODES as usize],
    voter_count: usize,
}

impl Model for Ballot {
    ghost use Rattle.std.specs.Prelude.{◌≡◌, ◌≤◌, take};
    ghost use Rattle.ax_types.specs.declared.limits.TheConstants.{MAX_NODES};
    ghost use Rattle.raft_vote.specs.Voters as voter_lists;
    ghost use Rattle.spec_raft.specs.Ballot as ballots;

    ghost Value = { ballots.Ballot };

    ghost view = { λ a. record { me = a.me; nodes = a.nodes; term = a.term; vote = a.vote; votes = take a.voter_count a.voters } };

    ghost invariant = { λ a. voter_lists.IsBallot a.me a.nodes a.voter_count a.voters };
}

impl Ballot {
    /// The ballot of a node of a cluster, as it was kept: without the votes that the node got.
    pub fn new(me: NodeId, nodes: u8, term: u64, vote: Option<NodeId>) -> Self
        requires member { me ≤ nodes }
        requires within { nodes ≤ MAX_NODES }
        ensures { result ≡ ballots.ballot_of me nodes term vote }
    {
        Ballot {
            me,
            nodes,
            term,
            vote,
            voters: [0; MAX_NODES as usize],
            voter_count: 0,
        }
    }

    /// The node whose ballot this is.
    pub fn me(&self) -> NodeId
        ensures me { result ≡ self.now.me }
        ensures member { result ≤ self.now.nodes }
    {
        self.me
    }

    /// How many nodes the cluster has.
    pub fn nodes(&self) -> u8
        ensures nodes { result ≡ self.now.nodes }
        ensures within { result ≤ MAX_NODES }
    {
        self.nodes
    }

    /// The term.
    pub fn term(&self) -> u64
        ensures { result ≡ self.now.term }
    {
        self.term
    }

    /// The node that has the vote of this term.
    pub fn vote(&self) -> Option<NodeId>
        ensures { result ≡ self.now.vote }
    {
        self.vote
    }

    /// The next term begins, with the node's own vote (Ongaro 2014, 3.4).
    pub fn begin(&mut self)
        requires { self.old.term < 2 ^ 64 - 1 }
        ensures { self.new ≡ ballots.begun self.old }
    {
        self.term += 1;
        self.vote = Some(self.me);
        self.voter_count = 0;
        self.add_voter(self.me);
    }

    /// A term is seen, and a higher one begins. Answers whether it was higher (Ongaro 2014, 3.3).
    pub fn see(&mut self, term: u64) -> bool
        ensures above { result ≡ ballots.is_above self.old term }
        ensures after { self.new ≡ ballots.seen_ballot self.old term }
    {
        if term <= self.term {
            return false;
        }
        self.term = term;
        self.vote = None;
        self.voter_count = 0;
        true
    }

    /// A candidate of a term, whose log is so described, asks for the vote. Answers whether it gets it
    /// (Ongaro 2014, 3.6.1).
    pub fn grant(&mut self, log: &Log, term: u64, from: NodeId, last: u64, last_term: u64) -> bool
        requires other { from ≢ self.old.me }
        requires member { from ≤ self.old.nodes }
        ensures granted { result ≡ ballots.is_granted self.old log.now term from last last_term }
        ensures after { self.new ≡ ballots.granted self.old log.now term from last last_term }
    {
        let is_granted = term == self.term
            && self.is_free(from)
            && log.newer_or_equal(last_term, last);
        if is_granted {
            self.vote = Some(from);
        }
        is_granted
    }

    /// Whether the vote of this term is free for a node.
    fn is_free(&self, from: NodeId) -> bool
        ensures { result ≡ ballots.is_free self.now.vote from }
    {
        match self.vote {
            None => true,
            Some(node) => node == from,
        }
    }

    /// A vote for this node is counted. Answers whether it first made a majority.
    pub fn count(&mut self, from: NodeId) -> bool
        requires other { from ≢ self.old.me }
        requires member { from ≤ self.old.nodes }
        ensures winning { result ≡ ballots.is_winning self.old from }
        ensures after { self.new ≡ ballots.counted self.old from }
    {
        if self.has_vote_of(from) {
            return false;
        }
        let was_elected = self.is_elected();
        self.add_voter(from);
        !was_elected && self.is_elected()
    }

    /// Whether a node voted for this one.
    fn has_vote_of(&self, from: NodeId) -> bool
        ensures { result ≡ counts.is_in self.now.votes from }
    {
        self.voters[..self.voter_count].contains(&from.number())
    }

    /// A node that had not voted votes for this one.
    fn add_voter(&mut self, node: NodeId)
        requires member { node ≤ self.old.nodes }
        requires once { counts.is_in self.old.votes node ≡ false }
        ensures { self.new ≡ record self.old { votes = self.old.votes ++ node ∷ [] } }
    {
        self.voters[self.voter_count] = node.number();
        self.voter_count += 1;
    }

    /// Whether a majority voted for this node (Ongaro 2014, 3.4).
    pub fn is_elected(&self) -> bool
        ensures { result ≡ ballots.is_elected self.now }
    {
        self.voter_count + self.voter_count > self.nodes as usize
    }
}

impl Duplicate for Ballot {
    fn copy(&self) -> Result<Ballot, NoMemory> {
        Ok(Ballot {
            me: self.me,
            nodes: self.nodes,
            term: self.term,
            vote: self.vote,
            voters: self.voters,
            voter_count: self.voter_count,
        })
    }
}
