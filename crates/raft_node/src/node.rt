ghost use Rattle.std.specs.Prelude.{◌≡◌, ◌≤◌, Some, length, max};
ghost use Rattle.ax_types.specs.declared.limits.TheConstants.{MAX_NODES};
ghost use Rattle.ax_types.specs.Places as lists;
ghost use Rattle.spec_raft.specs.Log as logs;
ghost use Rattle.spec_node.specs.Node as raft_nodes;

use crate::leading::Leading;
use ax_types::{Duplicate, Entry, List, Loaded, NoMemory, NodeId};
use raft_log::Log;
use raft_vote::Ballot;
use std::alloc::Global;
use std::marker::Model;

/// Which of the three parts a node takes (Ongaro 2014, 3.3).
#[derive(Clone, Copy)]
pub enum Role {
    Follower,
    Candidate,
    Leader,
}

/// A Raft node, which contracts see as the node of the definitions (Ongaro 2014, figure 3.1). After want of memory in a
/// step nothing is said of it, and no further step is to be made.
#[derive(Drop)]
pub struct RaftNode {
    pub(crate) alloc: Global,
    pub(crate) ballot: Ballot,
    pub(crate) log: Log,
    pub(crate) role: Role,
    pub(crate) leader: Option<NodeId>,
    pub(crate) commit: u64,
    pub(crate) leading: Leading,
}

impl Model for RaftNode {
    ghost use Rattle.std.specs.Prelude.{◌≤◌, length};
    ghost use Rattle.spec_node.specs.Node as nodes;
    ghost use Rattle.raft_node.specs.Roles as roles;

    ghost Value = { nodes.Node };

    ghost view = { λ a. record { ballot = a.ballot; log = a.log; role = roles.role_of a.role; leader = a.leader; commit = a.commit; leading = a.leading } };

    ghost invariant = { λ a. a.commit ≤ length a.log };
}

impl RaftNode {
    /// A node of a cluster, to which nothing has happened. It takes no memory.
    pub fn new(alloc: Global, me: NodeId, nodes: u8) -> Self
        requires member { me ≤ nodes }
        requires within { nodes ≤ MAX_NODES }
        ensures { result ≡ raft_nodes.new_node me nodes }
    {
        let nothing = Loaded {
            term: 0,
            vote: None,
            log: List::new(alloc),
        };
        RaftNode::restart(alloc, me, nodes, nothing)
    }

    /// A node after its store was loaded: all but what was kept is as at the beginning. It takes no memory.
    pub fn restart(alloc: Global, me: NodeId, nodes: u8, kept: Loaded) -> Self
        requires member { me ≤ nodes }
        requires within { nodes ≤ MAX_NODES }
        ensures { result ≡ raft_nodes.restarted me nodes kept }
    {
        RaftNode {
            alloc,
            ballot: Ballot::new(me, nodes, kept.term, kept.vote),
            log: Log::from_entries(kept.log),
            role: Role::Follower,
            leader: None,
            commit: 0,
            leading: Leading::none(alloc, me),
        }
    }

    /// What the node keeps over a crash: its term, its vote and its log. It takes no memory.
    pub fn into_kept(self) -> Loaded
        ensures { result ≡ raft_nodes.kept_of self }
    {
        Loaded {
            term: self.ballot.term(),
            vote: self.ballot.vote(),
            log: self.log.into_entries(),
        }
    }

    /// The node's number.
    pub fn me(&self) -> NodeId
        ensures me { result ≡ self.now.ballot.me }
        ensures member { result ≤ self.now.ballot.nodes }
    {
        self.ballot.me()
    }

    /// How many nodes the cluster has.
    pub fn nodes(&self) -> u8
        ensures nodes { result ≡ self.now.ballot.nodes }
        ensures within { result ≤ MAX_NODES }
    {
        self.ballot.nodes()
    }

    /// The term.
    pub fn term(&self) -> u64
        ensures { result ≡ self.now.ballot.term }
    {
        self.ballot.term()
    }

    /// The node that has the vote of the term.
    pub fn vote(&self) -> Option<NodeId>
        ensures { result ≡ self.now.ballot.vote }
    {
        self.ballot.vote()
    }

    /// The log.
    pub fn log(&self) -> &[Entry]
        ensures { result.now ≡ self.now.log }
    {
        self.log.as_slice()
    }

    /// Whether the node leads.
    pub fn is_leader(&self) -> bool
        ensures { result ≡ raft_nodes.is_leader self.now }
    {
        matches!(self.role, Role::Leader)
    }

    /// Whether the node stands for election.
    pub(crate) fn is_candidate(&self) -> bool
        ensures { result ≡ raft_nodes.is_candidate self.now }
    {
        matches!(self.role, Role::Candidate)
    }

    /// The known leader of the term.
    pub fn leader(&self) -> Option<NodeId>
        ensures { result ≡ self.now.leader }
    {
        self.leader
    }

    /// The greatest place that the node knows to be committed, 0 where there is none. Its log has an entry there.
    pub fn commit(&self) -> u64
        ensures commit { result ≡ self.now.commit }
        ensures within { result ≤ length self.now.log }
    {
        self.commit
    }

    /// The round of a leader, 0 where the node does not lead (Ongaro 2014, 6.4).
    pub fn round(&self) -> u64
        ensures { result ≡ self.now.leading.round }
    {
        self.leading.round()
    }

    /// The place that a read must see which arrives now: the greater of the commit and the leader's first place
    /// (Ongaro 2014, 6.4).
    pub fn read_place(&self) -> u64
        ensures { result ≡ max self.now.commit self.now.leading.first }
    {
        self.commit.max(self.leading.first())
    }

    /// The time of the last entry, 0 where there is none.
    pub fn last_time(&self) -> u64
        ensures { result ≡ logs.last_time self.now.log }
    {
        self.log.last_time()
    }

    /// The entry at a committed place.
    pub fn entry(&self, place: u64) -> &Entry
        requires above { 1 ≤ place }
        requires within { place ≤ self.now.commit }
        ensures { lists.at_place self.now.log place ≡ Some result.now }
    {
        self.log.entry(place)
    }

    /// The time of a new entry: the greater of a clock and the time of the last entry (Ongaro 2014, 6.3).
    pub fn time_for(&self, clock: u64) -> u64
        ensures { result ≡ raft_nodes.time_for self.now clock }
    {
        clock.max(self.log.last_time())
    }
}

impl Duplicate for RaftNode {
    fn copy(&self) -> Result<RaftNode, NoMemory> {
        Ok(RaftNode {
            alloc: self.alloc,
            ballot: self.ballot.copy()?,
            log: self.log.copy()?,
            role: self.role,
            leader: self.leader,
            commit: self.commit,
            leading: self.leading.copy()?,
        })
    }
}
