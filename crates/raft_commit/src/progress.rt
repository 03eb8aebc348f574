ghost use Rattle.std.specs.Prelude.{◌≡◌, ℕ, ◌+◌, ◌-◌, ◌^◌, ◌≤◌, ◌<◌, max, if◌then◌else◌, nat_le, nat_lt, nat_eq, [], ◌++◌, length};
ghost use Rattle.ax_types.specs.declared.limits.TheConstants.{MAX_NODES};
ghost use Rattle.spec_raft.specs.Progress as progresses;
ghost use Rattle.raft_commit.specs.Peers as peer_places;

use ax_types::limits::MAX_NODES;
use ax_types::{Duplicate, NoMemory, NodeId};
use raft_log::Log;
use std::marker::Model;

/// The most other nodes that a node has.
const MAX_PEERS: usize = MAX_NODES as usize;

/// Another node: the next place to send, the last place known to match, and the greatest round that it acked.
#[derive(Clone, Copy)]
struct Peer {
    node: NodeId,
    next: u64,
    matched: u64,
    acked: u64,
}

impl Model for Peer {
    ghost use Rattle.spec_raft.specs.Progress.{Peer as PeerValue};

    ghost Value = { PeerValue };

    ghost view = { λ a. record { node = a.node; next = a.next; matched = a.matched; acked = a.acked } };

    ghost inverse = { λ p. record { node = p.node; next = p.next; matched = p.matched; acked = p.acked } };
}

impl Peer {
    fn is_of(&self, node: NodeId) -> bool
        ensures { result ≡ nat_eq self.now.node node }
    {
        self.node.number() == node.number()
    }

    fn holds(&self, place: u64) -> bool
        ensures { result ≡ nat_le place self.now.matched }
    {
        place <= self.matched
    }

    /// The greater of a place and the one up to which it holds the log, where that is below another.
    fn raised_below(&self, place: u64, greatest: u64) -> u64
        ensures { result ≡ (if nat_lt self.now.matched place then max self.now.matched greatest else greatest) }
    {
        if self.matched < place {
            self.matched.max(greatest)
        } else {
            greatest
        }
    }

    fn has_acked(&self, round: u64) -> bool
        ensures { result ≡ nat_le round self.now.acked }
    {
        round <= self.acked
    }

    /// The round is acked.
    fn ack(&mut self, round: u64)
        ensures { self.new ≡ progresses.acking round self.old }
    {
        self.acked = self.acked.max(round);
    }

    /// The node holds the log up to a place. Answers whether that is new.
    fn accept(&mut self, place: u64, round: u64, last: u64) -> bool
        requires { last < 2 ^ 64 - 1 }
        ensures rises { result ≡ progresses.rises_at place last self.old }
        ensures after { self.new ≡ progresses.accepting place round last self.old }
    {
        let rises = self.matched < place && place <= last;
        self.ack(round);
        if rises {
            self.matched = place;
            self.next = place + 1;
        }
        rises
    }

    /// The node lacks the entry before those sent. Answers whether the next place falls.
    fn refuse(&mut self, place: u64, round: u64) -> bool
        ensures falls { result ≡ progresses.falls_at place self.old }
        ensures after { self.new ≡ progresses.refusing place round self.old }
    {
        let falls = place < self.next.saturating_sub(1) && self.matched <= place;
        self.ack(round);
        if falls {
            self.next = place + 1;
        }
        falls
    }
}

/// What a leader knows of each other node, in ascending order of node, which contracts see as that list
/// (Ongaro 2014, 3.5).
#[derive(Drop)]
pub struct Progress {
    /// The other nodes, at the first `peer_count` places.
    peers: [Peer; MAX_PEERS],
    peer_count: usize,
}

impl Model for Progress {
    ghost use Rattle.std.specs.Prelude.{◌≡◌, ◌≤◌, List as Items, length, take};
    ghost use Rattle.spec_raft.specs.Progress.{Peer as PeerValue};

    ghost Value = { Items PeerValue };

    ghost view = { λ a. take a.peer_count a.peers };

    ghost invariant = { λ a. (a.peer_count ≤ 9) × (length a.peers ≡ 9) };
}

impl Progress {
    /// What a new leader knows, where its first entry stands at this place.
    pub fn new(me: NodeId, nodes: u8, first: u64) -> Self
        requires member { me ≤ nodes }
        requires within { nodes ≤ MAX_NODES }
        ensures { result ≡ progresses.progress_of me nodes first }
    {
        let mut progress = Progress::none(me);
        'nodes: for number in 1..nodes + 1 {
            progress.add_other(number, me, first);
        }
        progress
    }

    /// Nothing, as a node knows that does not lead.
    pub fn none(me: NodeId) -> Self
        ensures { result ≡ [] }
    {
        let peer = Peer {
            node: me,
            next: 0,
            matched: 0,
            acked: 0,
        };
        Progress {
            peers: [peer; MAX_PEERS],
            peer_count: 0,
        }
    }

    /// Adds what is known of a node, unless it is the leader itself.
    fn add_other(&mut self, number: u8, me: NodeId, first: u64)
        requires one { 1 ≤ number }
        requires within { number ≤ MAX_NODES }
        requires room { length self.old < 9 }
        ensures { self.new ≡ self.old ++ peer_places.other_from me first number }
    {
        let Some(node) = NodeId::new(number) else {
            return;
        };
        if number == me.number() {
            return;
        }
        self.peers[self.peer_count] = Peer {
            node,
            next: first,
            matched: 0,
            acked: 0,
        };
        self.peer_count += 1;
    }

    /// How many other nodes stand before one, all where it is none of them.
    fn peer_index(&self, node: NodeId) -> usize
        ensures { result ≡ peer_places.peer_index self.now node }
    {
        'peers: for i in 0..self.peer_count {
            let peer = &self.peers[i];
            if peer.is_of(node) {
                return i;
            }
        }
        self.peer_count
    }

    /// The next place to send to another node.
    pub fn next(&self, node: NodeId) -> u64
        ensures { result ≡ progresses.next_place_of self.now node }
    {
        let place = self.peer_index(node);
        if place >= self.peer_count {
            return 0;
        }
        let peer = &self.peers[place];
        peer.next
    }

    /// Another node says that it holds the log up to a place, and hands a round back. Answers whether that place is new
    /// (Ongaro 2014, 3.5).
    pub fn accepted(&mut self, node: NodeId, matched: u64, round: u64, last: u64) -> bool
        requires { last < 2 ^ 64 - 1 }
        ensures rises { result ≡ progresses.is_accepted self.old node matched last }
        ensures after { self.new ≡ progresses.accepted self.old node matched round last }
    {
        let place = self.peer_index(node);
        if place >= self.peer_count {
            return false;
        }
        let mut peer = self.peers[place];
        let rises = peer.accept(matched, round, last);
        self.peers[place] = peer;
        rises
    }

    /// Another node says that it lacks the entry before those sent, hints at a place to go on after, and hands a round
    /// back. Answers whether the next place to send falls (Ongaro 2014, 3.5).
    pub fn refused(&mut self, node: NodeId, hint: u64, round: u64) -> bool
        ensures falls { result ≡ progresses.is_refused self.old node hint }
        ensures after { self.new ≡ progresses.refused self.old node hint round }
    {
        let place = self.peer_index(node);
        if place >= self.peer_count {
            return false;
        }
        let mut peer = self.peers[place];
        let falls = peer.refuse(hint, round);
        self.peers[place] = peer;
        falls
    }

    /// Whether the leader and the others that hold a place are a majority.
    fn is_held(&self, place: u64) -> bool
        ensures { result ≡ progresses.is_held (λ p. nat_le place p.matched) self.now }
    {
        let mut held = 0usize;
        'peers: for peer in &self.peers[..self.peer_count] {
            if peer.holds(place) {
                held += 1;
            }
        }
        2 * held + 2 > self.peer_count + 1
    }

    /// Whether the leader and the others that acked a round are a majority.
    fn is_acked(&self, round: u64) -> bool
        ensures { result ≡ progresses.is_held (λ p. nat_le round p.acked) self.now }
    {
        let mut held = 0usize;
        'peers: for peer in &self.peers[..self.peer_count] {
            if peer.has_acked(round) {
                held += 1;
            }
        }
        2 * held + 2 > self.peer_count + 1
    }

    /// The greatest place below one up to which another node holds the log, 0 where there is none.
    fn matched_below(&self, place: u64) -> u64
        ensures { result ≡ peer_places.matched_below self.now place }
    {
        let mut greatest = 0;
        'peers: for peer in &self.peers[..self.peer_count] {
            greatest = peer.raised_below(place, greatest);
        }
        greatest
    }

    /// Whether a leader of this term may commit a place. An entry of an earlier term is never committed by counting
    /// copies (Ongaro 2014, 3.6.2).
    fn may_commit(&self, log: &Log, term: u64, place: u64) -> bool
        ensures { result ≡ progresses.may_commit self.now log.now term place }
    {
        log.term_at(place) == term && self.is_held(place)
    }

    /// The next place below one that may be committed where this one may not: none between two places that other nodes
    /// hold is held by a majority where the higher one is not.
    fn place_before(&self, place: u64) -> u64
        requires { 0 < place }
        ensures { result ≡ peer_places.place_before self.now place }
    {
        if self.is_held(place) {
            place - 1
        } else {
            self.matched_below(place)
        }
    }

    /// The greatest place above the commit that a leader of this term may commit, else the commit (Ongaro 2014, 3.6.2).
    pub fn commit_place(&self, log: &Log, term: u64, commit: u64) -> u64
        ensures { result ≡ progresses.commit_place self.now log.now term commit }
    {
        let mut place = log.last();
        'places: while place > commit {
            if self.may_commit(log, term, place) {
                return place;
            }
            place = self.place_before(place);
        }
        commit
    }

    /// The greatest round that a majority has acked; with one node, the greatest number (Ongaro 2014, 6.4).
    pub fn confirmed_round(&self) -> u64
        ensures { result ≡ progresses.confirmed_round self.now }
    {
        if self.peer_count == 0 {
            return u64::MAX;
        }
        let mut greatest = 0;
        'peers: for peer in &self.peers[..self.peer_count] {
            greatest = self.raised_by(peer, greatest);
        }
        greatest
    }

    /// The greater of a round and the one that a node acked, where a majority acked that one.
    fn raised_by(&self, peer: &Peer, round: u64) -> u64
        ensures { result ≡ (if progresses.is_held (λ q. nat_le peer.now.acked q.acked) self.now then max peer.now.acked round else round) }
    {
        let acked = peer.acked;
        if self.is_acked(acked) {
            acked.max(round)
        } else {
            round
        }
    }
}

impl Duplicate for Progress {
    fn copy(&self) -> Result<Progress, NoMemory> {
        Ok(Progress {
            peers: self.peers,
            peer_count: self.peer_count,
        })
    }
}
