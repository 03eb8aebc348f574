use ax_types::NodeId;
use std::marker::Model;

/// A node became leader of a term.
#[derive(Clone, Copy)]
pub(crate) struct Led {
    pub(crate) term: u64,
    pub(crate) node: NodeId,
}

impl Model for Led {
    ghost use Rattle.spec_cluster.specs.Cluster as clusters;

    ghost Value = { clusters.Led };

    ghost view = { λ a. record { term = a.term; node = a.node } };

    ghost inverse = { λ l. record { term = l.term; node = l.node } };
}

/// A read was taken: its place and round, and how many places were committed anywhere by then.
#[derive(Clone, Copy)]
pub(crate) struct ReadTaken {
    pub(crate) node: NodeId,
    pub(crate) term: u64,
    pub(crate) arrival: u64,
    pub(crate) place: u64,
    pub(crate) round: u64,
    pub(crate) committed: u64,
}

impl Model for ReadTaken {
    ghost use Rattle.spec_cluster.specs.Cluster as clusters;

    ghost Value = { clusters.ReadTaken };

    ghost view = { λ a. record { node = a.node; term = a.term; arrival = a.arrival; place = a.place; round = a.round; committed = a.committed } };

    ghost inverse = { λ t. record { node = t.node; term = t.term; arrival = t.arrival; place = t.place; round = t.round; committed = t.committed } };
}

/// A read was given as ready.
#[derive(Clone, Copy)]
pub(crate) struct ReadGiven {
    pub(crate) node: NodeId,
    pub(crate) term: u64,
    pub(crate) arrival: u64,
    pub(crate) place: u64,
}

impl Model for ReadGiven {
    ghost use Rattle.spec_cluster.specs.Cluster as clusters;

    ghost Value = { clusters.ReadGiven };

    ghost view = { λ a. record { node = a.node; term = a.term; arrival = a.arrival; place = a.place } };

    ghost inverse = { λ g. record { node = g.node; term = g.term; arrival = g.arrival; place = g.place } };
}

/// Where a read would be taken at a node: its term, the place that the read must see, and the node's round.
#[derive(Clone, Copy)]
pub(crate) struct ReadPoint {
    pub(crate) term: u64,
    pub(crate) place: u64,
    pub(crate) round: u64,
}
