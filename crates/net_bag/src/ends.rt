ghost use Rattle.std.specs.Prelude.{◌≡◌, ◌<◌};
ghost use Rattle.net_bag.specs.EndNumbers as ends;

use ax_types::End;
use ax_types::limits::{MAX_CLIENTS, MAX_NODES};

/// The most ends of a cluster.
const MAX_ENDS: usize = MAX_NODES as usize + MAX_CLIENTS as usize;

/// The most ways from one end to another.
pub(crate) const MAX_WAYS: usize = MAX_ENDS * MAX_ENDS;

/// The number of an end, from 0.
pub(crate) fn end_number(end: &End) -> usize
    ensures number { result ≡ ends.end_number end.now }
    ensures real { ends.IsEnd end.now }
    ensures within { result < 25 }
{
    match end {
        End::Node(node) => node.number() as usize - 1,
        End::Client(client) => MAX_NODES as usize + client.number() as usize - 1,
    }
}

/// The number of the way from one end to another.
pub(crate) fn way_number(from: &End, to: &End) -> usize
    ensures number { result ≡ ends.way_number from.now to.now }
    ensures real_from { ends.IsEnd from.now }
    ensures real_to { ends.IsEnd to.now }
    ensures within { result < 625 }
{
    MAX_ENDS * end_number(from) + end_number(to)
}

/// The number of the link between two ends, whichever comes first.
pub(crate) fn link_number(one: &End, other: &End) -> usize
    ensures number { result ≡ ends.link_number one.now other.now }
    ensures real_one { ends.IsEnd one.now }
    ensures real_other { ends.IsEnd other.now }
    ensures within { result < 625 }
{
    if end_number(one) < end_number(other) {
        way_number(one, other)
    } else {
        way_number(other, one)
    }
}
