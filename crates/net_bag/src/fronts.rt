ghost use Rattle.std.specs.Prelude.{◌≡◌, ◌≤◌, None};
ghost use Rattle.std.specs.Option.{option_map};
ghost use Rattle.spec_raft.specs.Majority as majorities;
ghost use Rattle.spec_cluster.specs.Bag as bags;
ghost use Rattle.net_bag.specs.Reasons as reasons;
ghost use Rattle.net_bag.specs.Fronts as way_fronts;

use crate::links::Links;
use crate::ways::Way;
use ax_types::{End, TakeRefused};

/// Whether a node is up, by the flags of all.
fn is_up(up: &[bool], number: u8) -> bool
    requires { 1 ≤ number }
    ensures { result ≡ majorities.is_in (reasons.nodes_up up.now) number }
{
    let index = number as usize - 1;
    if index >= up.len() {
        return false;
    }
    up[index]
}

/// Whether a packet's receiver is a node that is not up.
fn is_down(up: &[bool], end: &End) -> bool
    ensures { result ≡ bags.is_down (reasons.nodes_up up.now) end.now }
{
    match end {
        End::Node(node) => !is_up(up, node.number()),
        End::Client(_) => false,
    }
}

/// What hinders packets from one end to another.
pub(crate) fn hindrance(links: &Links, up: &[bool], from: &End, to: &End) -> Option<TakeRefused>
    ensures { option_map reasons.reason_of result ≡ reasons.way_hindrance links.now up.now from.now to.now }
{
    if links.is_cut(from, to) {
        return Some(TakeRefused::Cut);
    }
    if is_down(up, to) {
        return Some(TakeRefused::Down);
    }
    None
}

/// The lesser of two numbers, where there are any.
fn least(one: Option<u64>, other: Option<u64>) -> Option<u64>
    ensures { result ≡ way_fronts.least one other }
{
    let Some(first) = one else {
        return other;
    };
    let Some(second) = other else {
        return Some(first);
    };
    if second < first {
        Some(second)
    } else {
        Some(first)
    }
}

/// The number of the first packet that waits on a way, unless something hinders it.
fn front_up(way: &Way, links: &Links, up: &[bool]) -> Option<u64>
    ensures { result ≡ way_fronts.front_up links.now up.now way.now }
{
    match hindrance(links, up, &way.from, &way.to) {
        None => way.front(),
        Some(_) => None,
    }
}

/// The least number of the first packets of the ways that nothing hinders.
pub(crate) fn first_up(ways: &[Way], links: &Links, up: &[bool]) -> Option<u64>
    ensures { result ≡ way_fronts.first_among links.now up.now None ways.now }
{
    let mut first = None;
    'ways: for way in ways {
        first = least(first, front_up(way, links, up));
    }
    first
}
