ghost use Rattle.std.specs.Prelude.{◌≡◌, ◌≤◌, if◌then◌else◌, not, filter, false, [], ◌∷◌, ◌++◌, length, take, replicate};
ghost use Rattle.std.specs.List.{list_any};
ghost use Rattle.spec_cluster.specs.Bag as bags;

use crate::ends::{MAX_WAYS, end_number, link_number};
use ax_types::{End, NodeId};
use std::marker::Model;

/// A link between two ends.
#[derive(Clone, Copy)]
struct Link {
    one: End,
    other: End,
}

impl Model for Link {
    ghost use Rattle.spec_cluster.specs.Bag as bags;

    ghost Value = { bags.Link };

    ghost view = { λ a. record { one = a.one; other = a.other } };

    ghost inverse = { λ l. record { one = l.one; other = l.other } };
}

/// The links that are cut, in the order in which they were, which contracts see as their list.
#[derive(Drop)]
pub(crate) struct Links {
    /// The cut links, at the first `cut_count` places.
    links: [Link; MAX_WAYS],
    cut_count: usize,
    /// Whether a link is cut, by its number.
    flags: [bool; MAX_WAYS],
}

impl Model for Links {
    ghost use Rattle.std.specs.Prelude.{List as Items, take};
    ghost use Rattle.spec_cluster.specs.Bag as bags;
    ghost use Rattle.net_bag.specs.Links as cut_links;

    ghost Value = { Items bags.Link };

    ghost view = { λ a. take a.cut_count a.links };

    ghost invariant = { λ a. cut_links.IsLinks a.cut_count a.links a.flags };
}

impl Links {
    /// No link is cut.
    pub(crate) fn new() -> Self
        ensures { result ≡ [] }
    {
        Links {
            links: no_links(),
            cut_count: 0,
            flags: no_flags(),
        }
    }

    /// Whether the link between two ends is cut.
    pub(crate) fn is_cut(&self, one: &End, other: &End) -> bool
        ensures { result ≡ list_any (bags.is_between one.now other.now) self.now }
    {
        self.flags[link_number(one, other)]
    }

    /// Cuts the link between two ends, unless it is cut.
    pub(crate) fn cut(&mut self, one: End, other: End)
        ensures { self.new ≡ (if list_any (bags.is_between one other) self.old then self.old else self.old ++ record { one = one; other = other } ∷ []) }
    {
        let number = link_number(&one, &other);
        if self.flags[number] {
            return;
        }
        self.links[self.cut_count] = Link { one, other };
        self.cut_count += 1;
        self.flags[number] = true;
    }

    /// Joins the link between two ends.
    pub(crate) fn join(&mut self, one: &End, other: &End)
        ensures { self.new ≡ filter (λ l. not (bags.is_between one.now other.now l)) self.old }
    {
        self.cut_count = keep_others(&mut self.links, self.cut_count, one, other);
        self.flags[link_number(one, other)] = false;
    }
}

/// Moves those of the first links that are not between two ends to the front, in their order, and answers how many there
/// are.
fn keep_others(links: &mut [Link], count: usize, one: &End, other: &End) -> usize
    requires { count ≤ length links.old }
    ensures kept { take result links.new ≡ filter (λ l. not (bags.is_between one.now other.now l)) (take count links.old) }
    ensures fewer { result ≤ count }
{
    let mut kept = 0;
    'links: for i in 0..count {
        let link = links[i];
        if !is_between(&link, one, other) {
            links[kept] = link;
            kept += 1;
        }
    }
    kept
}

/// Links that count for nothing.
fn no_links() -> [Link; MAX_WAYS]
    ensures { length result ≡ 625 }
{
    [Link {
        one: some_end(),
        other: some_end(),
    }; MAX_WAYS]
}

/// No flag is set.
fn no_flags() -> [bool; MAX_WAYS]
    ensures { result ≡ replicate 625 false }
{
    [false; MAX_WAYS]
}

/// Some end, of a link that counts for nothing.
fn some_end() -> End {
    let Some(node) = NodeId::new(1) else {
        unreachable!()
    };
    End::Node(node)
}

/// Whether two ends are the same.
fn is_same(one: &End, other: &End) -> bool
    ensures { result ≡ bags.same_end one.now other.now }
{
    end_number(one) == end_number(other)
}

/// Whether a link is that between two ends, whichever comes first.
fn is_between(link: &Link, one: &End, other: &End) -> bool
    ensures { result ≡ bags.is_between one.now other.now link.now }
{
    (is_same(&link.one, one) && is_same(&link.other, other))
        || (is_same(&link.one, other) && is_same(&link.other, one))
}
