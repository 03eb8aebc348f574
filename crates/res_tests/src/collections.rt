//! Sets, queues, multimaps and topics: each operation and query, and the limits.
use crate::acts::{Row, number, repeat, walk};
use res_registry::Book;
use std::test::Fail;

/// Each operation and query of a set, a queue, a multimap and a topic.
static COLLECTIONS: [Row; 51] = [
    (9, 1, 5, "query seq set s size", "number 0"),
    (9, 1, 5, "call set s add b", "true"),
    (9, 1, 5, "call set s add b", "false"),
    (9, 1, 5, "call set s add a", "true"),
    (9, 1, 5, "query seq set s contains b", "true"),
    (9, 1, 5, "query seq set s contains c", "false"),
    (9, 1, 5, "call set s remove c", "false"),
    (9, 1, 5, "call set s remove b", "true"),
    (9, 1, 5, "call set s remove b", "false"),
    (9, 1, 5, "close", "done"),
    (9, 1, 5, "query seq set s size", "number 1"),
    (9, 1, 5, "call set s clear", "done"),
    (9, 1, 5, "query seq set s size", "number 0"),
    (9, 1, 5, "call queue q poll", "none"),
    (9, 1, 5, "query seq queue q peek", "none"),
    (9, 1, 5, "call queue q offer b", "true"),
    (9, 1, 5, "call queue q offer a", "true"),
    (9, 1, 5, "call queue q offer a", "true"),
    (9, 1, 5, "query seq queue q peek", "some b"),
    (9, 1, 5, "query seq queue q size", "number 3"),
    (9, 1, 5, "call queue q poll", "some b"),
    (9, 1, 5, "close", "done"),
    (9, 1, 5, "call queue q poll", "some a"),
    (9, 1, 5, "call queue q poll", "some a"),
    (9, 1, 5, "call queue q poll", "none"),
    (9, 1, 5, "call multimap m put k b", "true"),
    (9, 1, 5, "call multimap m put k a", "true"),
    (9, 1, 5, "call multimap m put k b", "false"),
    (9, 1, 5, "call multimap m put l b", "true"),
    (9, 1, 5, "query seq multimap m contains k a", "true"),
    (9, 1, 5, "query seq multimap m contains l a", "false"),
    (9, 1, 5, "query seq multimap m count k", "number 2"),
    (9, 1, 5, "query seq multimap m count m", "number 0"),
    (9, 1, 5, "query seq multimap m size", "number 3"),
    (9, 1, 5, "call multimap m remove l a", "false"),
    (9, 1, 5, "call multimap m remove l b", "true"),
    (9, 1, 5, "close", "done"),
    (9, 1, 5, "call multimap m remove_all l", "number 0"),
    (9, 1, 5, "call multimap m remove_all k", "number 2"),
    (9, 1, 5, "query seq multimap m size", "number 0"),
    (9, 1, 5, "call topic t publish x", "number 0"),
    (9, 1, 5, "call topic t unsubscribe", "false"),
    (9, 1, 5, "call topic t subscribe", "done"),
    (9, 1, 5, "call topic t subscribe", "already"),
    (9, 1, 4, "call topic t subscribe", "done"),
    (9, 1, 9, "query seq topic t subscribers", "number 2"),
    (
        9,
        1,
        5,
        "call topic t publish y",
        "number 2, 4 message t y, 5 message t y",
    ),
    (9, 1, 4, "close", "done"),
    (9, 1, 4, "call topic t publish z", "number 1, 5 message t z"),
    (9, 1, 5, "call topic t unsubscribe", "true"),
    (9, 1, 5, "call topic t publish z", "number 0"),
];

/// Of those that hold the texts from `v0` to `v1023`, the multimap at the key `k`, and the topic the sessions from 0 to 1,023.
static FULL: [Row; 27] = [
    (9, 1, 5, "call set s add v", "full"),
    (9, 1, 5, "call set s add v7", "false"),
    (9, 1, 5, "query seq set s contains v", "false"),
    (9, 1, 5, "query seq set s size", "number 1024"),
    (9, 1, 5, "call set s remove v7", "true"),
    (9, 1, 5, "call set s add v", "true"),
    (9, 1, 5, "call set s add v7", "full"),
    (9, 1, 5, "call queue q offer v", "full"),
    (9, 1, 5, "query seq queue q size", "number 1024"),
    (9, 1, 5, "call queue q poll", "some v0"),
    (9, 1, 5, "call queue q offer v", "true"),
    (9, 1, 5, "call queue q offer v", "full"),
    (9, 1, 5, "call queue q poll", "some v1"),
    (9, 1, 5, "call multimap m put l v", "full"),
    (9, 1, 5, "call multimap m put k v7", "false"),
    (9, 1, 5, "query seq multimap m count l", "number 0"),
    (9, 1, 5, "query seq multimap m size", "number 1024"),
    (9, 1, 5, "call multimap m remove k v7", "true"),
    (9, 1, 5, "call multimap m put l v", "true"),
    (9, 1, 5, "call multimap m put k v7", "full"),
    (9, 1, 5, "call multimap m remove_all k", "number 1023"),
    (9, 1, 1024, "call topic t subscribe", "full"),
    (9, 1, 7, "call topic t subscribe", "already"),
    (9, 1, 9, "query seq topic t subscribers", "number 1024"),
    (9, 1, 7, "call topic t unsubscribe", "true"),
    (9, 1, 1024, "call topic t subscribe", "done"),
    (9, 1, 7, "call topic t subscribe", "full"),
];

#[test]
fn collections(rt: HostRuntime) -> Result<(), Fail> {
    let alloc = rt.alloc();
    walk(&rt, alloc, Book::new(alloc), &COLLECTIONS)?;
    let mut full = Book::new(alloc);
    number(alloc, &mut full, "call set s add v", "")?;
    number(alloc, &mut full, "call queue q offer v", "")?;
    number(alloc, &mut full, "call multimap m put k v", "")?;
    repeat(alloc, &mut full, 1024, "call topic t subscribe")?;
    walk(&rt, alloc, full, &FULL)
}
