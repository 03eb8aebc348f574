//! Maps: each operation and query, the ends of lives, and the limits.
use crate::acts::{Row, number, repeat, walk};
use res_registry::Book;
use std::test::Fail;

/// Each operation and query of a map.
static MAP: [Row; 24] = [
    (9, 3, 5, "query seq map m size", "number 0"),
    (9, 3, 5, "call map m put b 1", "none"),
    (9, 3, 5, "query seq map m get b", "some 1"),
    (9, 3, 5, "query seq map m get a", "none"),
    (9, 3, 5, "query seq map m contains b", "true"),
    (9, 3, 5, "query seq map m contains a", "false"),
    (9, 3, 5, "call map m listen", "done"),
    (9, 3, 5, "call map m listen", "already"),
    (9, 3, 4, "call map m listen", "done"),
    (
        9,
        3,
        9,
        "call map m put b 2",
        "some 1, 4 changed m b 2, 5 changed m b 2",
    ),
    (9, 3, 4, "close", "done"),
    (9, 3, 5, "call map m put_if_absent b 3", "some 2"),
    (
        9,
        3,
        5,
        "call map m put_if_absent a 3",
        "none, 5 changed m a 3",
    ),
    (9, 3, 5, "call map m replace a 4", "some 3, 5 changed m a 4"),
    (9, 3, 5, "call map m replace c 4", "none"),
    (9, 3, 5, "call map m remove c", "none"),
    (9, 3, 5, "call map m remove b", "some 2, 5 removed m b"),
    (9, 3, 5, "call map m put_for d 5 7", "none, 5 changed m d 5"),
    (9, 3, 5, "call map m put_for c 6 7", "none, 5 changed m c 6"),
    (9, 3, 5, "query seq map m size", "number 3"),
    (
        9,
        3,
        5,
        "call map m clear",
        "done, 5 removed m a, 5 removed m c, 5 removed m d",
    ),
    (9, 3, 5, "call map m clear", "done"),
    (9, 3, 5, "close", "done"),
    (9, 3, 5, "call map m put b 1", "none"),
];

/// How lives of entries end.
static LIVES: [Row; 19] = [
    (9, 1, 6, "call map m listen", "done"),
    (
        9,
        10,
        5,
        "call map m put_for z 1 500",
        "none, 6 changed m z 1",
    ),
    (
        9,
        11,
        5,
        "call map m put_for a 1 499",
        "none, 6 changed m a 1",
    ),
    (
        9,
        12,
        5,
        "call map m put_for l 1 999",
        "none, 6 changed m l 1",
    ),
    (9, 12, 5, "call map m put y 1", "none, 6 changed m y 1"),
    // Each operation that sets a key takes its life away, or gives it another.
    (
        9,
        12,
        5,
        "call map m put_for k 1 1",
        "none, 6 changed m k 1",
    ),
    (9, 12, 5, "call map m put k 2", "some 1, 6 changed m k 2"),
    (
        9,
        12,
        5,
        "call map m put_for j 1 1",
        "none, 6 changed m j 1",
    ),
    (
        9,
        12,
        5,
        "call map m replace j 2",
        "some 1, 6 changed m j 2",
    ),
    (
        9,
        12,
        5,
        "call map m put_for y 2 2",
        "some 1, 6 changed m y 2",
    ),
    (
        9,
        13,
        5,
        "call map m put_for y 3 498",
        "some 2, 6 changed m y 3",
    ),
    // One before the end nothing goes; at it all go whose lives are over, in ascending order of key.
    (9, 509, 5, "keep", "done"),
    (9, 510, 5, "keep", "done, 6 removed m a, 6 removed m z"),
    (9, 510, 5, "query seq map m get k", "some 2"),
    (9, 511, 5, "keep", "done, 6 removed m y"),
    (9, u64::MAX, 5, "keep", "done, 6 removed m l"),
    // A life beyond the greatest log time does not end.
    (
        9,
        u64::MAX,
        5,
        "call map m put_for x 1 1",
        "none, 6 changed m x 1",
    ),
    (9, u64::MAX, 5, "keep", "done"),
    (9, u64::MAX, 5, "query seq map m size", "number 3"),
];

/// Of a map with the keys from `k0` to `k1023`, which live for 9 from log time 1 on.
static ENTRIES: [Row; 10] = [
    (9, 2, 5, "query seq map m size", "number 1024"),
    (9, 2, 5, "call map m put k v", "full"),
    (9, 2, 5, "call map m put_if_absent k v", "full"),
    (9, 2, 5, "call map m put_for k v 7", "full"),
    (9, 2, 5, "call map m replace k v", "none"),
    (9, 2, 5, "query seq map m size", "number 1024"),
    (9, 2, 5, "call map m put k5 w", "some v"),
    (9, 2, 5, "call map m remove k5", "some w"),
    (9, 2, 5, "call map m put_for k v 7", "none"),
    (9, 2, 5, "call map m put k5 v", "full"),
];

/// Of a map to which the sessions from 0 to 1,023 listen.
static LISTENERS: [Row; 5] = [
    (9, 2, 1024, "call map m listen", "full"),
    (9, 2, 7, "call map m listen", "already"),
    (9, 2, 7, "close", "done"),
    (9, 2, 1024, "call map m listen", "done"),
    (9, 2, 7, "call map m listen", "full"),
];

#[test]
fn maps(rt: HostRuntime) -> Result<(), Fail> {
    let alloc = rt.alloc();
    walk(&rt, alloc, Book::new(alloc), &MAP)?;
    walk(&rt, alloc, Book::new(alloc), &LIVES)
}

#[test]
fn full_maps(rt: HostRuntime) -> Result<(), Fail> {
    let alloc = rt.alloc();
    let mut keys = Book::new(alloc);
    number(alloc, &mut keys, "call map m put_for k", " v 9")?;
    walk(&rt, alloc, keys, &ENTRIES)?;
    let mut listeners = Book::new(alloc);
    repeat(alloc, &mut listeners, 1024, "call map m listen")?;
    walk(&rt, alloc, listeners, &LISTENERS)
}
