//! Values and longs: each operation and query, and the limits.
use crate::acts::{Row, repeat, walk};
use res_registry::Book;
use std::test::Fail;

/// Each operation and query of a value.
static VALUE: [Row; 17] = [
    (9, 1, 5, "query seq value v get", "none"),
    (9, 1, 5, "call value v clear", "none"),
    (9, 1, 5, "call value v set a", "none"),
    (9, 1, 5, "call value v listen", "done"),
    (9, 1, 5, "call value v listen", "already"),
    (9, 1, 4, "call value v listen", "done"),
    (
        9,
        1,
        9,
        "call value v set b",
        "some a, 4 set v b, 5 set v b",
    ),
    (9, 1, 5, "query seq value v get", "some b"),
    (9, 1, 4, "close", "done"),
    (9, 1, 5, "call value v cas a c", "false"),
    (9, 1, 5, "call value v cas b c", "true, 5 set v c"),
    (9, 1, 5, "query seq value v get", "some c"),
    (9, 1, 5, "call value v clear", "some c, 5 cleared v"),
    (9, 1, 5, "call value v clear", "none"),
    (9, 1, 5, "call value v cas c d", "false"),
    (9, 1, 5, "close", "done"),
    (9, 1, 5, "call value v set d", "none"),
];

/// Of a value to which the sessions from 0 to 1,023 listen.
static LISTENERS: [Row; 5] = [
    (9, 1, 1024, "call value v listen", "full"),
    (9, 1, 7, "call value v listen", "already"),
    (9, 1, 7, "close", "done"),
    (9, 1, 1024, "call value v listen", "done"),
    (9, 1, 7, "call value v listen", "full"),
];

/// Each operation and query of a long, beyond both ends of its numbers too.
static LONG: [Row; 18] = [
    (9, 1, 5, "call long c add 5", "number 5"),
    (9, 1, 5, "call long c add -7", "number -2"),
    (9, 1, 5, "call long c get_and_add 3", "number -2"),
    (9, 1, 5, "call long c set 9", "number 1"),
    (9, 1, 5, "call long c cas 1 4", "false"),
    (9, 1, 5, "call long c cas 9 9223372036854775807", "true"),
    (9, 1, 5, "call long c add 1", "overflow"),
    (
        9,
        1,
        5,
        "call long c get_and_add 9223372036854775807",
        "overflow",
    ),
    (
        9,
        1,
        5,
        "call long c get_and_add 0",
        "number 9223372036854775807",
    ),
    (9, 1, 5, "call long c add -9223372036854775808", "number -1"),
    (9, 1, 5, "call long c add -9223372036854775808", "overflow"),
    (9, 1, 5, "call long c set -9223372036854775808", "number -1"),
    (9, 1, 5, "call long c get_and_add -1", "overflow"),
    (9, 1, 5, "call long c add -1", "overflow"),
    (9, 1, 5, "call long c cas -9223372036854775808 0", "true"),
    (
        9,
        1,
        5,
        "call long c add -9223372036854775808",
        "number -9223372036854775808",
    ),
    (9, 1, 5, "call long c add 9223372036854775807", "number -1"),
    (9, 1, 5, "query seq long c get", "number -1"),
];

#[test]
fn values(rt: HostRuntime) -> Result<(), Fail> {
    let alloc = rt.alloc();
    walk(&rt, alloc, Book::new(alloc), &VALUE)?;
    let mut listeners = Book::new(alloc);
    repeat(alloc, &mut listeners, 1024, "call value v listen")?;
    walk(&rt, alloc, listeners, &LISTENERS)
}

#[test]
fn longs(rt: HostRuntime) -> Result<(), Fail> {
    let alloc = rt.alloc();
    walk(&rt, alloc, Book::new(alloc), &LONG)
}
