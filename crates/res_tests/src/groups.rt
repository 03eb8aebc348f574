//! Groups: each operation and query, and the limits.
use crate::acts::{Row, repeat, walk};
use res_registry::Book;
use std::test::Fail;

/// Each operation and query of a group.
static GROUP: [Row; 24] = [
    (1, 1, 0, "query seq group g members", "members"),
    (1, 1, 0, "query seq group g leader", "none"),
    (2, 1, 5, "call group g leave", "not-member"),
    (3, 1, 9, "call group g listen", "done"),
    (3, 1, 9, "call group g listen", "already"),
    (3, 1, 8, "call group g listen", "done"),
    (
        4,
        1,
        5,
        "call group g join",
        "done, 8 joined g 5, 9 joined g 5, 8 elected g 5 4, 9 elected g 5 4",
    ),
    (5, 1, 5, "call group g join", "already"),
    (
        6,
        1,
        3,
        "call group g join",
        "done, 8 joined g 3, 9 joined g 3",
    ),
    (
        7,
        1,
        9,
        "call group g join",
        "done, 8 joined g 9, 9 joined g 9",
    ),
    (8, 1, 0, "query seq group g members", "members 5 3 9"),
    (8, 1, 0, "query seq group g leader", "leader 5 4"),
    (
        9,
        1,
        5,
        "call group g leave",
        "done, 8 left g 5, 9 left g 5, 8 elected g 3 9, 9 elected g 3 9",
    ),
    (9, 1, 0, "query seq group g leader", "leader 3 9"),
    (
        10,
        1,
        5,
        "call group g join",
        "done, 8 joined g 5, 9 joined g 5",
    ),
    (
        11,
        1,
        5,
        "call group g leave",
        "done, 8 left g 5, 9 left g 5",
    ),
    (11, 1, 0, "query seq group g leader", "leader 3 9"),
    // A session that ends is told nothing of it.
    (12, 1, 9, "close", "done, 8 left g 9"),
    (13, 1, 4, "call group g join", "done, 8 joined g 4"),
    (14, 1, 3, "close", "done, 8 left g 3, 8 elected g 4 14"),
    (15, 1, 4, "call group g leave", "done, 8 left g 4"),
    (15, 1, 0, "query seq group g leader", "none"),
    (16, 1, 8, "close", "done"),
    (17, 1, 1, "call group g join", "done"),
];

/// Of a group of which the sessions from 0 to 1,023 are members.
static MEMBERS: [Row; 9] = [
    (2, 1, 1024, "call group g join", "full"),
    (2, 1, 7, "call group g join", "already"),
    (2, 1, 1024, "call group g leave", "not-member"),
    (2, 1, 0, "query seq group g leader", "leader 0 1"),
    (3, 1, 7, "call group g leave", "done"),
    (3, 1, 1024, "call group g join", "done"),
    (3, 1, 7, "call group g join", "full"),
    (4, 1, 0, "close", "done"),
    (4, 1, 0, "query seq group g leader", "leader 1 4"),
];

/// Of a group without members, to which the sessions from 0 to 1,023 listen.
static LISTENERS: [Row; 5] = [
    (2, 1, 1024, "call group g listen", "full"),
    (2, 1, 7, "call group g listen", "already"),
    (3, 1, 7, "close", "done"),
    (4, 1, 1024, "call group g listen", "done"),
    (4, 1, 7, "call group g listen", "full"),
];

#[test]
fn groups(rt: HostRuntime) -> Result<(), Fail> {
    let alloc = rt.alloc();
    walk(&rt, alloc, Book::new(alloc), &GROUP)?;
    let mut members = Book::new(alloc);
    repeat(alloc, &mut members, 1024, "call group g join")?;
    walk(&rt, alloc, members, &MEMBERS)?;
    let mut listeners = Book::new(alloc);
    repeat(alloc, &mut listeners, 1024, "call group g listen")?;
    walk(&rt, alloc, listeners, &LISTENERS)
}
