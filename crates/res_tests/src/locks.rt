//! Locks: each operation and query, and the limit.
use crate::acts::{Row, repeat, walk};
use res_registry::Book;
use std::test::Fail;

/// Each operation and query of a lock.
static LOCK: [Row; 30] = [
    (1, 1, 7, "query seq lock l holder", "none"),
    (1, 1, 7, "query seq lock l waiting", "number 0"),
    (2, 1, 7, "call lock l unlock", "not-holder"),
    (3, 1, 7, "call lock l try_lock", "fence 3"),
    (4, 1, 7, "call lock l try_lock", "already"),
    (4, 1, 7, "call lock l lock", "already"),
    (4, 1, 7, "call lock l cancel", "false"),
    (5, 1, 8, "call lock l try_lock", "busy"),
    (5, 1, 8, "call lock l unlock", "not-holder"),
    (6, 1, 8, "call lock l lock", "done"),
    (6, 1, 8, "call lock l lock", "already"),
    (6, 1, 8, "call lock l try_lock", "already"),
    (6, 1, 8, "call lock l unlock", "not-holder"),
    (7, 1, 5, "call lock l lock", "done"),
    (7, 1, 6, "call lock l lock", "done"),
    (7, 1, 9, "call lock l lock", "done"),
    (8, 1, 0, "query seq lock l waiting", "number 4"),
    (8, 1, 0, "query seq lock l holder", "holder 7 3"),
    (9, 1, 5, "call lock l cancel", "true"),
    (9, 1, 5, "call lock l cancel", "false"),
    (10, 1, 7, "call lock l unlock", "done, 8 granted l 10"),
    (10, 1, 0, "query seq lock l holder", "holder 8 10"),
    (11, 1, 6, "close", "done"),
    (11, 1, 0, "query seq lock l waiting", "number 1"),
    (12, 1, 8, "close", "done, 9 granted l 12"),
    (12, 1, 0, "query seq lock l holder", "holder 9 12"),
    (12, 1, 0, "query seq lock l waiting", "number 0"),
    (13, 1, 9, "call lock l unlock", "done"),
    (13, 1, 0, "query seq lock l holder", "none"),
    (14, 1, 4, "call lock l lock", "done, 4 granted l 14"),
];

/// Of a lock that session 0 holds, and for which the sessions from 1 to 1,024 wait.
static WAITING: [Row; 11] = [
    (2, 1, 0, "query seq lock l waiting", "number 1024"),
    (3, 1, 1025, "call lock l lock", "full"),
    (3, 1, 1025, "call lock l try_lock", "busy"),
    (3, 1, 1025, "call lock l cancel", "false"),
    (3, 1, 0, "query seq lock l waiting", "number 1024"),
    (4, 1, 7, "call lock l cancel", "true"),
    (4, 1, 1025, "call lock l lock", "done"),
    (4, 1, 7, "call lock l lock", "full"),
    (5, 1, 0, "call lock l unlock", "done, 1 granted l 5"),
    (5, 1, 7, "call lock l lock", "done"),
    (5, 1, 0, "call lock l lock", "full"),
];

#[test]
fn locks(rt: HostRuntime) -> Result<(), Fail> {
    let alloc = rt.alloc();
    walk(&rt, alloc, Book::new(alloc), &LOCK)?;
    let mut waiting = Book::new(alloc);
    repeat(alloc, &mut waiting, 1025, "call lock l lock")?;
    walk(&rt, alloc, waiting, &WAITING)
}
