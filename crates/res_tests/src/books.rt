//! Several names together: who is told in which order, another kind, and a full book.
use crate::acts::{Row, number, walk};
use ax_types::Duplicate;
use res_registry::Book;
use std::test::Fail;

/// A history over several names.
static HISTORY: [Row; 26] = [
    // The group loses its leader.
    (3, 1, 7, "call group g listen", "done"),
    (
        4,
        1,
        2,
        "call group g join",
        "done, 7 joined g 2, 7 elected g 2 4",
    ),
    (5, 1, 3, "call group g join", "done, 7 joined g 3"),
    (6, 1, 2, "close", "done, 7 left g 2, 7 elected g 3 6"),
    // A life ends at exactly the act's time, and not one before.
    (7, 10, 7, "call map m listen", "done"),
    (
        8,
        10,
        4,
        "call map m put_for k v 5",
        "none, 7 changed m k v",
    ),
    (9, 14, 4, "keep", "done"),
    (10, 15, 4, "keep", "done, 7 removed m k"),
    // Lives end before the command.
    (
        11,
        20,
        4,
        "call map m put_for k v 5",
        "none, 7 changed m k v",
    ),
    (
        12,
        25,
        4,
        "call map m put_for k v 5",
        "none, 7 removed m k, 7 changed m k v",
    ),
    (
        13,
        26,
        4,
        "call map m put_for k v 5",
        "some v, 7 changed m k v",
    ),
    (14, 30, 4, "keep", "done"),
    // A listener that ends where an entry goes is told nothing; another is.
    (15, 30, 8, "call map m listen", "done"),
    (16, 31, 7, "close", "done, 8 removed m k"),
    (
        17,
        31,
        4,
        "call map m put_for k v 5",
        "none, 8 changed m k v",
    ),
    (18, 36, 8, "expire", "done"),
    (19, 40, 4, "call map m put_for k v 5", "none"),
    // At the end of a session lives end before it leaves, whatever the names.
    (20, 40, 9, "call map m listen", "done"),
    (21, 40, 9, "call group g listen", "done"),
    (22, 45, 3, "expire", "done, 9 removed m k, 9 left g 3"),
    // Another kind.
    (23, 45, 9, "call group m join", "wrong-kind"),
    (24, 45, 9, "call long g add 1", "wrong-kind"),
    (24, 45, 9, "query seq long m get", "wrong-kind"),
    (24, 45, 9, "query seq map m size", "number 0"),
    (24, 45, 9, "query seq map new size", "number 0"),
    (24, 45, 9, "query seq long new get", "number 0"),
];

/// Of a book with the longs from `n0` to `n1023`, each 1.
static FULL: [Row; 8] = [
    (2000, 1, 2, "call long more add 1", "full"),
    (2001, 1, 2, "call group more listen", "full"),
    (2002, 1, 2, "query seq long more get", "number 0"),
    (2003, 1, 2, "call long n5 add 1", "number 2"),
    (2004, 1, 2, "call long more add 1", "full"),
    (2005, 1, 2, "call group n5 join", "wrong-kind"),
    (2006, 1, 2, "query seq long n5 get", "number 2"),
    (2007, 1, 2, "call long n1023 add 1", "number 2"),
];

#[test]
fn histories(rt: HostRuntime) -> Result<(), Fail> {
    let alloc = rt.alloc();
    walk(&rt, alloc, Book::new(alloc), &HISTORY)
}

#[test]
fn full_books(rt: HostRuntime) -> Result<(), Fail> {
    let alloc = rt.alloc();
    let mut book = Book::new(alloc);
    number(alloc, &mut book, "call long n", " add 1")?;
    let other = book.copy()?;
    walk(&rt, alloc, book, &FULL)?;
    walk(&rt, alloc, other, &FULL)
}
