//! Each call of a store in turn fails, and keeps none, half, or all but one of what it was given.
ghost use Rattle.std.specs.Prelude.{◌≡◌, false, OnOk};

use ax_types::{Body, Entry, List, Loaded, NodeId, StoreError};
use std::alloc::Global;
use std::process::Abort;
use std::test::Fail;
use store_journal::{JournalStore, MemKeeper, MemStore, NodeStore};

/// A pair for the call that fails.
fn failing(alloc: Global, call: u64, kept: u64) -> Result<List<(u64, u64)>, Fail> {
    let mut failing = List::new(alloc);
    failing.push((call, kept))?;
    Ok(failing)
}

fn blanks(alloc: Global, count: u64) -> Result<Vec<Entry>, Fail> {
    let mut entries = Vec::new(alloc);
    for time in 0..count {
        entries.push(Entry {
            term: 1,
            time,
            body: Body::Blank,
        })?;
    }
    Ok(entries)
}

/// Loads the store, once more after a failure.
fn loaded<S: NodeStore>(store: &mut S) -> Result<Loaded, StoreError>
    ensures { OnOk result (S.needs_load store.new ≡ false) }
{
    match store.load() {
        Err(StoreError::Failed) => store.load(),
        other => other,
    }
}

/// A vote and four entries are kept, with a load after a call that failed. Gives how many failed, and the entries that
/// were left.
fn kept<S: NodeStore>(alloc: Global, store: &mut S) -> Result<(u64, u64, usize), Fail> {
    let mut faults = 0;
    loaded(store)?;
    if store.set_vote(1, NodeId::new(1)).is_err() {
        faults += 1;
    }
    let vote = loaded(store)?.term;
    if store.add(blanks(alloc, 4)?.as_slice()).is_err() {
        faults += 1;
    }
    Ok((faults, vote, loaded(store)?.log.len()))
}

#[test]
fn each_call_of_a_store_in_memory(rt: HostRuntime) -> Result<(), Fail> {
    let alloc = rt.alloc();
    // The calls are load, set_vote, load, add, load.
    for (call, entries, expected) in [
        (1, 0, (0, 1, 4)),
        (2, 0, (1, 0, 4)),
        (3, 0, (0, 1, 4)),
        (4, 0, (1, 1, 0)),
        (4, 2, (1, 1, 2)),
        (4, 3, (1, 1, 3)),
        (5, 0, (0, 1, 4)),
        (6, 0, (0, 1, 4)),
    ] {
        let mut store = MemStore::new(alloc, failing(alloc, call, entries)?);
        assert_eq!(rt; kept(alloc, &mut store)?, expected);
    }
    Ok(())
}

#[test]
fn each_call_of_a_keeper(rt: HostRuntime) -> Result<(), Fail> {
    let alloc = rt.alloc();
    // The calls are bytes, append, bytes, append, bytes, and trim where an append was torn. A vote appends 19 bytes, four
    // entries 26 each.
    for (call, bytes, expected) in [
        (1, 0, (0, 1, 4)),
        (2, 0, (1, 0, 4)),
        (2, 9, (1, 0, 4)),
        (2, 18, (1, 0, 4)),
        (3, 0, (0, 1, 4)),
        (4, 0, (1, 1, 0)),
        (4, 25, (1, 1, 0)),
        (4, 52, (1, 1, 2)),
        (4, 103, (1, 1, 3)),
        (5, 0, (0, 1, 4)),
    ] {
        let keeper = MemKeeper::new(alloc, failing(alloc, call, bytes)?);
        let mut store = JournalStore::new(alloc, keeper);
        assert_eq!(rt; kept(alloc, &mut store)?, expected);
    }
    Ok(())
}
