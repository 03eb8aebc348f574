//! Journals of version 2 and 1, cut at each byte, and with a wrong byte.
use ax_types::{Body, List, Loaded, StoreError};
use std::alloc::Global;
use std::process::Abort;
use std::test::Fail;
use store_journal::{JournalStore, Keeper, MemKeeper, NodeStore};

/// No entries; term 1 with a vote for node 1; and the blank entry of term 1 at place 1.
const NEW: [u8; 45] = [
    0x14, 0, 0, 0, 0, 0, 0, 0, 0, 0x11, 0, 0, 0, 0, 0, 0, 0, 1, 1, 0x15, 0, 0, 0, 0, 0, 0, 0, 1, 0,
    0, 0, 0, 0, 0, 0, 1, 0, 0, 0, 0, 0, 0, 0, 0, 0,
];

/// The same of version 1.
const OLD: [u8; 28] = [
    0x11, 0, 0, 0, 0, 0, 0, 0, 1, 1, 0x13, 0, 0, 0, 0, 0, 0, 0, 1, 0, 0, 0, 0, 0, 0, 0, 0, 0,
];

/// A store over these bytes.
fn store_of(alloc: Global, bytes: &[u8]) -> Result<JournalStore<MemKeeper>, Fail> {
    let mut keeper = MemKeeper::new(alloc, List::new(alloc));
    if !bytes.is_empty() {
        keeper.append(bytes)?;
    }
    Ok(JournalStore::new(alloc, keeper))
}

/// The term, the node voted for or 0, and the number of entries.
fn summary(loaded: &Loaded) -> (u64, u8, usize) {
    let node = match loaded.vote {
        None => 0,
        Some(node) => node.number(),
    };
    (loaded.term, node, loaded.log.len())
}

/// What the first `count` bytes of the journal of version 2 load as.
fn expected(count: usize) -> (u64, u8, usize) {
    if count < 19 {
        (0, 0, 0)
    } else if count < 45 {
        (1, 1, 0)
    } else {
        (1, 1, 1)
    }
}

#[test]
fn fronts_load_as_whole_records(rt: HostRuntime) -> Result<(), Fail> {
    let alloc = rt.alloc();
    for count in 0..46 {
        let mut store = store_of(alloc, &NEW[..count])?;
        assert_eq!(rt; summary(&store.load()?), expected(count));
        // What is torn was trimmed, so that more can be appended.
        store.set_vote(7, None)?;
        assert_eq!(rt; summary(&store.load()?), (7, 0, expected(count).2));
    }
    Ok(())
}

#[test]
fn wrong_bytes_are_told(rt: HostRuntime) -> Result<(), Fail> {
    let alloc = rt.alloc();
    for (at, place) in [(0, 0), (9, 9), (18, 9), (19, 19), (27, 19), (44, 19)] {
        let mut bytes = NEW;
        bytes[at] = 0x77;
        let mut store = store_of(alloc, &bytes)?;
        match store.load() {
            Err(StoreError::Bad { at: offset }) => assert_eq!(rt; offset, place),
            _ => assert!(rt; false),
        }
    }
    Ok(())
}

#[test]
fn an_upgrade_counts(rt: HostRuntime) -> Result<(), Fail> {
    let alloc = rt.alloc();
    let mut store = store_of(alloc, &OLD)?;
    let found = store.upgrade()?;
    assert_eq!(rt; (found.version, found.entries), (1, 1));
    let found = store.upgrade()?;
    assert_eq!(rt; (found.version, found.entries), (2, 1));
    let loaded = store.load()?;
    assert_eq!(rt; summary(&loaded), (1, 1, 1));
    for entry in loaded.log.iter() {
        assert!(rt; entry.term == 1 && entry.time == 0 && matches!(entry.body, Body::Blank));
    }
    let mut empty = store_of(alloc, &[])?;
    let found = empty.upgrade()?;
    assert_eq!(rt; (found.version, found.entries), (0, 0));
    Ok(())
}
