//! Which events each filter holds.
use ax_types::{Event, Key, Name, Text, WatchKind};
use std::alloc::Global;
use std::process::Abort;
use std::test::Fail;
use watch_hooks::Filters;

fn name(alloc: Global) -> Result<Name, Fail> {
    Ok(Name::read(alloc, b"n")?.ok_or("no name")?)
}

fn key(alloc: Global) -> Result<Key, Fail> {
    Ok(Key::read(alloc, b"k")?.ok_or("no key")?)
}

fn text(alloc: Global) -> Result<Text, Fail> {
    Ok(Text::read(alloc, b"v")?.ok_or("no text")?)
}

/// Whether the filters of changes and of grants hold the event; that of all holds each.
fn held(rt: &impl Abort, filters: &Filters, event: &Event) -> (bool, bool) {
    assert!(rt; filters.holds(WatchKind::All, event));
    (
        filters.holds(WatchKind::Changes, event),
        filters.holds(WatchKind::Grants, event),
    )
}

#[test]
fn each_filter_holds_its_kinds(rt: HostRuntime) -> Result<(), Fail> {
    let alloc = rt.alloc();
    let filters = Filters::new(
        Box::new(alloc, |_: &Event| true)?,
        Box::new(alloc, |event: &Event| {
            matches!(
                event,
                Event::Changed { .. }
                    | Event::Removed { .. }
                    | Event::Set { .. }
                    | Event::Cleared { .. }
            )
        })?,
        Box::new(alloc, |event: &Event| {
            matches!(event, Event::Granted { .. } | Event::Elected { .. })
        })?,
    );
    let changed = Event::Changed {
        name: name(alloc)?,
        key: key(alloc)?,
        text: text(alloc)?,
    };
    assert_eq!(rt; held(&rt, &filters, &changed), (true, false));
    let removed = Event::Removed {
        name: name(alloc)?,
        key: key(alloc)?,
    };
    assert_eq!(rt; held(&rt, &filters, &removed), (true, false));
    let set = Event::Set {
        name: name(alloc)?,
        text: text(alloc)?,
    };
    assert_eq!(rt; held(&rt, &filters, &set), (true, false));
    let cleared = Event::Cleared { name: name(alloc)? };
    assert_eq!(rt; held(&rt, &filters, &cleared), (true, false));
    let granted = Event::Granted {
        name: name(alloc)?,
        fence: 4,
    };
    assert_eq!(rt; held(&rt, &filters, &granted), (false, true));
    let elected = Event::Elected {
        name: name(alloc)?,
        session: 2,
        term: 6,
    };
    assert_eq!(rt; held(&rt, &filters, &elected), (false, true));
    let joined = Event::Joined {
        name: name(alloc)?,
        session: 2,
    };
    assert_eq!(rt; held(&rt, &filters, &joined), (false, false));
    let left = Event::Left {
        name: name(alloc)?,
        session: 2,
    };
    assert_eq!(rt; held(&rt, &filters, &left), (false, false));
    let message = Event::Message {
        name: name(alloc)?,
        text: text(alloc)?,
    };
    assert_eq!(rt; held(&rt, &filters, &message), (false, false));
    Ok(())
}
