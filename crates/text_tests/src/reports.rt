//! The text of a report, and its form in JSON.
use ax_types::{
    Act, ClientId, Event, Item, Key, Level, Life, List, MapOp, Name, Op, Outcome, Reply, Report,
    RunEnd, Text, WatchKind, WindowCall,
};
use report_text::{Printout, json_text, waiting_of, write_items, write_rest};
use std::alloc::Global;
use std::test::Fail;

fn name(alloc: Global, bytes: &[u8]) -> Result<Name, Fail> {
    Ok(Name::read(alloc, bytes)?.ok_or("no name")?)
}

fn key(alloc: Global, bytes: &[u8]) -> Result<Key, Fail> {
    Ok(Key::read(alloc, bytes)?.ok_or("no key")?)
}

fn text(alloc: Global, bytes: &[u8]) -> Result<Text, Fail> {
    Ok(Text::read(alloc, bytes)?.ok_or("no text")?)
}

fn put_for(alloc: Global) -> Result<Op, Fail> {
    let key = key(alloc, b"a")?;
    let text = text(alloc, b"\"1\\")?;
    let life = Life::new(500).ok_or("no life")?;
    Ok(Op::Map(MapOp::PutFor { key, text, life }))
}

fn called(alloc: Global) -> Result<Item, Fail> {
    let name = name(alloc, b"m")?;
    let call = WindowCall::Command {
        name,
        op: put_for(alloc)?,
    };
    Ok(Item::Called {
        session: 2,
        number: 1,
        call,
    })
}

#[test]
fn a_report_has_lines(rt: HostRuntime) -> Result<(), Fail> {
    let alloc = rt.alloc();
    let put = Act::Do {
        session: 2,
        name: name(alloc, b"m")?,
        op: put_for(alloc)?,
    };
    let mut history = List::new(alloc);
    history.push((0, Act::Nothing))?;
    history.push((499, put))?;
    let mut items = List::new(alloc);
    items.push(called(alloc)?)?;
    let waiting = waiting_of(alloc, items.as_slice())?;
    let report = Report {
        items,
        history,
        waiting,
        end: RunEnd::StepLimit { line: 9 },
    };
    let mut text = Printout::new(alloc);
    text.write_head()?;
    write_items(&mut text, report.items.as_slice())?;
    write_rest(&mut text, &report)?;
    assert_eq!(rt;
        text.into_string().as_str(),
        "report 1\ncalled 2 1 call map m put_for a \"1\\ 500\nhistory 2\n1 0 nothing\n2 499 do 2 map m put_for a \"1\\ 500\nwaiting 2 1\nend step-limit 9\n"
    );
    Ok(())
}

#[test]
fn a_report_is_written_in_json(rt: HostRuntime) -> Result<(), Fail> {
    let alloc = rt.alloc();
    let mut items = List::new(alloc);
    items.push(called(alloc)?)?;
    let waiting = waiting_of(alloc, items.as_slice())?;
    let report = Report {
        items,
        history: List::new(alloc),
        waiting,
        end: RunEnd::Done,
    };
    assert_eq!(rt;
        json_text(alloc, &report)?.as_str(),
        "{\"end\":\"done\",\"history\":[],\"items\":[\"called 2 1 call map m put_for a \\\"1\\\\ 500\"],\"report\":1,\"waiting\":[\"waiting 2 1\"]}\n"
    );
    Ok(())
}

#[test]
fn a_caller_and_a_feed_have_lines(rt: HostRuntime) -> Result<(), Fail> {
    let alloc = rt.alloc();
    let client = ClientId::new(2).ok_or("no client")?;
    let read = Outcome::Read {
        level: Level::Lin,
        place: 3,
        reach: Some((2, 1)),
        reply: Reply::Holder {
            session: 2,
            fence: 3,
        },
    };
    let event = Event::Elected {
        name: name(alloc, b"g")?,
        session: 2,
        term: 6,
    };
    let mut text = Printout::new(alloc);
    text.write_caller(1, 7, &read)?;
    text.write_feed(1, client, WatchKind::All, 2, 6, &event)?;
    assert_eq!(rt;
        text.into_string().as_str(),
        "caller 1 7 read lin 3 2.1 holder 2 3\nfeed 1 2 all 2 6 elected g 2 6\n"
    );
    Ok(())
}
