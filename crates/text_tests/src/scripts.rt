//! What only `race` reads, and lines that want more than one node or client; examples/check tries the lines of `run`.
use ax_types::{Line, NoMemory, Why};
use script_text::{ScriptRefused, read_script, write_step};
use std::alloc::Global;
use std::test::Fail;

static HEAD: &str = "cluster 3 clients 2 timeout 1000\n";

static TAKEN: [&str; 19] = [
    "elect 3",
    "cut n1 n3",
    "cut n3 c2",
    "switch 2 3",
    "caller 1 200 call long c add 1",
    "caller 1 10000 query lin lock l holder",
    "at 5 crash 1",
    "at 1 elect 3",
    "at 1 beat 1",
    "at 1 start 1",
    "at 1000000 clock 1 0",
    "at 1 expire 1",
    "at 1 cut n1 c2",
    "at 1 join n1 n2",
    "at 1 switch 1 3",
    "at 1 keep 1",
    "feed 1 grants",
    "feed 2 all",
    "feed 2 changes",
];

static REFUSED: [&str; 17] = [
    "elect 4",
    "cut c1 c2",
    "cut n2 n2",
    "cut n4 n1",
    "cut n1 c3",
    "at 1 crash 4",
    "calle 1 1 call long c add 1",
    "callerr 1 1 call long c add 1",
    "caller 2 1 call long c add 1",
    "a 1 crash 1",
    "att 1 crash 1",
    "fee 1 all",
    "feedd 1 all",
    "feed 1",
    "feed 0 all",
    "feed 3 all",
    "feed 1 some",
];

/// Behind a line of a caller that calls 9,999 times.
static REFUSED_BEHIND: [&str; 19] = [
    "caller 1 2 call long c add 1",
    "caller 3 1 call long c add 1",
    "caller 0 1 call long c add 1",
    "caller 1111111111111111111111111111111111111111 1 call long c add 1",
    "caller 2 0 call long c add 1",
    "caller 2 10001 call long c add 1",
    "caller 2 1111111111111111111111111111111111111111 call long c add 1",
    "caller 2 1 elect 1",
    "caller 2 1",
    "at 0 crash 1",
    "at 1000001 crash 1",
    "at 1111111111111111111111111111111111111111 crash 1",
    "at 1 open 1 1",
    "at 1 keep 2",
    "at 1 switch 2 1",
    "at 1 flush",
    "at 1",
    "flush",
    "elect 1",
];

fn refusal(alloc: Global, bytes: &[u8]) -> Result<Option<(u64, Why)>, NoMemory> {
    match read_script(alloc, bytes, true) {
        Ok(_) => Ok(None),
        Err(ScriptRefused::Refused { line, why }) => Ok(Some((line, why))),
        Err(ScriptRefused::NoMemory) => Err(NoMemory),
    }
}

/// The first of the lines that gets another answer behind the others.
fn odd_line(
    alloc: Global,
    others: &str,
    lines: &[&'static str],
    wanted: Option<(u64, Why)>,
) -> Result<Option<&'static str>, NoMemory> {
    for line in lines {
        let text = format!(in alloc; "{others}{line}\n")?;
        if refusal(alloc, text.as_bytes())? != wanted {
            return Ok(Some(line));
        }
    }
    Ok(None)
}

/// The text of the one step of a script.
fn only_step(alloc: Global, text: &str) -> Result<Option<String>, NoMemory> {
    match read_script(alloc, text.as_bytes(), false) {
        Ok(script) => match script.lines.as_slice() {
            [(_, Line::Do(step))] => {
                let mut text = String::new(alloc);
                write_step(&mut text, step)?;
                Ok(Some(text))
            }
            _ => Ok(None),
        },
        Err(_) => Ok(None),
    }
}

#[test]
fn lines(rt: HostRuntime) -> Result<(), Fail> {
    let alloc = rt.alloc();
    assert_eq!(rt; odd_line(alloc, HEAD, &TAKEN, None)?, None);
    assert_eq!(rt;
        odd_line(alloc, HEAD, &REFUSED, Some((2, Why::Grammar)))?,
        None
    );
    let caller = format!(in alloc; "{HEAD}caller 1 9999 call long c add 1\n#\n")?;
    assert_eq!(rt;
        odd_line(
            alloc,
            caller.as_str(),
            &REFUSED_BEHIND,
            Some((4, Why::Grammar))
        )?,
        None
    );
    let feeds = "feed 1 all\nfeed 2 all\nfeed 1 all\nfeed 2 all\n";
    let fifteen = format!(in alloc;
        "{HEAD}{feeds}{feeds}{feeds}feed 1 all\nfeed 1 all\nfeed 1 all\n"
    )?;
    assert_eq!(rt;
        odd_line(alloc, fifteen.as_str(), &["feed 2 grants"], None)?,
        None
    );
    let sixteen = format!(in alloc; "{fifteen}feed 1 all\n")?;
    assert_eq!(rt;
        odd_line(
            alloc,
            sixteen.as_str(),
            &["feed 2 grants"],
            Some((18, Why::Grammar))
        )?,
        None
    );
    let step = only_step(alloc, "cluster 3 clients 2 timeout 1\n#\ncut n1 c2\n")?;
    assert_eq!(rt; step.as_ref().map(String::as_str), Some("cut n1 c2"));
    Ok(())
}
