//! One run, and what is refused and fails.
ghost use Rattle.std.specs.Prelude.{◌≡◌, length, IfOk};
ghost use Rattle.ax_types.specs.declared.limits.TheConstants.{MAX_NODES};
ghost use Rattle.ax_types.specs.declared.steps.WatchKind.TheVariants as watch;
ghost use Rattle.spec_claims.specs.Heard as claims;

use ax_io::{MemSink, MemSource};
use ax_types::limits::MAX_NODES;
use ax_types::{Event, List, Status, Why};
use run_top::run_top;
use std::alloc::{AllocError, Global};
use std::test::Fail;
use store_journal::{JournalStore, MemKeeper};
use watch_hooks::Filters;

const ONE_ADD: &[u8] =
    b"cluster 1 clients 1 timeout 1000\nelect 1\nopen 1 1\nflush\ncall 1 long c add 5\nflush\n";

const ONE_ADD_REPORT: &[u8] =
    b"report 1\nleader 1 1\ncommit 1\ncommit 2\nopened 2 1\ncalled 2 1 call long c add 5\ncommit 3\nreply 2 1 3 number 5\nhistory 3\n1 0 nothing\n2 0 open 1 1\n3 0 do 2 long c add 5\nend done\n";

/// An empty journal in memory for each node that a cluster may have.
fn empty_stores(alloc: Global) -> Result<Vec<JournalStore<MemKeeper>>, AllocError>
    ensures { IfOk result (λ stores. length stores.items ≡ MAX_NODES) }
{
    let mut stores = Vec::new(alloc);
    'nodes: for _node in 0..MAX_NODES {
        let keeper = MemKeeper::new(alloc, List::new(alloc));
        stores.push(JournalStore::new(alloc, keeper))?;
    }
    Ok(stores)
}

fn is_any(_event: &Event) -> bool
    ensures { result ≡ claims.holds watch.All _event.now }
{
    true
}

fn is_change(event: &Event) -> bool
    ensures { result ≡ claims.holds watch.Changes event.now }
{
    matches!(
        event,
        Event::Changed { .. } | Event::Removed { .. } | Event::Set { .. } | Event::Cleared { .. }
    )
}

fn is_grant(event: &Event) -> bool
    ensures { result ≡ claims.holds watch.Grants event.now }
{
    matches!(event, Event::Granted { .. } | Event::Elected { .. })
}

/// What a run of these words over this input gives, where the reads and the puts with these numbers fail and nothing is kept.
fn outcome(
    alloc: Global,
    words: &[String],
    input: &[u8],
    reads: List<u64>,
    puts: List<(u64, u64)>,
) -> Result<(Status, MemSink), AllocError> {
    let mut source = MemSource::new(List::from_vec(input.to_vec(alloc)?), reads);
    let mut sink = MemSink::new(alloc, puts);
    let mut stores = empty_stores(alloc)?;
    let filters = Filters::new(
        Box::new(alloc, is_any)?,
        Box::new(alloc, is_change)?,
        Box::new(alloc, is_grant)?,
    );
    let status = run_top(alloc, words, &mut source, &mut sink, &mut stores, &filters);
    Ok((status, sink))
}

#[test]
fn one_add_is_reported(rt: HostRuntime) -> Result<(), Fail> {
    let alloc = rt.alloc();
    let words = vec![in alloc; String::from_str(alloc, "run")?]?;
    let (status, sink) = outcome(
        alloc,
        words.as_slice(),
        ONE_ADD,
        List::new(alloc),
        List::new(alloc),
    )?;
    assert_eq!(rt; status, Status::Done);
    assert_eq!(rt; sink.taken().as_slice(), ONE_ADD_REPORT);
    Ok(())
}

#[test]
fn nothing_is_written_of_what_is_refused(rt: HostRuntime) -> Result<(), Fail> {
    let alloc = rt.alloc();
    let words = vec![in alloc;
        String::from_str(alloc, "run")?,
        String::from_str(alloc, "x")?,
    ]?;
    let (status, sink) = outcome(
        alloc,
        words.as_slice(),
        ONE_ADD,
        List::new(alloc),
        List::new(alloc),
    )?;
    assert_eq!(rt; status, Status::Usage);
    assert!(rt; sink.taken().is_empty());

    let words = vec![in alloc; String::from_str(alloc, "run")?]?;
    let (status, sink) = outcome(
        alloc,
        words.as_slice(),
        b"",
        List::new(alloc),
        List::new(alloc),
    )?;
    assert_eq!(rt;
        status,
        Status::Script {
            line: 1,
            why: Why::Cluster
        }
    );
    assert!(rt; sink.taken().is_empty());
    Ok(())
}

#[test]
fn faults_are_told(rt: HostRuntime) -> Result<(), Fail> {
    let alloc = rt.alloc();
    let words = vec![in alloc; String::from_str(alloc, "run")?]?;
    let reads = List::from_vec(vec![in alloc; 1u64]?);
    let (status, sink) = outcome(alloc, words.as_slice(), ONE_ADD, reads, List::new(alloc))?;
    assert_eq!(rt; status, Status::ReadFault);
    assert!(rt; sink.taken().is_empty());

    let puts = List::from_vec(vec![in alloc; (1u64, 0u64)]?);
    let (status, sink) = outcome(alloc, words.as_slice(), ONE_ADD, List::new(alloc), puts)?;
    assert_eq!(rt; status, Status::WriteFault);
    assert!(rt; sink.taken().is_empty());
    Ok(())
}

#[test]
fn a_text_goes_out_step_by_step_and_json_at_the_end(rt: HostRuntime) -> Result<(), Fail> {
    let alloc = rt.alloc();
    let words = vec![in alloc; String::from_str(alloc, "run")?]?;
    let puts = List::from_vec(vec![in alloc; (3u64, 4u64)]?);
    let (status, sink) = outcome(alloc, words.as_slice(), ONE_ADD, List::new(alloc), puts)?;
    assert_eq!(rt; status, Status::WriteFault);
    assert_eq!(rt;
        sink.taken().as_slice(),
        b"report 1\nleader 1 1\ncommit 1\ncomm".as_slice()
    );

    let words = vec![in alloc;
        String::from_str(alloc, "run")?,
        String::from_str(alloc, "--json")?,
    ]?;
    let puts = List::from_vec(vec![in alloc; (1u64, 7u64)]?);
    let (status, sink) = outcome(alloc, words.as_slice(), ONE_ADD, List::new(alloc), puts)?;
    assert_eq!(rt; status, Status::WriteFault);
    assert_eq!(rt; sink.taken().as_slice(), b"{\"end\":".as_slice());
    Ok(())
}
