ghost use Rattle.std.specs.Prelude.{◌≡◌, ◌≤◌, ◌++◌, length, slice_get, IfOk};
ghost use Rattle.spec_node.specs.Saving as saving;

use ax_types::{Entry, List, Loaded, NoMemory, Saves};

/// Whether a step saves a vote, as a count of store calls.
fn vote_calls(saves: &Saves) -> u64
    ensures count { result ≡ length (saving.vote_call saves.now.vote) }
    ensures most { result ≤ 1 }
{
    match saves.vote {
        None => 0,
        Some(_) => 1,
    }
}

/// Whether a step saves a cut, as a count of store calls.
fn cut_calls(saves: &Saves) -> u64
    ensures count { result ≡ length (saving.cut_call saves.now.cut) }
    ensures most { result ≤ 1 }
{
    match saves.cut {
        None => 0,
        Some(_) => 1,
    }
}

/// How many store calls stand before that of the entries.
fn calls_before_add(saves: &Saves) -> u64
    ensures count { result ≡ length (saving.vote_call saves.now.vote ++ saving.cut_call saves.now.cut) }
    ensures most { result ≤ 2 }
{
    vote_calls(saves) + cut_calls(saves)
}

/// How many store calls a step makes.
fn call_count(saves: &Saves) -> u64
    ensures { result ≡ length (saving.calls_of saves.now) }
{
    let before = calls_before_add(saves);
    if saves.add.is_empty() {
        return before;
    }
    before + 1
}

/// How many entries the call after the first ones may leave where it fails.
fn at_stake(saves: &Saves, saved: u64) -> u64
    ensures { result ≡ length (saving.at_stake (slice_get (saving.calls_of saves.now) saved)) }
{
    if saved == calls_before_add(saves) {
        saves.add.len() as u64
    } else {
        0
    }
}

/// Whether the store call after the first ones may fail and leave so many entries. After all of them it is the step that ends
/// there.
pub(crate) fn may_fail(saves: &Saves, saved: u64, added: u64) -> bool
    ensures { result ≡ saving.may_fail (saving.calls_of saves.now) saved added }
{
    saved <= call_count(saves) && added <= at_stake(saves, saved)
}

/// What is kept where the store call after the first ones failed and left so many entries.
pub(crate) fn kept_after(
    kept: Loaded,
    saves: Saves,
    saved: u64,
    added: u64,
) -> Result<Loaded, NoMemory>
    ensures { IfOk result (λ left. left ≡ saving.kept_after kept (saving.calls_of saves) saved added) }
{
    let Saves { vote, cut, add } = saves;
    let Some((term, vote)) = vote else {
        return kept_after_cut(kept, cut, add, saved, added);
    };
    if saved == 0 {
        return Ok(kept);
    }
    let log = kept.log;
    let voted = Loaded { term, vote, log };
    kept_after_cut(voted, cut, add, saved - 1, added)
}

/// The same, of the calls from the cut on.
fn kept_after_cut(
    kept: Loaded,
    cut: Option<u64>,
    add: List<Entry>,
    saved: u64,
    added: u64,
) -> Result<Loaded, NoMemory>
    ensures { IfOk result (λ left. left ≡ saving.kept_after kept (saving.cut_call cut ++ saving.add_call add) saved added) }
{
    let Some(last) = cut else {
        return kept_after_add(kept, add, saved, added);
    };
    if saved == 0 {
        return Ok(kept);
    }
    kept_after_add(shortened(kept, last), add, saved - 1, added)
}

/// The same, of the last call.
fn kept_after_add(
    kept: Loaded,
    add: List<Entry>,
    saved: u64,
    added: u64,
) -> Result<Loaded, NoMemory>
    ensures { IfOk result (λ left. left ≡ saving.kept_after kept (saving.add_call add) saved added) }
{
    if saved == 0 {
        return lengthened(kept, add, added);
    }
    let all = add.len() as u64;
    lengthened(kept, add, all)
}

/// What is kept, with the first entries of its log alone.
fn shortened(kept: Loaded, last: u64) -> Loaded
    ensures { result ≡ saving.saved kept (saving.Cut last) }
{
    let mut entries = kept.log.into_vec();
    entries.truncate(last as usize);
    Loaded {
        term: kept.term,
        vote: kept.vote,
        log: List::from_vec(entries),
    }
}

/// What is kept, with the first of some entries behind its log.
fn lengthened(kept: Loaded, add: List<Entry>, count: u64) -> Result<Loaded, NoMemory>
    ensures { IfOk result (λ longer. longer ≡ saving.with_rest kept add count) }
{
    let mut entries = kept.log.into_vec();
    let mut rest = add.into_vec();
    rest.truncate(count as usize);
    entries.append(&mut rest)?;
    Ok(Loaded {
        term: kept.term,
        vote: kept.vote,
        log: List::from_vec(entries),
    })
}
