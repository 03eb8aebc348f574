ghost use Rattle.std.specs.Prelude.{◌≡◌, ◌-◌, ◌≤◌, ◌++◌, true, length, take, slice_get, IfOk, OnErr};
ghost use Rattle.ax_types.specs.declared.entries.Loaded.{Loaded as KeptLoaded};
ghost use Rattle.spec_node.specs.Saving as saving;
ghost use Rattle.world_saves.specs.SaveChain as chains;
ghost use Rattle.world_saves.specs.Replacing as replacing;

use crate::save_chain::SaveCall;
use ax_types::{Entry, List, Loaded, NoMemory, NodeId, Saves};
use std::alloc::Global;

/// What a step may replace of what its node keeps: the term, the vote, and the entries that it may cut off.
#[derive(Drop)]
pub struct Replaced {
    pub term: u64,
    pub vote: Option<NodeId>,
    pub cut_off: List<Entry>,
}

/// What was kept before one of the store calls of a step: of what the node keeps after the step, without the saves of that
/// call and of those behind it.
#[tactic(auto, using(crate::proofs::Remains::vote_is_kept_before, crate::proofs::Remains::cut_is_kept_before, crate::proofs::Remains::add_is_kept_before))]
pub fn kept_before(
    call: SaveCall,
    after: Loaded,
    saves: &Saves,
    replaced: Replaced,
) -> Result<Loaded, NoMemory>
    ensures before { IfOk result (λ before. (kept : KeptLoaded) → replacing.LeadsTo kept saves.now replaced after → before ≡ saving.kept_at_failure kept (saving.calls_of saves.now) (chains.saves_before call saves.now)) }
    ensures memory { OnErr result (chains.leaves_nothing call ≡ true) }
{
    let staying = without_last(after.log, saves.add.len());
    match call {
        SaveCall::Vote => Ok(Loaded {
            term: replaced.term,
            vote: replaced.vote,
            log: with_cut_off(staying, saves.cut, replaced.cut_off)?,
        }),
        SaveCall::Cut => Ok(Loaded {
            term: after.term,
            vote: after.vote,
            log: with_cut_off(staying, saves.cut, replaced.cut_off)?,
        }),
        SaveCall::Add => Ok(Loaded {
            term: after.term,
            vote: after.vote,
            log: staying,
        }),
    }
}

/// Entries without so many of the last.
fn without_last(entries: List<Entry>, count: usize) -> List<Entry>
    ensures { result ≡ take (length entries - count) entries }
{
    let mut entries = entries.into_vec();
    let staying = entries.len().saturating_sub(count);
    entries.truncate(staying);
    List::from_vec(entries)
}

/// The log with the entries behind it that were cut off, where some were.
fn with_cut_off(
    log: List<Entry>,
    cut: Option<u64>,
    cut_off: List<Entry>,
) -> Result<List<Entry>, NoMemory>
    ensures { IfOk result (λ whole. whole ≡ log ++ replacing.if_cut cut cut_off) }
{
    if cut.is_none() {
        return Ok(log);
    }
    let mut entries = log.into_vec();
    let mut rest = cut_off.into_vec();
    entries.append(&mut rest)?;
    Ok(List::from_vec(entries))
}

/// The entries of which some may have stayed where one of the store calls of a step failed.
pub fn entries_at_stake(alloc: Global, call: SaveCall, saves: Saves) -> List<Entry>
    requires { chains.has_call call saves ≡ true }
    ensures { result ≡ saving.at_stake (slice_get (saving.calls_of saves) (chains.saves_before call saves)) }
{
    match call {
        SaveCall::Add => saves.add,
        _ => List::new(alloc),
    }
}
