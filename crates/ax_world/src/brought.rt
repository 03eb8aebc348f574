ghost use Rattle.std.specs.Prelude.{◌≡◌, ◌∷◌, [], IfOk};
ghost use Rattle.ax_world.specs.Scenes as scenes;

use ax_types::{Act, Item, List, NoMemory, NodeId, SkipReason, StepOutcome};
use std::alloc::Global;

/// What a step brings: its items, the acts that it adds to the history, and how the stores fared in it.
#[derive(Drop)]
pub(crate) struct Brought {
    pub(crate) items: List<Item>,
    pub(crate) acts: List<(u64, Act)>,
    pub(crate) outcome: StepOutcome,
}

impl Brought {
    /// Items alone. It takes no memory.
    pub(crate) fn shown(alloc: Global, items: List<Item>) -> Brought
        ensures { result ≡ scenes.only_shown items }
    {
        Brought {
            items,
            acts: List::new(alloc),
            outcome: StepOutcome::Fine,
        }
    }

    /// Nothing. It takes no memory.
    pub(crate) fn nothing(alloc: Global) -> Brought
        ensures { result ≡ scenes.only_shown [] }
    {
        Brought::shown(alloc, List::new(alloc))
    }

    /// The step was skipped.
    pub(crate) fn skipped(alloc: Global, reason: SkipReason) -> Result<Brought, NoMemory>
        ensures { IfOk result (λ b. b ≡ scenes.skipped reason) }
    {
        Ok(Brought::shown(alloc, one(alloc, Item::Skip { reason })?))
    }

    /// A node halted after so many store calls of the step.
    pub(crate) fn halted(alloc: Global, node: NodeId, saved: u64) -> Result<Brought, NoMemory>
        ensures { IfOk result (λ b. b ≡ scenes.halted node saved) }
    {
        Ok(Brought {
            items: one(alloc, Item::Halted { node })?,
            acts: List::new(alloc),
            outcome: StepOutcome::Failed { saved },
        })
    }

    /// What the start of a node brings, by how its store fared.
    pub(crate) fn started(
        alloc: Global,
        node: NodeId,
        outcome: StepOutcome,
    ) -> Result<Brought, NoMemory>
        ensures { IfOk result (λ b. b ≡ scenes.start_brought node outcome) }
    {
        match outcome {
            StepOutcome::Failed { saved } => Brought::halted(alloc, node, saved),
            StepOutcome::Fine | StepOutcome::Loaded { .. } => Ok(Brought {
                items: List::new(alloc),
                acts: List::new(alloc),
                outcome,
            }),
        }
    }
}

/// A list of one item.
fn one(alloc: Global, item: Item) -> Result<List<Item>, NoMemory>
    ensures { IfOk result (λ items. items ≡ item ∷ []) }
{
    let mut items = List::with_capacity(alloc, 1)?;
    items.push(item)?;
    Ok(items)
}
