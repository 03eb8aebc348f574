ghost use Rattle.std.specs.Prelude.{◌≡◌, IfOk, OnOk};
ghost use Rattle.ax_types.specs.declared.steps.Step.TheVariants as steps;
ghost use Rattle.spec_world.specs.Plans as plans;
ghost use Rattle.ax_world.specs.Scenes as scenes;

use crate::brought::Brought;
use crate::scene::{Scene, reason_of};
use ax_types::{End, Item, List, NoMemory};

impl Scene {
    /// The link between two ends is cut.
    pub(crate) fn cuts(&mut self, one: End, other: End) -> Brought
        requires ready { scenes.MayTakeStep self.old }
        ensures does { scenes.Does self.new.world result (plans.plan self.old.world (steps.Cut one other)) }
        ensures open { scenes.StaysOpen self.old self.new }
        ensures history { self.new.world.history ≡ self.old.world.history }
        ensures hosts { self.new.world.hosts ≡ self.old.world.hosts }
    {
        self.bag.cut(one, other);
        self.shows_nothing()
    }

    /// The link between two ends is joined.
    pub(crate) fn joins(&mut self, one: End, other: End) -> Brought
        requires ready { scenes.MayTakeStep self.old }
        ensures does { scenes.Does self.new.world result (plans.plan self.old.world (steps.Join one other)) }
        ensures open { scenes.StaysOpen self.old self.new }
        ensures history { self.new.world.history ≡ self.old.world.history }
        ensures hosts { self.new.world.hosts ≡ self.old.world.hosts }
    {
        self.bag.join(one, other);
        self.shows_nothing()
    }

    #[tactic(auto, using(crate::proofs::Delivered::drop_refused, crate::proofs::Delivered::drop_done))]
    /// A packet is dropped.
    pub(crate) fn drops(&mut self, number: u64) -> Result<Brought, NoMemory>
        requires ready { scenes.MayTakeStep self.old }
        ensures does { IfOk result (λ b. scenes.Does self.new.world b (plans.plan self.old.world (steps.Drop number))) }
        ensures open { OnOk result (scenes.StaysOpen self.old self.new) }
        ensures history { self.new.world.history ≡ self.old.world.history }
        ensures hosts { self.new.world.hosts ≡ self.old.world.hosts }
    {
        match self.bag.mark(number) {
            Ok(()) => Ok(self.shows_nothing()),
            Err(refused) => self.skips(reason_of(refused)),
        }
    }

    /// The packets that wait are listed.
    pub(crate) fn lists(&self) -> Result<Brought, NoMemory>
        ensures { IfOk result (λ b. scenes.Does self.now.world b (plans.plan self.now.world steps.List)) }
    {
        let (count, pending) = self.bag.pending()?;
        let mut items = Vec::with_capacity(self.alloc, pending.len() + 1)?;
        items.push(Item::Listed { count })?;
        items.append(&mut pending.into_vec())?;
        Ok(Brought::shown(self.alloc, List::from_vec(items)))
    }
}
