ghost use Rattle.std.specs.Prelude.{◌≡◌};
ghost use Rattle.ax_types.specs.declared.steps.WatchKind.TheVariants as watch;
ghost use Rattle.spec_claims.specs.Heard as claims;
ghost use Rattle.watch_hooks.specs.Exact as exacts;

use ax_types::{Event, WatchKind};

/// A stored function that says whether a watch shows an event.
pub type Hook = Box<dyn Fn(&Event) -> bool + Send>;

/// The filter of each kind of watch, made by the caller.
#[derive(Drop)]
pub struct Filters {
    all: Hook,
    changes: Hook,
    grants: Hook,
    ghost all_callable: { Hook.IsAlwaysCallable all },
    ghost changes_callable: { Hook.IsAlwaysCallable changes },
    ghost grants_callable: { Hook.IsAlwaysCallable grants },
    ghost all_exact: { exacts.AnswersBy (Hook.post all) watch.All },
    ghost changes_exact: { exacts.AnswersBy (Hook.post changes) watch.Changes },
    ghost grants_exact: { exacts.AnswersBy (Hook.post grants) watch.Grants },
}

impl Filters {
    /// The filters, each of which answers exactly what its kind of watch holds.
    pub fn new(all: Hook, changes: Hook, grants: Hook) -> Filters
        requires all_callable { Hook.IsAlwaysCallable all }
        requires changes_callable { Hook.IsAlwaysCallable changes }
        requires grants_callable { Hook.IsAlwaysCallable grants }
        requires all_exact { exacts.AnswersBy (Hook.post all) watch.All }
        requires changes_exact { exacts.AnswersBy (Hook.post changes) watch.Changes }
        requires grants_exact { exacts.AnswersBy (Hook.post grants) watch.Grants }
    {
        Filters {
            all,
            changes,
            grants,
        }
    }

    /// Whether a watch of the kind shows the event.
    pub fn holds(&self, kind: WatchKind, event: &Event) -> bool
        ensures { result ≡ claims.holds kind event.now }
    {
        match kind {
            WatchKind::All => (self.all)(event),
            WatchKind::Changes => (self.changes)(event),
            WatchKind::Grants => (self.grants)(event),
        }
    }
}
