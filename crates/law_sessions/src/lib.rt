//! The laws of the session state: over every list of entries, its acts are a lawful history in which each command takes effect once,
//! and it tells what the plain book of that history tells.
#![tactic(auto)]

ghost use Rattle.law_sessions.specs.Acts as laws;
ghost use Rattle.law_sessions.specs.Folds as folds;
ghost use Rattle.law_sessions.specs.Keeping as keeping;

/// Where times never fall, the acts of the entries are a lawful history.
pub fn acts_are_lawful()
    ensures { laws.ActsAreLawful }
{}

/// Each act stands at its entry's place, with its entry's time, and does what its entry asks for, or nothing.
pub fn acts_are_of_entries()
    ensures { laws.ActsAreOfEntries }
{}

/// The acts of more entries begin with the acts of fewer.
pub fn acts_grow()
    ensures { laws.ActsGrow }
{}

/// The commands of each session take effect once, in the order of their sequences.
pub fn commands_take_effect_once()
    ensures { laws.CommandsTakeEffectOnce }
{}

/// What takes effect of a session is a beginning of what was requested with sequences 1, 2, 3.
pub fn acts_begin_commands()
    ensures { laws.ActsBeginCommands }
{}

/// What the session state tells of sessions, replies, events and ends is what the plain book of the acts tells.
pub fn state_tells_fold()
    ensures state { folds.StateTellsFold }
    ensures entry { folds.EntryGivesFold }
{}

/// Stores of which a majority holds each entry keep the history.
pub fn stores_keep_acts()
    ensures { keeping.StoresKeepActs }
{}

/// A log that begins with some entries begins with their acts.
pub fn logs_begin_with_acts()
    ensures { keeping.LogsBeginWithActs }
{}
