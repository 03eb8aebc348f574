ghost use Rattle.std.specs.Prelude.{◌≡◌};
ghost use Rattle.net_wire.specs.declared.unread.Unread.TheVariants as unread;

use ax_types::NoMemory;

/// Why bytes begin with no whole spelling.
#[derive(Clone, Copy)]
pub enum Unread {
    /// They are a strict part of one.
    Part,
    /// No spelling begins as they do.
    Wrong,
    NoMemory,
}

impl From<NoMemory> for Unread {
    ghost from_gives = { λ _ e. e ≡ unread.NoMemory };

    fn from(_error: NoMemory) -> Unread {
        Unread::NoMemory
    }
}
