ghost use Rattle.std.specs.Prelude.{◌≤◌};

use ax_types::Script;
use ax_types::limits::MAX_CALLERS;

/// What has been read of a script: the script so far, the greatest caller, and how many calls each caller has.
#[derive(Drop)]
pub struct Draft {
    pub script: Script,
    pub callers: u8,
    pub totals: [u64; MAX_CALLERS],
    ghost nodes_fit: { script.nodes ≤ 9 },
    ghost clients_fit: { script.clients ≤ 16 },
}
