ghost use Rattle.std.specs.Prelude.{◌≡◌, ◌≤◌, ℕ, length, string_bytes, OnOk, IfOk, IfErr};
ghost use Rattle.ax_types.specs.Places as lists;
ghost use Rattle.ax_types.specs.declared.limits.TheConstants.{MAX_NODES};
ghost use Rattle.store_upgrade.specs.UpgradedStores as upgraded;
ghost use Rattle.store_upgrade.specs.declared.upgrading.UpgradeRefused.TheVariants as refused;

use crate::found_lines::found_text;
use ax_types::{List, NoMemory, StoreError, Upgraded};
use std::alloc::Global;
use store_journal::NodeStore;

/// Why stores are not upgraded.
#[derive(Clone, Copy)]
pub enum UpgradeRefused {
    /// The bytes of this node's store are no journal, from the byte at this offset on.
    Bad { node: u8, at: u64 },
    Fault { node: u8 },
    NoMemory,
}

impl From<NoMemory> for UpgradeRefused {
    ghost from_gives = { λ _ e. e ≡ refused.NoMemory };

    fn from(_error: NoMemory) -> UpgradeRefused {
        UpgradeRefused::NoMemory
    }
}

/// Upgrades the store of a node.
fn upgrade_store<S: NodeStore>(store: &mut S, node: u8) -> Result<Upgraded, UpgradeRefused>
    ensures found { IfOk result (upgraded.IsFinding (S.told store.old) (S.version store.old)) }
    ensures upgraded { OnOk result (upgraded.IsUpgradedStore S.told S.version S.needs_load store.old store.new) }
    ensures refused { IfErr result (upgraded.RefusesStore (S.told store.old) (S.faults store.old) (S.faults store.new) node) }
    ensures told { S.told store.new ≡ S.told store.old }
{
    match store.upgrade() {
        Ok(found) => Ok(found),
        Err(StoreError::Bad { at }) => Err(UpgradeRefused::Bad { node, at }),
        Err(StoreError::Failed) => Err(UpgradeRefused::Fault { node }),
        Err(StoreError::NoMemory) => Err(UpgradeRefused::NoMemory),
    }
}

/// Upgrades stores, and answers what was found in each.
fn upgrade_each<S: NodeStore>(
    alloc: Global,
    stores: &mut Vec<S>,
) -> Result<List<Upgraded>, UpgradeRefused>
    requires within { length stores.old.items ≤ MAX_NODES }
    ensures found { IfOk result (upgraded.AreFindings S.told S.version stores.old.items) }
    ensures upgraded { OnOk result (upgraded.AreUpgraded S.told S.version S.needs_load (length stores.old.items) stores.old.items stores.new.items) }
    ensures refused { IfErr result (upgraded.RefusesUpgrade S.told S.version S.needs_load S.faults stores.old.items stores.new.items) }
    ensures told { (k : ℕ) → upgraded.TellsAsBefore S.told (lists.at_place stores.old.items k) (lists.at_place stores.new.items k) }
    ensures size { length stores.new.items ≡ length stores.old.items }
{
    let mut found = List::with_capacity(alloc, stores.len())?;
    'nodes: for index in 0..stores.len() as u8 {
        found.push(upgrade_store(&mut stores[index as usize], index + 1)?)?;
    }
    Ok(found)
}

/// Brings stores to the newest version of their journals, from that of node 1 upwards, each by one upgrade. Answers a line
/// for each, `store K version V entries N`, with the version that was found and the number of entries. The first store whose
/// bytes are no journal, or whose upgrade fails, is told, and the stores behind it are not called.
pub fn upgrade_stores<S: NodeStore>(
    alloc: Global,
    stores: &mut Vec<S>,
) -> Result<String, UpgradeRefused>
    requires within { length stores.old.items ≤ MAX_NODES }
    ensures written { IfOk result (λ text. upgraded.IsUpgradeText S.told S.version stores.old.items (string_bytes text)) }
    ensures upgraded { OnOk result (upgraded.AreUpgraded S.told S.version S.needs_load (length stores.old.items) stores.old.items stores.new.items) }
    ensures refused { IfErr result (upgraded.RefusesUpgrade S.told S.version S.needs_load S.faults stores.old.items stores.new.items) }
    ensures told { (k : ℕ) → upgraded.TellsAsBefore S.told (lists.at_place stores.old.items k) (lists.at_place stores.new.items k) }
    ensures size { length stores.new.items ≡ length stores.old.items }
{
    let found = upgrade_each(alloc, stores)?;
    Ok(found_text(alloc, found.as_slice())?)
}
