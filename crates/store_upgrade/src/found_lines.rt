ghost use Rattle.std.specs.Prelude.{◌≡◌, ◌≤◌, ◌++◌, ◌∷◌, [], length, OnOk, IfOk, string_bytes};
ghost use Rattle.ax_types.specs.declared.limits.TheConstants.{MAX_NODES};
ghost use Rattle.spec_upgrade.specs.Upgrade as upgrades;
ghost use Rattle.store_upgrade.specs.UpgradedStores as upgraded;

use ax_types::{NoMemory, Upgraded};
use std::alloc::Global;

/// Writes the line of a node's store, `store K version V entries N`.
fn write_upgrade_line(text: &mut String, node: u8, found: Upgraded) -> Result<(), NoMemory>
    ensures { OnOk result (string_bytes text.new ≡ string_bytes text.old ++ (upgrades.upgrade_line node found ++ (10 ∷ []))) }
{
    let Upgraded { version, entries } = found;
    Ok(write!(text, "store {node} version {version} entries {entries}\n")?)
}

/// The lines of the stores of nodes 1, 2, 3 and so on, in which this was found.
pub fn found_text(alloc: Global, found: &[Upgraded]) -> Result<String, NoMemory>
    requires within { length found.now ≤ MAX_NODES }
    ensures { IfOk result (λ t. string_bytes t ≡ upgraded.found_text found.now) }
{
    let mut text = String::new(alloc);
    let mut node = 1;
    'stores: for one in found {
        write_upgrade_line(&mut text, node, *one)?;
        node += 1;
    }
    Ok(text)
}
