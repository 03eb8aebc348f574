ghost use Rattle.std.specs.Prelude.{◌≡◌, ◌≢◌, ◌≤◌, ℕ, true, false, length, IfOk, OnOk, IfErr};
ghost use Rattle.ax_types.specs.Loads as loads;
ghost use Rattle.ax_types.specs.Places as lists;
ghost use Rattle.ax_types.specs.declared.limits.TheConstants.{MAX_NODES};
ghost use Rattle.store_opening.specs.Opened as opened;
ghost use Rattle.store_opening.specs.declared.opening.OpenRefused.TheVariants as refused;

use ax_types::{Loaded, NoMemory, StoreError};
use store_journal::NodeStore;

/// What is found in a store.
#[derive(Clone, Copy)]
pub enum Finding {
    Empty,
    /// A term, a vote or an entry, or bytes that are no journal.
    Full,
    /// The load failed.
    Faulty,
}

/// Why stores are not opened.
#[derive(Clone, Copy)]
pub enum OpenRefused {
    NotEmpty { node: u8 },
    Fault { node: u8 },
    NoMemory,
}

impl From<NoMemory> for OpenRefused {
    ghost from_gives = { λ _ e. e ≡ refused.NoMemory };

    fn from(_error: NoMemory) -> OpenRefused {
        OpenRefused::NoMemory
    }
}

/// Whether what was loaded is nothing.
fn is_nothing(loaded: &Loaded) -> bool
    ensures empty { result ≡ true → loaded.now ≡ loads.nothing_loaded }
    ensures full { result ≡ false → loaded.now ≢ loads.nothing_loaded }
{
    loaded.term == 0 && loaded.vote.is_none() && loaded.log.is_empty()
}

/// Loads a store, and says what is found in it.
fn open_store<S: NodeStore>(store: &mut S) -> Result<Finding, NoMemory>
    ensures found { IfOk result (opened.Finds (S.told store.old) (S.faults store.old) (S.faults store.new)) }
    ensures told { S.told store.new ≡ S.told store.old }
    ensures loaded { result ≡ Ok Finding.Empty → S.needs_load store.new ≡ false }
{
    match store.load() {
        Ok(loaded) if is_nothing(&loaded) => Ok(Finding::Empty),
        Ok(_) | Err(StoreError::Bad { .. }) => Ok(Finding::Full),
        Err(StoreError::Failed) => Ok(Finding::Faulty),
        Err(StoreError::NoMemory) => Err(NoMemory),
    }
}

/// Opens the stores of the first nodes, from node 1 upwards, each by one load. They are to be empty: the first one that is not, or
/// whose load fails, is told, and the stores behind it are not called.
pub fn open_stores<S: NodeStore>(stores: &mut Vec<S>, nodes: u8) -> Result<(), OpenRefused>
    requires enough { nodes ≤ length stores.old.items }
    requires within { nodes ≤ MAX_NODES }
    ensures opened { OnOk result (opened.AreOpened S.told S.needs_load nodes stores.old.items stores.new.items) }
    ensures refused { IfErr result (opened.Refuses S.told S.needs_load S.faults nodes stores.old.items stores.new.items) }
    ensures rest { opened.RestStays nodes stores.old.items stores.new.items }
    ensures told { (k : ℕ) → opened.TellSame S.told (lists.at_place stores.old.items k) (lists.at_place stores.new.items k) }
    ensures size { length stores.new.items ≡ length stores.old.items }
{
    'nodes: for index in 0..nodes {
        match open_store(&mut stores[index as usize])? {
            Finding::Empty => {}
            Finding::Full => return Err(OpenRefused::NotEmpty { node: index + 1 }),
            Finding::Faulty => return Err(OpenRefused::Fault { node: index + 1 }),
        }
    }
    Ok(())
}
