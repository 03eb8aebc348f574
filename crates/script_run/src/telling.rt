ghost use Rattle.std.specs.Prelude.{◌≡◌, drop};
ghost use Rattle.script_run.specs.declared.telling.GivenUp.TheVariants as given_up;
ghost use Rattle.script_run.specs.Carrying as carrying;
ghost use Rattle.script_run.specs.RunsInCode as in_code;

use ax_io::{Failed, Sink};
use ax_types::{Item, NoMemory};
use report_text::{Printout, write_items};

/// Why a run is given up.
#[derive(Clone, Copy)]
pub enum GivenUp {
    NoMemory,
    WriteFault,
}

impl From<NoMemory> for GivenUp {
    ghost from_gives = { λ _ e. e ≡ given_up.NoMemory };

    fn from(_error: NoMemory) -> GivenUp {
        GivenUp::NoMemory
    }
}

impl From<Failed> for GivenUp {
    ghost from_gives = { λ _ e. e ≡ given_up.WriteFault };

    fn from(_error: Failed) -> GivenUp {
        GivenUp::WriteFault
    }
}

/// The items from a place on, or none where there are fewer.
pub(crate) fn items_from(items: &[Item], place: usize) -> &[Item]
    ensures { result.now ≡ drop place items.now }
{
    let from = place.min(items.len());
    &items[from..]
}

/// Puts the lines of items, of a text report, in one call of the sink. `text` is where they are made.
pub(crate) fn tell<O: Sink>(
    output: &mut O,
    text: &mut Printout,
    json: bool,
    items: &[Item],
) -> Result<(), GivenUp>
    ensures tells { carrying.Tells json items.now (O.content output.old) (O.content output.new) result }
    ensures sink { in_code.LeavesSink json O.faults output.old output.new result }
{
    if json || items.is_empty() {
        return Ok(());
    }
    text.clear();
    write_items(text, items)?;
    Ok(output.put(text.as_bytes())?)
}
