//! Salvages as theorems.
#![tactic(auto)]

ghost use Rattle.std.specs.Prelude.{◌≡◌, Ok, Err};
ghost use Rattle.ax_types.specs.declared.statuses.Status.TheVariants as status;
ghost use Rattle.spec_report.specs.Items as report_items;
ghost use Rattle.spec_salvage.specs.Salvage as salvages;
ghost use Rattle.rows_salvage.specs.LeftStores as left_stores;

/// The leader was lost after it committed a call, and the next one answered it; then the third store is lost.
pub fn lost_store_is_made_good()
    ensures { salvages.salvaged 1000 left_stores.third_lost ≡ Ok (report_items.lines_text left_stores.third_lost_lines) }
{}

/// A longer log of an older term is not the newest.
pub fn longer_log_of_an_older_term_is_older()
    ensures { salvages.salvaged 1000 left_stores.longer_older ≡ Ok (report_items.lines_text left_stores.longer_older_lines) }
{}

/// One good store of three is no majority: an empty one and a bad one do not count.
pub fn one_of_three_is_too_few()
    ensures { salvages.salvaged 1000 left_stores.one_of_three ≡ Err (status.NoMajority 1 3) }
{}
