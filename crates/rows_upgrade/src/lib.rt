//! Upgrades of nine journals as theorems.
#![tactic(auto)]

ghost use Rattle.std.specs.Prelude.{◌≡◌, Ok, Err};
ghost use Rattle.ax_types.specs.declared.statuses.Status.TheVariants as status;
ghost use Rattle.spec_report.specs.Items as report_items;
ghost use Rattle.spec_upgrade.specs.Upgrade as upgrades;
ghost use Rattle.rows_upgrade.specs.NineJournals as nine_journals;

/// The first of nine journals is of version 1, and the others are empty.
pub fn old_journal_is_upgraded()
    ensures { upgrades.upgrade_text (nine_journals.first_is nine_journals.old) ≡ Ok (report_items.lines_text (nine_journals.first_line_is nine_journals.old_line)) }
{}

/// The same journals once more: the first is of version 2.
pub fn upgraded_journal_stays()
    ensures { upgrades.upgrade_text (nine_journals.first_is nine_journals.new) ≡ Ok (report_items.lines_text (nine_journals.first_line_is nine_journals.new_line)) }
{}

/// Bytes that are no journal are told by their node and their offset.
pub fn no_journal_is_bad()
    ensures { upgrades.upgrade_text (nine_journals.first_is nine_journals.bad) ≡ Err (status.StoreBad 1 9) }
{}
