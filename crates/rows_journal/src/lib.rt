//! Worked journals, computed by the definitions.
#![tactic(auto)]

ghost use Rattle.std.specs.Prelude.{◌≡◌, ℕ, [], ◌∷◌, ◌++◌, length, take};
ghost use Rattle.spec_journal.specs.Records as journal_records;
ghost use Rattle.spec_journal.specs.Journal as journals;
ghost use Rattle.rows_journal.specs.JournalRows as journal_rows;

/// A journal of version 1, of 28 bytes.
pub fn old_journal_row()
    ensures size { length journal_rows.old_journal ≡ 28 }
    ensures loaded { journals.loaded_of (journals.journal_of journal_rows.old_journal) ≡ Ok journal_rows.kept_content }
    ensures version { journals.version_of (journals.records_of journal_rows.old_journal) ≡ 1 }
{}

/// What a cluster of one node keeps of its first election, in 45 bytes.
pub fn new_journal_row()
    ensures size { length journal_rows.new_journal ≡ 45 }
    ensures vote { journals.records_bytes (journals.vote_records [] 1 (Some 1)) ≡ journal_rows.count_record ++ journal_rows.vote_record }
    ensures add { journals.records_bytes (journals.add_records (journals.records_of (journal_rows.count_record ++ journal_rows.vote_record)) (journal_rows.blank_entry ∷ [])) ≡ journal_rows.placed_record 1 }
    ensures records { journals.journal_of journal_rows.new_journal ≡ journals.whole_journal (journal_records.Count 0 ∷ journal_records.Vote 1 (Some 1) ∷ journal_records.Placed 1 journal_rows.blank_entry ∷ []) }
    ensures loaded { journals.loaded_of (journals.journal_of journal_rows.new_journal) ≡ Ok journal_rows.kept_content }
    ensures version { journals.version_of (journals.records_of journal_rows.new_journal) ≡ 2 }
{}

/// An upgrade of the journal of version 1 appends 9 bytes.
pub fn upgrade_row()
    ensures appended { journals.records_bytes (journals.upgrade_records (journals.records_of journal_rows.old_journal)) ≡ 0x14 ∷ 0 ∷ 0 ∷ 0 ∷ 0 ∷ 0 ∷ 0 ∷ 0 ∷ 1 ∷ [] }
    ensures loaded { journals.loaded_of (journals.journal_of (journal_rows.old_journal ++ journals.records_bytes (journals.upgrade_records (journals.records_of journal_rows.old_journal)))) ≡ Ok journal_rows.kept_content }
    ensures version { journals.version_of (journals.records_of (journal_rows.old_journal ++ journals.records_bytes (journals.upgrade_records (journals.records_of journal_rows.old_journal)))) ≡ 2 }
    ensures again { journals.upgrade_records (journals.records_of journal_rows.new_journal) ≡ [] }
{}

/// Without its record of the vote the journal has term 0 and one entry.
pub fn unvoted_row()
    ensures { journals.loaded_of (journals.journal_of (journal_rows.count_record ++ journal_rows.placed_record 1)) ≡ Ok (record { term = 0; vote = None; log = journal_rows.blank_entry ∷ [] }) }
{}

/// An entry at place 2 with none before it is no record of the journal.
pub fn misplaced_row()
    ensures { journals.loaded_of (journals.journal_of (journal_rows.count_record ++ journal_rows.vote_record ++ journal_rows.placed_record 2)) ≡ Err 19 }
{}

/// A torn record is left out; one that can no longer become right is bad.
pub fn torn_rows()
    ensures torn { journals.loaded_of (journals.journal_of (take 44 journal_rows.new_journal)) ≡ Ok (record { term = 1; vote = Some 1; log = [] }) }
    ensures rest { length (journals.journal_of (take 44 journal_rows.new_journal)).rest ≡ 25 }
    ensures wrong { journals.loaded_of (journals.journal_of (journal_rows.count_record ++ 0x15 ∷ 1 ∷ [])) ≡ Err 9 }
{}
