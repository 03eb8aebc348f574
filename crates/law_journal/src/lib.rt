//! Bytes and records of a journal: each is told by the other, and what appends and torn appends leave.
#![tactic(auto)]

ghost use Rattle.std.specs.Prelude.{◌≡◌, ℕ, ◌+◌, ◌-◌, ◌<◌, ◌^◌, List as Items, Option as Maybe, [], ◌∷◌, ◌++◌, length, take};
ghost use Rattle.std.specs.List.{AllByRecursion};
ghost use Rattle.ax_types.specs.declared.entries.Entry.{Entry};
ghost use Rattle.spec_wire.specs.Ranges as ranges;
ghost use Rattle.spec_reading.specs.Reading as reading;
ghost use Rattle.spec_journal.specs.Records as journal_records;
ghost use Rattle.spec_journal.specs.Journal as journals;
ghost use Rattle.law_journal.specs.Appends as appends;

/// Behind records bytes are read record by record: the next one, a part of one, or what can be none. A record is as long
/// as the bytes that it took, and these alone are a journal of it.
pub fn next_record()
    ensures whole { (before : Items journal_records.Record) (bytes : Items ℕ) (r : journal_records.Record) (rest : Items ℕ) → reading.IsBytes bytes → journals.next_at before bytes ≡ Ok (r, rest)
        → journals.journal_behind before bytes ≡ journals.journal_behind (before ++ r ∷ []) rest }
    ensures size { (before : Items journal_records.Record) (bytes : Items ℕ) (r : journal_records.Record) (rest : Items ℕ) → reading.IsBytes bytes → journals.next_at before bytes ≡ Ok (r, rest)
        → journals.whole (before ++ r ∷ []) ≡ journals.whole before + (length bytes - length rest) }
    ensures own { (before : Items journal_records.Record) (bytes : Items ℕ) (r : journal_records.Record) (rest : Items ℕ) → reading.IsBytes bytes → journals.next_at before bytes ≡ Ok (r, rest)
        → journals.journal_behind before (take (length bytes - length rest) bytes) ≡ journals.whole_journal (before ++ r ∷ []) }
    ensures none { (before : Items journal_records.Record) (bytes : Items ℕ) (why : reading.Fault) → journals.next_at before bytes ≡ Err why
        → journals.journal_behind before bytes ≡ record { records = before; rest = bytes; why = why } }
{}

/// The bytes of a journal are those of its records and the rest, and each record may stand where it comes.
pub fn journal_is_spelled()
    ensures bytes { (bytes : Items ℕ) → reading.IsBytes bytes → journals.records_bytes (journals.records_of bytes) ++ (journals.journal_of bytes).rest ≡ bytes }
    ensures stand { (bytes : Items ℕ) → reading.IsBytes bytes → appends.StandBehind [] (journals.records_of bytes) }
{}

/// Records that may stand behind others are whole when they are appended, and what follows is read behind them.
pub fn whole_append()
    ensures all { (before records : Items journal_records.Record) → appends.StandBehind before records → reading.IsBytes (journals.records_bytes records)
        → journals.journal_behind before (journals.records_bytes records) ≡ journals.whole_journal (before ++ records) }
    ensures more { (before records : Items journal_records.Record) (more : Items ℕ) → appends.StandBehind before records → reading.IsBytes (journals.records_bytes records ++ more)
        → journals.journal_behind before (journals.records_bytes records ++ more) ≡ journals.journal_behind (before ++ records) more }
{}

/// Of an append that lacks a byte or more, the first records are whole, and the rest is less than the next one.
pub fn torn_append()
    ensures { (before records : Items journal_records.Record) (front : Items ℕ) (byte : ℕ) (more : Items ℕ) → appends.StandBehind before records
        → reading.IsBytes (journals.records_bytes records) → journals.records_bytes records ≡ front ++ byte ∷ more → appends.IsTornAppend before records (journals.journal_behind before front) }
{}

/// What keeping a term and a vote appends may stand there; all of it keeps them, and a part of it changes nothing.
pub fn vote_append()
    ensures { (before : Items journal_records.Record) (term : ℕ) (vote : Maybe ℕ) → ranges.IsNumber (length (journals.content before).log) → ranges.IsNumber term → journal_records.IsVote vote
        → appends.IsWholeOrNone before (journals.vote_records before term vote) (journals.after_record (journals.content before) (journal_records.Vote term vote)) }
{}

/// What cutting the log appends may stand there; all of it cuts, and a part of it changes nothing.
pub fn cut_append()
    ensures { (before : Items journal_records.Record) (last : ℕ) → ranges.IsNumber (length (journals.content before).log) → ranges.IsNumber last
        → appends.IsWholeOrNone before (journals.cut_records before last) (journals.after_record (journals.content before) (journal_records.Cut last)) }
{}

/// What adding entries appends may stand there; all of it adds all of them, and a part of it the first of them.
pub fn add_append()
    ensures { (before : Items journal_records.Record) (entries : Items Entry) → length (journals.content before).log + length entries < 2 ^ 64 → AllByRecursion ranges.FitsEntry entries
        → appends.IsAdded before (journals.add_records before entries) entries }
{}
