//! What is spelled is read again, what is read has one spelling, and a torn spelling is read as a part.
#![tactic(auto)]

ghost use Rattle.std.specs.Prelude.{◌≡◌, ℕ, ◌≤◌, List as Items, [], ◌∷◌, ◌++◌, length, take, IsTrue};
ghost use Rattle.ax_types.specs.declared.entries.Entry.{Entry};
ghost use Rattle.ax_types.specs.declared.packets.Payload.{Payload};
ghost use Rattle.spec_wire.specs.Ranges as ranges;
ghost use Rattle.spec_wire.specs.Spelling as spelling;
ghost use Rattle.spec_reading.specs.Reading as reading;
ghost use Rattle.spec_reading.specs.Packets as packets;

/// What was spelled is read again, whatever follows it.
pub fn spelled_payload_is_read()
    ensures at { (p : Payload) (rest : Items ℕ) → ranges.FitsPayload p → IsTrue (spelling.is_spelled p)
        → packets.payload_at (spelling.payload_bytes p ++ rest) ≡ Ok (p, rest) }
    ensures read { (p : Payload) (rest : Items ℕ) → ranges.FitsPayload p → IsTrue (spelling.is_spelled p)
        → packets.payload_read (spelling.payload_bytes p ++ rest) ≡ Some (p, length (spelling.payload_bytes p)) }
{}

/// What is read has a spelling, and the bytes begin with it.
pub fn read_payload_is_spelled()
    ensures at { (bytes : Items ℕ) (p : Payload) (rest : Items ℕ) → reading.IsBytes bytes → packets.payload_at bytes ≡ Ok (p, rest)
        → (bytes ≡ spelling.payload_bytes p ++ rest) × ranges.FitsPayload p × IsTrue (spelling.is_spelled p) }
    ensures read { (bytes : Items ℕ) (p : Payload) (len : ℕ) → reading.IsBytes bytes → packets.payload_read bytes ≡ Some (p, len)
        → (len ≤ length bytes) × (take len bytes ≡ spelling.payload_bytes p) × ranges.FitsPayload p × IsTrue (spelling.is_spelled p) }
{}

/// The front of a spelling that lacks a byte or more is read as a part.
pub fn torn_payload_is_a_part()
    ensures at { (p : Payload) (front : Items ℕ) (byte : ℕ) (more : Items ℕ) → ranges.FitsPayload p → IsTrue (spelling.is_spelled p)
        → reading.IsBytes (byte ∷ more) → spelling.payload_bytes p ≡ front ++ byte ∷ more → packets.payload_at front ≡ Err reading.Part }
    ensures read { (p : Payload) (front : Items ℕ) (byte : ℕ) (more : Items ℕ) → ranges.FitsPayload p → IsTrue (spelling.is_spelled p)
        → reading.IsBytes (byte ∷ more) → spelling.payload_bytes p ≡ front ++ byte ∷ more → packets.payload_read front ≡ None }
{}

/// No spelling begins another: bytes begin with the spelling of one payload at most.
pub fn payload_has_one_spelling()
    ensures { (p q : Payload) (a b : Items ℕ) → ranges.FitsPayload p → IsTrue (spelling.is_spelled p) → ranges.FitsPayload q → IsTrue (spelling.is_spelled q)
        → spelling.payload_bytes p ++ a ≡ spelling.payload_bytes q ++ b → (p ≡ q) × (a ≡ b) }
{}

/// What was spelled is read again, whatever follows it.
pub fn spelled_entry_is_read()
    ensures at { (e : Entry) (rest : Items ℕ) → ranges.FitsEntry e → packets.entry_at (spelling.entry_bytes e ++ rest) ≡ Ok (e, rest) }
    ensures read { (e : Entry) (rest : Items ℕ) → ranges.FitsEntry e
        → packets.entry_read (spelling.entry_bytes e ++ rest) ≡ Some (e, length (spelling.entry_bytes e)) }
{}

/// What is read has a spelling, and the bytes begin with it.
pub fn read_entry_is_spelled()
    ensures at { (bytes : Items ℕ) (e : Entry) (rest : Items ℕ) → reading.IsBytes bytes → packets.entry_at bytes ≡ Ok (e, rest)
        → (bytes ≡ spelling.entry_bytes e ++ rest) × ranges.FitsEntry e }
    ensures read { (bytes : Items ℕ) (e : Entry) (len : ℕ) → reading.IsBytes bytes → packets.entry_read bytes ≡ Some (e, len)
        → (len ≤ length bytes) × (take len bytes ≡ spelling.entry_bytes e) × ranges.FitsEntry e }
{}

/// The front of a spelling that lacks a byte or more is read as a part.
pub fn torn_entry_is_a_part()
    ensures at { (e : Entry) (front : Items ℕ) (byte : ℕ) (more : Items ℕ) → ranges.FitsEntry e
        → reading.IsBytes (byte ∷ more) → spelling.entry_bytes e ≡ front ++ byte ∷ more → packets.entry_at front ≡ Err reading.Part }
    ensures read { (e : Entry) (front : Items ℕ) (byte : ℕ) (more : Items ℕ) → ranges.FitsEntry e
        → reading.IsBytes (byte ∷ more) → spelling.entry_bytes e ≡ front ++ byte ∷ more → packets.entry_read front ≡ None }
{}

/// No spelling begins another: bytes begin with the spelling of one entry at most.
pub fn entry_has_one_spelling()
    ensures { (d e : Entry) (a b : Items ℕ) → ranges.FitsEntry d → ranges.FitsEntry e
        → spelling.entry_bytes d ++ a ≡ spelling.entry_bytes e ++ b → (d ≡ e) × (a ≡ b) }
{}
