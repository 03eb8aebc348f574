//! Worked spellings of packets, computed by the definitions.
#![tactic(auto)]

ghost use Rattle.std.specs.Prelude.{◌≡◌, ℕ, ◌≤◌, pos, List as Items, [], ◌∷◌, ◌++◌, length, take, codes};
ghost use Rattle.spec_wire.specs.Spelling as spelling;
ghost use Rattle.rows_reading.specs.ReadingRows as reading_rows;
ghost use Rattle.spec_reading.specs.Packets as packets;

/// A vote of 25 bytes, whose first 24 are none.
pub fn vote_row()
    ensures spelled { spelling.payload_bytes reading_rows.vote ≡ reading_rows.vote_spelled }
    ensures read { packets.payload_read reading_rows.vote_spelled ≡ Some (reading_rows.vote, 25) }
    ensures torn { packets.payload_read (take 24 reading_rows.vote_spelled) ≡ None }
{}

/// A command of 30 bytes.
pub fn command_row()
    ensures spelled { spelling.payload_bytes reading_rows.command_payload ≡ reading_rows.command_spelled }
    ensures read { packets.payload_read reading_rows.command_spelled ≡ Some (reading_rows.command_payload, 30) }
{}

/// The end of a session of 18 bytes; with 2 for its way to end it is none.
pub fn ended_row()
    ensures spelled { spelling.payload_bytes reading_rows.ended_payload ≡ reading_rows.ended_spelled }
    ensures read { packets.payload_read reading_rows.ended_spelled ≡ Some (reading_rows.ended_payload, 18) }
    ensures wrong { packets.payload_read reading_rows.not_ended_spelled ≡ None }
{}
