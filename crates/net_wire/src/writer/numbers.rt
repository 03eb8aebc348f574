ghost use Rattle.std.specs.Prelude.{◌≡◌, [], ◌∷◌, ◌++◌, OnOk};
ghost use Rattle.spec_wire.specs.NumberBytes as number_bytes;
ghost use Rattle.spec_wire.specs.Ranges as ranges;

use ax_types::{ClientId, NoMemory};

/// Eight bytes, the highest first.
#[tactic(auto, unfolding(spec_wire::specs::NumberBytes::u64_bytes))]
pub fn put_u64(out: &mut Vec<u8>, number: u64) -> Result<(), NoMemory>
    ensures { OnOk result (out.new.items ≡ out.old.items ++ number_bytes.u64_bytes number) }
{
    out.extend_from_slice(&number.to_be_bytes())?;
    Ok(())
}

/// Four bytes.
#[tactic(auto, unfolding(spec_wire::specs::NumberBytes::u32_bytes))]
pub(super) fn put_u32(out: &mut Vec<u8>, number: u32) -> Result<(), NoMemory>
    ensures { OnOk result (out.new.items ≡ out.old.items ++ number_bytes.u32_bytes number) }
{
    out.extend_from_slice(&number.to_be_bytes())?;
    Ok(())
}

/// Eight bytes in two's complement.
#[tactic(auto, unfolding(spec_wire::specs::NumberBytes::i64_bytes))]
pub(super) fn put_i64(out: &mut Vec<u8>, number: i64) -> Result<(), NoMemory>
    ensures { OnOk result (out.new.items ≡ out.old.items ++ number_bytes.i64_bytes number) }
{
    out.extend_from_slice(&number.to_be_bytes())?;
    Ok(())
}

/// One byte, 0 or 1.
pub(super) fn put_truth(out: &mut Vec<u8>, holds: bool) -> Result<(), NoMemory>
    ensures { OnOk result (out.new.items ≡ out.old.items ++ number_bytes.truth_bytes holds) }
{
    out.push(if holds { 1 } else { 0 })?;
    Ok(())
}

/// A kind, and one number.
pub(super) fn put_one_number(out: &mut Vec<u8>, kind: u8, a: u64) -> Result<(), NoMemory>
    ensures { OnOk result (out.new.items ≡ out.old.items ++ kind ∷ number_bytes.u64_bytes a) }
{
    out.push(kind)?;
    put_u64(out, a)
}

/// A kind, and two numbers.
pub(super) fn put_two_numbers(out: &mut Vec<u8>, kind: u8, a: u64, b: u64) -> Result<(), NoMemory>
    ensures { OnOk result (out.new.items ≡ out.old.items ++ kind ∷ number_bytes.u64_bytes a ++ number_bytes.u64_bytes b) }
{
    out.push(kind)?;
    put_u64(out, a)?;
    put_u64(out, b)
}

/// A kind, a client and a number.
pub(super) fn put_client_and_number(
    out: &mut Vec<u8>,
    kind: u8,
    client: ClientId,
    a: u64,
) -> Result<(), NoMemory>
    ensures bytes { OnOk result (out.new.items ≡ out.old.items ++ kind ∷ client ∷ number_bytes.u64_bytes a) }
    ensures fits { OnOk result (ranges.IsClient client) }
{
    out.push(kind)?;
    out.push(client.number())?;
    put_u64(out, a)
}
