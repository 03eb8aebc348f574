ghost use Rattle.std.specs.Prelude.{◌≡◌, ◌<◌, [], ◌∷◌, ◌++◌, OnOk, length};
ghost use Rattle.spec_wire.specs.NumberBytes as number_bytes;
ghost use Rattle.spec_wire.specs.Ranges as ranges;

use ax_types::{Key, Name, NoMemory, Text};

/// One byte of length, and the letters.
fn put_counted(out: &mut Vec<u8>, letters: &[u8]) -> Result<(), NoMemory>
    requires { length letters.now < 256 }
    ensures { OnOk result (out.new.items ≡ out.old.items ++ number_bytes.counted_bytes letters.now) }
{
    out.push(letters.len() as u8)?;
    out.extend_from_slice(letters)?;
    Ok(())
}

/// A name.
pub(super) fn put_name(out: &mut Vec<u8>, name: &Name) -> Result<(), NoMemory>
    ensures bytes { OnOk result (out.new.items ≡ out.old.items ++ number_bytes.counted_bytes name.now) }
    ensures fits { OnOk result (ranges.IsName name.now) }
{
    put_counted(out, name.as_str().as_bytes())
}

/// A key.
pub(super) fn put_key(out: &mut Vec<u8>, key: &Key) -> Result<(), NoMemory>
    ensures bytes { OnOk result (out.new.items ≡ out.old.items ++ number_bytes.counted_bytes key.now) }
    ensures fits { OnOk result (ranges.IsName key.now) }
{
    put_counted(out, key.as_str().as_bytes())
}

/// A text.
pub(super) fn put_text(out: &mut Vec<u8>, text: &Text) -> Result<(), NoMemory>
    ensures bytes { OnOk result (out.new.items ≡ out.old.items ++ number_bytes.counted_bytes text.now) }
    ensures fits { OnOk result (ranges.IsText text.now) }
{
    put_counted(out, text.as_str().as_bytes())
}

/// A number, and a key.
pub(super) fn put_one_key(out: &mut Vec<u8>, number: u8, key: &Key) -> Result<(), NoMemory>
    ensures bytes { OnOk result (out.new.items ≡ out.old.items ++ number ∷ number_bytes.counted_bytes key.now) }
    ensures fits { OnOk result (ranges.IsName key.now) }
{
    out.push(number)?;
    put_key(out, key)
}

/// A number, and a text.
pub(super) fn put_one_text(out: &mut Vec<u8>, number: u8, text: &Text) -> Result<(), NoMemory>
    ensures bytes { OnOk result (out.new.items ≡ out.old.items ++ number ∷ number_bytes.counted_bytes text.now) }
    ensures fits { OnOk result (ranges.IsText text.now) }
{
    out.push(number)?;
    put_text(out, text)
}

/// A number, a key and a text.
pub(super) fn put_key_and_text(
    out: &mut Vec<u8>,
    number: u8,
    key: &Key,
    text: &Text,
) -> Result<(), NoMemory>
    ensures bytes { OnOk result (out.new.items ≡ out.old.items ++ number ∷ number_bytes.counted_bytes key.now ++ number_bytes.counted_bytes text.now) }
    ensures fits { OnOk result (ranges.IsName key.now × ranges.IsText text.now) }
{
    out.push(number)?;
    put_key(out, key)?;
    put_text(out, text)
}
