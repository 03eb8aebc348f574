ghost use Rattle.std.specs.Prelude.{◌≡◌, [], ◌∷◌, ◌++◌, OnOk};
ghost use Rattle.spec_wire.specs.NumberBytes as number_bytes;
ghost use Rattle.spec_wire.specs.OperationBytes as operation_bytes;
ghost use Rattle.spec_wire.specs.Spelling as spelling;
ghost use Rattle.spec_wire.specs.Ranges as ranges;

use super::numbers::{put_client_and_number, put_one_number, put_u64};
use super::operations::put_op;
use super::texts::put_name;
use ax_types::{Body, ClientId, Entry, Name, NoMemory, Op};

/// A kind, a client, and the three numbers of a sign of life.
pub(super) fn put_keep(
    out: &mut Vec<u8>,
    kind: u8,
    client: ClientId,
    session: u64,
    answered: u64,
    heard: u64,
) -> Result<(), NoMemory>
    ensures bytes { OnOk result (out.new.items ≡ out.old.items ++ kind ∷ client ∷ number_bytes.u64_bytes session ++ number_bytes.u64_bytes answered ++ number_bytes.u64_bytes heard) }
    ensures fits { OnOk result (ranges.IsClient client) }
{
    out.push(kind)?;
    out.push(client.number())?;
    put_u64(out, session)?;
    put_u64(out, answered)?;
    put_u64(out, heard)
}

/// A kind, and the fields of a command.
pub(super) fn put_command(
    out: &mut Vec<u8>,
    kind: u8,
    client: ClientId,
    session: u64,
    seq: u64,
    name: &Name,
    op: &Op,
) -> Result<(), NoMemory>
    ensures bytes { OnOk result (out.new.items ≡ out.old.items ++ kind ∷ client ∷ number_bytes.u64_bytes session ++ number_bytes.u64_bytes seq ++ number_bytes.counted_bytes name.now ++ operation_bytes.op_bytes op.now) }
    ensures fits { OnOk result (ranges.IsClient client × ranges.IsName name.now × ranges.FitsOp op.now) }
{
    out.push(kind)?;
    out.push(client.number())?;
    put_u64(out, session)?;
    put_u64(out, seq)?;
    put_name(out, name)?;
    put_op(out, op)
}

/// A body: its number and its fields.
fn put_body(out: &mut Vec<u8>, body: &Body) -> Result<(), NoMemory>
    ensures bytes { OnOk result (out.new.items ≡ out.old.items ++ spelling.body_bytes body.now) }
    ensures fits { OnOk result (ranges.FitsBody body.now) }
{
    match body {
        Body::Blank => Ok(out.push(0)?),
        Body::Register { client, opening } => put_client_and_number(out, 1, *client, *opening),
        Body::Keep {
            client,
            session,
            answered,
            heard,
        } => put_keep(out, 2, *client, *session, *answered, *heard),
        Body::Command {
            client,
            session,
            seq,
            name,
            op,
        } => put_command(out, 3, *client, *session, *seq, name, op),
        Body::Close { client, session } => put_client_and_number(out, 4, *client, *session),
        Body::Expire { session } => put_one_number(out, 5, *session),
    }
}

/// An entry: its term, its time and its body.
pub fn put_entry(out: &mut Vec<u8>, entry: &Entry) -> Result<(), NoMemory>
    ensures bytes { OnOk result (out.new.items ≡ out.old.items ++ spelling.entry_bytes entry.now) }
    ensures fits { OnOk result (ranges.FitsEntry entry.now) }
{
    put_u64(out, entry.term)?;
    put_u64(out, entry.time)?;
    put_body(out, &entry.body)
}
