ghost use Rattle.std.specs.Prelude.{◌≡◌, ℕ, ◌+◌, ◌<◌, ◌≤◌, List, length, [], Option, OnOk, OnErr, IfOk, IsErrOf, IfSome, vec_len};
ghost use Rattle.ax_io.specs.Count as counts;
ghost use Rattle.ax_io.specs.Content as ax_io_content;
ghost use Rattle.ax_io.specs.ReadError as read_errors;
ghost use Rattle.ax_io.specs.declared.sources.ReadError.TheVariants.{Failed as ReadFailed, NoMemory as WithoutMemory};

use super::Failed;
use ax_types::List;
use std::alloc::{AllocError, Global};
use std::error::Error;
use std::fmt;

/// Where bytes come from.
pub trait Source {
    /// The faults so far, as a count that never falls and stands still at 2^64 - 1.
    ghost faults: { Self → ℕ };

    /// The bytes still to come, where they are told.
    ghost content: { Self → Option (List ℕ) };

    /// Moves some of the bytes still to come to the first places of `buf`, and gives their number.
    /// For a `buf` with places 0 means that no byte is left. After a failure nothing was moved.
    fn read(&mut self, buf: &mut [u8]) -> Result<usize, Failed>
        ensures counted { counts.Counted (faults self.old) (faults self.new) result }
        ensures ok { IfOk result (λ n. ax_io_content.Moves (content self.old) (content self.new) n buf.old buf.new) }
        ensures failed { OnErr result (ax_io_content.MovesNothing (content self.old) (content self.new) buf.old buf.new) };
}

/// Why a source was not read to its end.
#[derive(Clone, Copy, Debug, PartialEq, Eq)]
pub enum ReadError {
    /// A read failed.
    Failed,
    /// Memory was wanted and not had.
    NoMemory,
}

impl fmt::Display for ReadError {
    ghost use Rattle.std.specs.Prelude.{Some};
    ghost use Rattle.ax_io.specs.ReadError as read_errors;

    ghost output = { λ e. Some (read_errors.read_error_text e) };

    fn fmt<W: fmt::Write>(&self, f: &mut fmt::Formatter<W>) -> fmt::Result {
        match self {
            ReadError::Failed => f.write_str("a read failed"),
            ReadError::NoMemory => f.write_str("no memory"),
        }
    }
}

impl Error for ReadError {}

impl From<Failed> for ReadError {
    ghost from_gives = { λ _ e. e ≡ ReadFailed };

    fn from(_error: Failed) -> ReadError {
        ReadError::Failed
    }
}

impl From<AllocError> for ReadError {
    ghost from_gives = { λ _ e. e ≡ WithoutMemory };

    fn from(_error: AllocError) -> ReadError {
        ReadError::NoMemory
    }
}

/// How many bytes one read asks for, at most.
const BLOCK: usize = 65_536;

/// Reads a source to its end, or to `most` bytes where it has more, in blocks of 64 KiB. After an
/// error the bytes that were read are lost.
pub fn read_up_to<S: Source>(
    alloc: Global,
    source: &mut S,
    most: usize,
) -> Result<List<u8>, ReadError>
    ensures count { S.faults source.old ≤ S.faults source.new }
    ensures stands { read_errors.StandsUnlessFailed (S.faults source.old) (S.faults source.new) result }
    ensures failed { IsErrOf result ReadError.Failed → counts.Rose (S.faults source.old) (S.faults source.new) }
    ensures ok { IfOk result (ax_io_content.ReadsFirst (S.content source.old) (S.content source.new) most) }
    ensures lost { OnErr result (ax_io_content.LosesFront (S.content source.old) (S.content source.new)) }
{
    let mut block = zeros(alloc, BLOCK)?;
    let mut bytes = Vec::new(alloc);
    'reads: while bytes.len() < most {
        let left = most - bytes.len();
        let n = read_block(source, block.as_mut_slice(), &mut bytes, left)?;
        if n == 0 {
            return Ok(List::from_vec(bytes));
        }
    }
    Ok(List::from_vec(bytes))
}

/// One read, of at most `left` bytes, into the block, and from there to the end of `bytes`.
fn read_block<S: Source>(
    source: &mut S,
    block: &mut [u8],
    bytes: &mut Vec<u8>,
    left: usize,
) -> Result<usize, ReadError>
    requires left { 0 < left }
    requires block { 0 < length block.old }
    ensures count { S.faults source.old ≤ S.faults source.new }
    ensures stands { read_errors.StandsUnlessFailed (S.faults source.old) (S.faults source.new) result }
    ensures failed { IsErrOf result ReadError.Failed → counts.Rose (S.faults source.old) (S.faults source.new) }
    ensures within { IfOk result (λ n. (n ≤ left) × (vec_len bytes.new ≡ vec_len bytes.old + n)) }
    // The bytes that were read, and then those still to come, stay the same list.
    ensures ok { OnOk result (ax_io_content.prepend_told bytes.old.items (S.content source.old)
        ≡ ax_io_content.prepend_told bytes.new.items (S.content source.new)) }
    ensures ends { IfOk result (λ n. n ≡ 0 → IfSome (S.content source.new) (λ content. content ≡ [])) }
    ensures lost { OnErr result (ax_io_content.LosesFront (S.content source.old) (S.content source.new)) }
{
    let room = left.min(block.len());
    let n = source.read(&mut block[..room])?;
    bytes.extend_from_slice(&block[..n])?;
    Ok(n)
}

/// So many bytes of 0.
fn zeros(alloc: Global, places: usize) -> Result<Vec<u8>, AllocError>
    ensures { IfOk result (λ block. vec_len block ≡ places) }
{
    vec![in alloc; 0u8; places]
}
