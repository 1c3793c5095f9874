ghost use Rattle.std.specs.Prelude.{◌≡◌, true, false, ◌+◌, ◌-◌, ◌^◌, ◌≤◌, ◌<◌, length, take, vec_len, IfOk, OnOk, IfErr, MatchResult};
ghost use Rattle.std.specs.Io.KnownBytes.{Consumes, IsAtEnd};
ghost use Rattle.pnml_source.specs.Causes.{Rose};
ghost use Rattle.pnml_source.specs.Streams.{IsWholeInput, MovesBytes, TakesAtMost, TakesExactly};
ghost use Rattle.pnml_source.specs.declared.reading.ReadAllFault.TheVariants.{NoMemory, ReadFault, TooLong};
ghost use Rattle.pnml_source.specs.declared.reading.ReadPieceFault.TheVariants.{ReadFault as Failed, TooLong as Exceeded};

use crate::source::Source;
use std::alloc::{AllocError, Global};

/// Why [`read_all`] gave no bytes.
#[derive(Clone, Copy, Debug, PartialEq, Eq)]
pub enum ReadAllFault {
    /// The system refused memory.
    NoMemory,
    /// The source failed.
    ReadFault,
    /// The source gave more bytes than the limit.
    TooLong,
}

/// Why [`read_piece`] gave no bytes.
#[derive(Clone, Copy, Debug, PartialEq, Eq)]
pub enum ReadPieceFault {
    /// The source failed.
    ReadFault,
    /// The source gave more bytes than the limit.
    TooLong,
}

impl From<net_values::NoMemory> for ReadAllFault {
    ghost use Rattle.std.specs.Prelude.{◌≡◌};
    ghost use Rattle.pnml_source.specs.declared.reading.ReadAllFault.TheVariants.{NoMemory};

    ghost from_gives = { λ _ e. e ≡ NoMemory };

    fn from(_error: net_values::NoMemory) -> ReadAllFault {
        ReadAllFault::NoMemory
    }
}

impl From<AllocError> for ReadAllFault {
    ghost use Rattle.std.specs.Prelude.{◌≡◌};
    ghost use Rattle.pnml_source.specs.declared.reading.ReadAllFault.TheVariants.{NoMemory};

    ghost from_gives = { λ _ e. e ≡ NoMemory };

    fn from(_error: AllocError) -> ReadAllFault {
        ReadAllFault::NoMemory
    }
}

/// How many bytes one read asks for at most.
pub const READ_SIZE: usize = 65_536;

/// The bytes up to the end of input, of which there are at most `limit`.
///
/// Refusals: `ReadFault` where the source failed, `TooLong` where it gave `limit + 1` bytes, `NoMemory`.
#[tactic(auto, using(crate::proofs::Chained::read_follows))]
pub fn read_all<S: Source>(
    alloc: Global,
    source: &mut S,
    limit: usize,
) -> Result<Vec<u8>, ReadAllFault>
    requires { limit < 2 ^ 63 }

    // The answer is the whole input, which is no longer than the limit.
    ensures whole { IfOk result (λ bytes.
        IsWholeInput (S.left source.old) (S.left source.new) bytes.items) }
    ensures short { IfOk result (λ bytes. length bytes.items ≤ limit) }
    ensures kept { OnOk result (S.faults source.new ≡ S.faults source.old) }

    // A failed read is one that the count tells.
    ensures later { S.faults source.old ≤ S.faults source.new }
    ensures read_fault { IfErr result (λ e. e ≡ ReadFault →
        Rose (S.faults source.old) (S.faults source.new)) }

    // The input is too long where one byte more than the limit was taken.
    ensures too_long { IfErr result (λ e. e ≡ TooLong →
        TakesExactly (S.left source.old) (S.left source.new) (limit + 1)) }
    ensures too_long_kept { IfErr result (λ e. e ≡ TooLong →
        S.faults source.new ≡ S.faults source.old) }

    // Unless the source failed, no more than that byte past the limit was taken.
    ensures taken { MatchResult result
        (λ _. TakesAtMost (S.left source.old) (S.left source.new) (limit + 1))
        (λ e. (e ≡ ReadFault → ⊥) → TakesAtMost (S.left source.old) (S.left source.new) (limit + 1)) }

    // Out of memory represents no other answer.
    ensures no_memory { IfErr result (λ e. e ≡ NoMemory →
        TakesAtMost (S.left source.old) (S.left source.new) limit) }
    ensures no_memory_kept { IfErr result (λ e. e ≡ NoMemory →
        S.faults source.new ≡ S.faults source.old) }
{
    let mut bytes = Vec::new(alloc);
    let mut buffer = read_buffer(alloc)?;
    'pieces: while append_piece(source, buffer.as_mut_slice(), &mut bytes, limit)? {}
    Ok(bytes)
}

// Reads once, and appends what came. It gives whether anything came.
fn append_piece<S: Source>(
    source: &mut S,
    buffer: &mut [u8],
    bytes: &mut Vec<u8>,
    limit: usize,
) -> Result<bool, ReadAllFault>
    requires limit_fits { limit < 2 ^ 63 }
    requires within { vec_len bytes.old ≤ limit }
    requires room { 0 < length buffer.old }
    ensures within { vec_len bytes.new ≤ limit }
    ensures grown { OnOk result
        (MovesBytes (S.left source.old) (S.left source.new) bytes.old.items bytes.new.items) }
    ensures more { IfOk result (λ more. more ≡ true → vec_len bytes.old < vec_len bytes.new) }
    ensures ended { IfOk result (λ more. more ≡ false → IsAtEnd (S.left source.new)) }
    ensures kept { OnOk result (S.faults source.new ≡ S.faults source.old) }
    ensures later { S.faults source.old ≤ S.faults source.new }
    ensures read_fault { IfErr result (λ e. e ≡ ReadFault →
        Rose (S.faults source.old) (S.faults source.new)) }
    ensures too_long { IfErr result (λ e. e ≡ TooLong →
        TakesExactly (S.left source.old) (S.left source.new) (limit + 1 - vec_len bytes.old)) }
    ensures no_memory { IfErr result (λ e. e ≡ NoMemory →
        TakesAtMost (S.left source.old) (S.left source.new) (limit - vec_len bytes.old)) }
    ensures taken { IfErr result (λ e. (e ≡ ReadFault → ⊥) →
        TakesAtMost (S.left source.old) (S.left source.new) (limit + 1 - vec_len bytes.old)) }
    ensures not_read { IfErr result (λ e. (e ≡ ReadFault → ⊥) →
        S.faults source.new ≡ S.faults source.old) }
{
    match read_piece(source, buffer, bytes.len(), limit) {
        Err(ReadPieceFault::ReadFault) => Err(ReadAllFault::ReadFault),
        Err(ReadPieceFault::TooLong) => Err(ReadAllFault::TooLong),
        Ok(count) => {
            bytes.extend_from_slice(&buffer[..count])?;
            Ok(count > 0)
        }
    }
}

/// A buffer for [`read_piece`], of [`READ_SIZE`] bytes.
pub fn read_buffer(alloc: Global) -> Result<Vec<u8>, net_values::NoMemory>
    ensures { IfOk result (λ buffer. vec_len buffer ≡ READ_SIZE) }
{
    Ok(vec![in alloc; 0u8; READ_SIZE]?)
}

/// Reads once, at most what fills the buffer, where so many bytes were read `before` and at most `limit` may be. The
/// bytes are the first ones of the buffer; the answer is their number, which is 0 only at the end of input.
///
/// Errors: `ReadFault` where the source failed, `TooLong` where it gave byte `limit + 1`.
pub fn read_piece<S: Source>(
    source: &mut S,
    buffer: &mut [u8],
    before: usize,
    limit: usize,
) -> Result<usize, ReadPieceFault>
    requires limit_fits { limit < 2 ^ 63 }
    requires within { before ≤ limit }
    requires room { 0 < length buffer.old }

    // The bytes taken lie in the buffer, and only at the end none come.
    ensures fits { IfOk result (λ count. count ≤ length buffer.new) }
    ensures taken { IfOk result (λ count. Consumes (S.left source.old) (S.left source.new) (take count buffer.new)) }
    ensures within { IfOk result (λ count. before + count ≤ limit) }
    ensures ended { IfOk result (λ count. count ≡ 0 → IsAtEnd (S.left source.new)) }

    // A failed read is one that the count tells.
    ensures kept { OnOk result (S.faults source.new ≡ S.faults source.old) }
    ensures later { S.faults source.old ≤ S.faults source.new }
    ensures read_fault { IfErr result (λ e. e ≡ Failed →
        Rose (S.faults source.old) (S.faults source.new)) }

    // The input is too long where one byte more than the limit was taken.
    ensures too_long { IfErr result (λ e. e ≡ Exceeded →
        TakesExactly (S.left source.old) (S.left source.new) (limit + 1 - before)) }
    ensures too_long_kept { IfErr result (λ e. e ≡ Exceeded →
        S.faults source.new ≡ S.faults source.old) }
{
    let wanted = buffer.len().min(limit - before + 1);
    match source.read(&mut buffer[..wanted]) {
        Err(_) => Err(ReadPieceFault::ReadFault),
        Ok(count) if count > limit - before => Err(ReadPieceFault::TooLong),
        Ok(count) => Ok(count),
    }
}
