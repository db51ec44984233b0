//! All bytes of a file are read or written, piece by piece.

ghost use Rattle.std.specs.Prelude.{◌≡◌, ◌+◌, ◌≤◌, ◌++◌, length, take, IfOk, IfSome, OnErr, OnOk};
ghost use Rattle.std.specs.Io.KnownBytes.{Appends, Consumes};
ghost use Rattle.kx_edge.specs.inner.Transfers.{AppendsPrefix};
ghost use Rattle.kx_laws.specs.inner.Cuts.{IsCutAt};
ghost use Rattle.kx_edge.specs.declared.transfers.ReadError.TheVariants.{Memory};

use kx_pages::room_for;
use std::alloc::{AllocError, AllocFailed, Global};
use std::io::{self, ErrorKind, Read, Write};

/// How many bytes of a file one read asks for.
const PIECE: usize = 16384;

/// Why a file was not read: there was no memory for its bytes, or the system gave this cause.
pub(crate) enum ReadError {
    Memory,
    System(io::Error),
}

impl From<AllocError> for ReadError {
    ghost from_gives = { λ _ e. e ≡ Memory };

    fn from(_: AllocError) -> Self {
        ReadError::Memory
    }
}

impl<T: Drop> From<AllocFailed<T>> for ReadError {
    ghost from_gives = { λ _ e. e ≡ Memory };

    fn from(_: AllocFailed<T>) -> Self {
        ReadError::Memory
    }
}

/// Reads the first `most` bytes of a file, or all of it where it is not longer. Room is made at once for as many bytes
/// as the file is said to have: a buffer that grows is moved by the system, and its huge pages are split. Each turn gets
/// at least one byte or ends it.
fn read_most<F: Read>(
    alloc: Global,
    file: &mut F,
    said: usize,
    most: usize,
) -> Result<Vec<u8>, ReadError>
    ensures within { IfOk result (λ bytes. length bytes.items ≤ most) }

    // Where a reader's bytes are known, as those of one over memory are, these are the first of them.
    ensures first { IfOk result
        (λ bytes. IfSome (F.remaining file.old) (λ all. bytes.items ≡ take most all)) }
    ensures rest { IfOk result
        (λ bytes. Consumes (F.remaining file.old) (F.remaining file.new) bytes.items) }
{
    let mut bytes = Vec::new(alloc);
    bytes.reserve_exact(room_for(said.min(most)))?;
    let mut piece = [0u8; PIECE];
    while bytes.len() < most {
        let want = (most - bytes.len()).min(PIECE);
        match file.read(&mut piece[..want]) {
            Ok(0) => return Ok(bytes),
            Ok(count) => bytes.extend_from_slice(&piece[..count])?,
            Err(cause) => return Err(ReadError::System(cause)),
        }
    }
    Ok(bytes)
}

/// Reads as `read_most` does, the first `at` bytes into a buffer of their own.
pub(crate) fn read_apart<F: Read>(
    alloc: Global,
    file: &mut F,
    said: usize,
    at: usize,
    most: usize,
) -> Result<(Vec<u8>, Vec<u8>), ReadError>
    ensures apart { IfOk result (λ r. IsCutAt at r.0.items r.1.items) }
    ensures within { IfOk result (λ r. length r.0.items + length r.1.items ≤ most) }
    ensures first { IfOk result
        (λ r. IfSome (F.remaining file.old) (λ all. r.0.items ++ r.1.items ≡ take most all)) }
{
    let front = read_most(alloc, file, said, at.min(most))?;
    if front.len() < at {
        return Ok((front, Vec::new(alloc)));
    }
    let rest = read_most(alloc, file, said.saturating_sub(at), most - at)?;
    Ok((front, rest))
}

/// Writes all of the bytes. A write that takes nothing of a piece that is not empty is a failure.
pub(crate) fn write_all<W: Write>(file: &mut W, bytes: &[u8]) -> io::Result<()>
    // Where a writer's bytes are known, as those of one over memory are, they grow by these.
    ensures whole { OnOk result (Appends (W.contents file.old) (W.contents file.new) bytes.now) }
    ensures prefix { OnErr result
        (AppendsPrefix (W.contents file.old) (W.contents file.new) bytes.now) }
{
    let mut rest = bytes;
    while !rest.is_empty() {
        match file.write(rest) {
            Ok(0) => return Err(io::Error::from(ErrorKind::WriteZero)),
            Err(cause) => return Err(cause),
            Ok(count) => rest = rest.split_at(count).1,
        }
    }
    Ok(())
}
