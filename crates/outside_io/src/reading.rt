// All of the input, up to a limit.
ghost use Rattle.std.specs.Prelude.{◌≡◌, ◌≤◌, vec_len, IfOk, IfErr, IsErrOf};
ghost use Rattle.outside_io.specs.Streams.{one_more, IsReadToEnd};
ghost use Rattle.outside_io.specs.ReadErrors.{IsReadError};

use crate::{Failed, Source};
use std::alloc::{AllocError, Global};

/// How many bytes are asked for at a time.
const BUFFER_BYTES: usize = 65_536;

/// Why the input was not read to its end.
#[derive(Clone, Copy, Debug, PartialEq, Eq)]
pub enum ReadError {
    /// The source failed.
    Fault,
    /// The source gave more bytes than the limit, and had not failed.
    TooLong,
    /// Memory was refused. The source had not failed, and had given no more bytes than the limit.
    NoMemory,
}

impl From<Failed> for ReadError {
    ghost use Rattle.std.specs.Prelude.{◌≡◌};
    ghost use Rattle.outside_io.specs.declared.reading.ReadError.TheVariants.{Fault};

    ghost from_gives = { λ _ e. e ≡ Fault };

    fn from(_: Failed) -> Self {
        ReadError::Fault
    }
}

impl From<AllocError> for ReadError {
    ghost use Rattle.std.specs.Prelude.{◌≡◌};
    ghost use Rattle.outside_io.specs.declared.reading.ReadError.TheVariants.{NoMemory};

    ghost from_gives = { λ _ e. e ≡ NoMemory };

    fn from(_: AllocError) -> Self {
        ReadError::NoMemory
    }
}

/// Reads to the end of input, or to the first fault. After an error the source has lost exactly the bytes that it
/// gave, at most 65,536 more than the limit.
pub fn read_all<S: Source>(
    alloc: Global,
    source: &mut S,
    limit: usize,
) -> Result<Vec<u8>, ReadError>
    ensures all { IfOk result (λ bytes. IsReadToEnd (S.rest source.old) (S.rest source.new) bytes.items) }
    ensures within { IfOk result (λ bytes. vec_len bytes ≤ limit) }
    ensures refused { IfErr result (IsReadError limit (S.rest source.old) (S.rest source.new)) }
    ensures fault_only_where_faulted { IsErrOf result ReadError.Fault → S.faults source.new ≡ one_more (S.faults source.old) }
    ensures quiet { ¬ (IsErrOf result ReadError.Fault) → S.faults source.new ≡ S.faults source.old }
    ensures counted { S.faults source.old ≤ S.faults source.new }
{
    let mut buffer = zeros(alloc, BUFFER_BYTES)?;
    let mut bytes = Vec::new(alloc);
    loop {
        let n = source.read(&mut buffer)?;
        if n == 0 {
            return Ok(bytes);
        }
        if n > limit - bytes.len() {
            return Err(ReadError::TooLong);
        }
        bytes.extend_from_slice(&buffer[..n])?;
    }
}

fn zeros(alloc: Global, len: usize) -> Result<Vec<u8>, AllocError>
    ensures { IfOk result (λ made. vec_len made ≡ len) }
{
    vec![in alloc; 0u8; len]
}
