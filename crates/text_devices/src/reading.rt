// Reading all that a source has left.

ghost use Rattle.std.specs.Prelude.{◌≡◌, ℕ, ◌+◌, ◌<◌, ◌≤◌, length, IfOk, IsErrOf};
ghost use Rattle.text_devices.specs.Causes.{Rose};
ghost use Rattle.text_devices.specs.Devices.{IsReadFrom};

use super::devices::{PIECE, Source};
use std::alloc::Global;
use thiserror::Error;

/// Why the bytes were not read.
#[derive(Debug, Drop, Error)]
pub enum ReadError {
    #[error("a device failed")]
    Fault,
    #[error("no memory")]
    Memory,
}

/// The bytes that are left, but at most one more than the limit. When memory is wanting is free.
pub fn read_whole<S: Source>(
    alloc: Global,
    source: &mut S,
    limit: usize,
) -> Result<Vec<u8>, ReadError>
    requires { limit < 1000000000 }
    ensures bytes { IfOk result (λ v.
        IsReadFrom (S.left source.old) (S.left source.new) limit v.items) }
    ensures few { IfOk result (λ v. length v.items ≤ limit + 1) }
    ensures later { S.faults source.old ≤ S.faults source.new }
    ensures fault { IsErrOf result ReadError.Fault →
        Rose (S.faults source.old) (S.faults source.new) }
    ensures steady { ¬ (IsErrOf result ReadError.Fault) →
        S.faults source.new ≡ S.faults source.old }
{
    let mut bytes = Vec::new(alloc);
    let mut buffer = [0u8; PIECE];
    while bytes.len() <= limit {
        let room = (limit + 1 - bytes.len()).min(PIECE);
        match source.read(&mut buffer[..room]) {
            Ok(count) => {
                if count == 0 {
                    return Ok(bytes);
                }
                let piece = &buffer[..count];
                if bytes.extend_from_slice(piece).is_err() {
                    return Err(ReadError::Memory);
                }
            }
            Err(_) => return Err(ReadError::Fault),
        }
    }
    Ok(bytes)
}
