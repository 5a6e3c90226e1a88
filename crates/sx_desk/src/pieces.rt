// Bytes and names that a desk in memory hands out or keeps.
ghost use Rattle.std.specs.Prelude.{◌≡◌, ◌+◌, ◌-◌, ◌^◌, ◌<◌, ◌≤◌, [], ◌∷◌};
ghost use Rattle.std.specs.Prelude.{◌++◌, OnOk, length, map, string_bytes};
ghost use Rattle.sx_desk.specs.Pieces.{IsPiece, least_of};

use std::alloc::{AllocError, Global};

/// Copies the next bytes, at most so many, to the front of the buffer, and gives their number.
pub fn copy_piece(bytes: &[u8], taken: usize, most: u32, buf: &mut [u8]) -> usize
    requires { 0 < length buf.old }
    ensures at_most { result ≤ length buf.new }
    ensures piece { IsPiece bytes.now taken buf.new result }
    ensures count { result ≡ least_of most (length buf.new) (length bytes.now - taken) }
    ensures fits { taken + result < 2 ^ 64 }
{
    if taken >= bytes.len() {
        return 0;
    }
    let rest = &bytes[taken..];
    let count = rest.len().min(buf.len()).min(most.max(1) as usize);
    buf[..count].copy_from_slice(&rest[..count]);
    count
}

/// Adds a name.
pub fn keep_name(alloc: Global, names: &mut Vec<String>, name: &str) -> Result<(), AllocError>
    ensures { OnOk result (map string_bytes names.new.items
        ≡ map string_bytes names.old.items ++ name.now ∷ []) }
{
    names.push(String::from_str(alloc, name)?)?;
    Ok(())
}
