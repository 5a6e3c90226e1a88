// Where a byte stands.
ghost use Rattle.std.specs.Prelude.{◌≡◌, ◌≤◌, ◌==◌, length};
ghost use Rattle.std.specs.List.{position_or_len};

use memchr::memchr;

/// The first place of a byte among others, or how many those are where it is none of them.
pub(crate) fn place_of(mark: u8, bytes: &[u8]) -> usize
    ensures place { result ≡ position_or_len (λ b. b == mark) bytes.now }
    ensures within { result ≤ length bytes.now }
{
    memchr(mark, bytes).unwrap_or(bytes.len())
}
