// What is made of the characters of a text.
ghost use Rattle.std.specs.Prelude.{◌≡◌, ◌≤◌, length, slice_range, IfOk, string_bytes};
ghost use Rattle.std.specs.Str.{chars, encode_utf8_all};
ghost use Rattle.sx_atoms.specs.Positions.{selects, at_positions};
ghost use Rattle.sx_fn_text.specs.Characters as spec;

use crate::tables::{partner, table_of};
use std::alloc::{AllocError, Global};
use sx_atoms::{Positions, Text};

/// How many characters a text has.
pub fn length(s: &str) -> usize
    ensures { result ≡ length (chars s.now) }
{
    s.chars().count()
}

// The characters from one place, counted from 0, up to another one.
fn part(alloc: Global, s: &str, from: usize, to: usize) -> Result<String, AllocError>
    requires { from ≤ to }
    ensures { IfOk result (λ t. string_bytes t ≡ encode_utf8_all (slice_range (chars s.now) from to)) }
{
    s.chars().skip(from).take(to - from).collect(alloc)
}

/// The characters at the positions that are selected.
pub fn cut(alloc: Global, s: &str, span: &Positions) -> Result<Text, AllocError>
    ensures { IfOk result (λ t. t ≡ encode_utf8_all (at_positions (selects span.now) 1 (chars s.now))) }
{
    // There are no more characters than bytes.
    let (from, to) = span.range(s.len());
    Ok(Text::from_string(part(alloc, s, from, to)?))
}

/// A text whose characters are translated from those of m to those of t. It takes a time that grows as the number of
/// characters times the logarithm of those of m.
pub fn translated(alloc: Global, s: &str, m: &str, t: &str) -> Result<Text, AllocError>
    ensures { IfOk result (λ r. r
        ≡ encode_utf8_all (spec.translated (chars m.now) (chars t.now) (chars s.now))) }
{
    let table = table_of(alloc, m, t)?;
    let text: String = s.chars().filter_map(|c| partner(&table, c)).collect(alloc)?;
    Ok(Text::from_string(text))
}
