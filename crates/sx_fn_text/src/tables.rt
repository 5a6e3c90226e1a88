// What characters become, in a table.
ghost use Rattle.std.specs.Prelude.{◌≡◌, ℕ, ◌==◌, if◌then◌else◌, Some, unwrap_or, IfOk};
ghost use Rattle.std.specs.Prelude.{OnOk};
ghost use Rattle.std.specs.BTreeMap.{get};
ghost use Rattle.std.specs.Ordering.{nat_cmp};
ghost use Rattle.std.specs.Str.{chars};
ghost use Rattle.sx_fn_text.specs.Tables.{Translates};

use std::alloc::{AllocError, Global};
use std::collections::BTreeMap;

/// What characters become that do not stay as they are: another one, or none.
pub type Table = BTreeMap<char, Option<char>>;

// Says what a character becomes, if that is not said so far.
fn add(table: &mut Table, c: char, partner: Option<char>) -> Result<(), AllocError>
    ensures { OnOk result ((d : ℕ) → get nat_cmp table.new d
        ≡ (if d == c then Some (unwrap_or (get nat_cmp table.old d) partner) else get nat_cmp table.old
        d)) }
{
    table.entry(c)?.or_insert(partner);
    Ok(())
}

// A table of what characters become: those in their order, each where it stands first.
fn filled(alloc: Global, from: &[char], to: &[char]) -> Result<Table, AllocError>
    ensures { IfOk result (λ table. Translates table from.now to.now) }
{
    let mut table = BTreeMap::new(alloc);
    for (place, c) in from.iter().enumerate() {
        add(&mut table, *c, to.get(place).copied())?;
    }
    Ok(table)
}

// The characters of a text.
fn characters(alloc: Global, s: &str) -> Result<Vec<char>, AllocError>
    ensures { IfOk result (λ v. v.items ≡ chars s.now) }
{
    s.chars().collect(alloc)
}

/// The table that translates from the characters of m to those of t. It takes a time that grows as their number times its
/// logarithm.
pub fn table_of(alloc: Global, m: &str, t: &str) -> Result<Table, AllocError>
    ensures { IfOk result (λ table. Translates table (chars m.now) (chars t.now)) }
{
    let from = characters(alloc, m)?;
    let to = characters(alloc, t)?;
    filled(alloc, &from, &to)
}

/// What a character becomes.
pub fn partner(table: &Table, c: char) -> Option<char>
    ensures { result ≡ unwrap_or (get nat_cmp table.now c) (Some c) }
{
    match table.get(&c) {
        Some(partner) => *partner,
        None => Some(c),
    }
}
