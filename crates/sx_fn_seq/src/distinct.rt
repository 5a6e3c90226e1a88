// Values that differ.
ghost use Rattle.std.specs.Prelude.{◌≡◌, [], ◌∷◌, ◌++◌, if◌then◌else◌, IfOk, OnOk};
ghost use Rattle.sx_fn_seq.specs.Distinct.{is_among, distinct_of};
ghost use Rattle.sx_fn_seq.specs.Seeing.{Shows, has_value};

use crate::seen::Seen;
use sqlite_items::Items;
use std::alloc::{AllocError, Global};
use sx_atoms::{Atom, Atoms};

// Keeps a copy of an item, if its value was not seen.
fn keep<'a>(
    alloc: Global,
    seen: &mut Seen<'a>,
    kept: &mut Atoms,
    item: &'a Atom,
) -> Result<(), AllocError>
    requires { Shows seen.old (has_value kept.old) }
    ensures kept { OnOk result (kept.new
        ≡ (if is_among kept.old item.now then kept.old else kept.old ++ item.now ∷ [])) }
    ensures seen { OnOk result (Shows seen.new (has_value kept.new)) }
{
    if seen.insert(item)? {
        kept.push(Atom::copy(alloc, item)?)?;
        return Ok(());
    }
    Ok(())
}

/// The items that none before them equals. It takes a time that grows as the number of items times its logarithm.
pub fn distinct(alloc: Global, items: &[Atom]) -> Result<Atoms, AllocError>
    ensures { IfOk result (λ kept. kept ≡ distinct_of items.now) }
{
    let mut seen = Seen::new(alloc);
    let mut kept = Items::new(alloc);
    for item in items {
        keep(alloc, &mut seen, &mut kept, item)?;
    }
    Ok(kept)
}
