// The types of expressions, and what these write into them.
use crate::readings::{alternatives, begin, read, read_pattern};
use crate::stops::{Stop, code};
use crate::trees::{tree, type_text};
use sqlite_items::Items;
use std::alloc::{AllocError, Global};
use sx_atoms::Code;
use sx_kinds::{Expr, Origin, Pattern, Ty, TyKind, VarType, VarTypes};
use sx_names::Names;
use sx_types::{settle, settle_pattern, type_of};

// An element of the document.
const ELEMENT: Ty = Ty {
    kind: TyKind::Element,
    at_most_one: true,
    origin: Origin::Source,
};

// A node of a copied tree.
const COPIED: Ty = Ty {
    kind: TyKind::Node,
    at_most_one: true,
    origin: Origin::One,
};

// The current group: attributes of one copied tree.
const GROUP: Ty = Ty {
    kind: TyKind::Attribute,
    at_most_one: false,
    origin: Origin::One,
};

// The variables in scope: their kinds, whether each is at most one item, and their origins. Of two with one name the later
// one counts.
const VARIABLES: &[(&str, TyKind, bool, Origin)] = &[
    ("source", TyKind::Element, false, Origin::Source),
    ("one", TyKind::Element, false, Origin::One),
    ("other", TyKind::Element, false, Origin::One),
    ("single", TyKind::Element, true, Origin::One),
    ("separate", TyKind::Element, false, Origin::Separate),
    ("forest", TyKind::Element, false, Origin::Forest),
    ("any", TyKind::Any, false, Origin::Source),
    ("free", TyKind::Element, true, Origin::Source),
    ("free", TyKind::Boolean, true, Origin::Source),
];

fn variables(alloc: Global, names: &mut Names) -> Result<VarTypes, AllocError> {
    let mut vars = Items::new(alloc);
    for (name, kind, at_most_one, origin) in VARIABLES {
        let ty = Ty {
            kind: *kind,
            at_most_one: *at_most_one,
            origin: *origin,
        };
        let name = names.intern("", name)?;
        vars.push(VarType { name, ty })?;
    }
    Ok(vars)
}

// A type, or the code in place of one.
fn typed(alloc: Global, answer: Result<Ty, Code>) -> Result<String, AllocError> {
    match answer {
        Ok(ty) => type_text(alloc, &ty),
        Err(failure) => code(alloc, failure),
    }
}

// A tree, and the code that it has, if any.
fn with_code(alloc: Global, tree: String, answer: Result<(), Code>) -> Result<String, AllocError> {
    match answer {
        Ok(()) => Ok(tree),
        Err(failure) => {
            let code = code(alloc, failure)?;
            format!(in alloc; "{tree} {code}")
        }
    }
}

// Settles an expression. The answer is its tree then, and its code.
fn settled(
    alloc: Global,
    e: &mut Expr,
    context: &Ty,
    names: &mut Names,
) -> Result<String, AllocError> {
    let vars = variables(alloc, names)?;
    let answer = settle(alloc, e, context, &GROUP, &vars)?;
    with_code(alloc, tree(alloc, e, names)?, answer)
}

// Settles a pattern. The answer is its alternatives then, and its code.
fn settled_pattern(
    alloc: Global,
    pattern: &mut Pattern,
    names: &mut Names,
) -> Result<String, AllocError> {
    let vars = variables(alloc, names)?;
    let answer = settle_pattern(alloc, pattern, &ELEMENT, &GROUP, &vars)?;
    with_code(alloc, alternatives(alloc, pattern, names)?, answer)
}

// The type of an expression in a context when it is settled, behind that which it has before where the two are to be told.
fn types_of(
    alloc: Global,
    e: &mut Expr,
    context: &Ty,
    names: &mut Names,
    both: bool,
) -> Result<String, AllocError> {
    let before = typed(alloc, type_of(e, context))?;
    settled(alloc, e, context, names)?;
    let after = typed(alloc, type_of(e, context))?;
    if both && before.as_str() != after.as_str() {
        return format!(in alloc; "{before}, and then {after}");
    }
    Ok(after)
}

// The type of an expression in a context; that before it is settled, too, where it is another one and no variable has to have
// a type for it.
fn type_in(alloc: Global, text: &str, context: &Ty, names: &mut Names) -> Result<String, Stop> {
    let mut e = read(alloc, text, names, &mut begin())?;
    let both = text.split_once('$').is_none();
    Ok(types_of(alloc, &mut e, context, names, both)?)
}

/// `type`: the type of an expression whose context item is an element of the document.
pub fn type_in_document(alloc: Global, text: &str, names: &mut Names) -> Result<String, Stop> {
    type_in(alloc, text, &ELEMENT, names)
}

/// `type-in-copy`: the type of an expression whose context item is a node of a copied tree.
pub fn type_in_copy(alloc: Global, text: &str, names: &mut Names) -> Result<String, Stop> {
    type_in(alloc, text, &COPIED, names)
}

// An expression as a tree when it is settled, and when it is settled once more where that is another one.
fn twice_settled(alloc: Global, e: &mut Expr, names: &mut Names) -> Result<String, AllocError> {
    let once = settled(alloc, e, &ELEMENT, names)?;
    let twice = settled(alloc, e, &ELEMENT, names)?;
    if once.as_str() != twice.as_str() {
        return format!(in alloc; "{once}, and then {twice}");
    }
    Ok(once)
}

/// `settle`: an expression as a tree when it is settled.
pub fn settle_twice(alloc: Global, text: &str, names: &mut Names) -> Result<String, Stop> {
    let mut e = read(alloc, text, names, &mut begin())?;
    Ok(twice_settled(alloc, &mut e, names)?)
}

/// `settle-pattern`: a pattern as its alternatives when it is settled.
pub fn settle_in_pattern(alloc: Global, text: &str, names: &mut Names) -> Result<String, Stop> {
    let mut pattern = read_pattern(alloc, text, names, &mut begin())?;
    Ok(settled_pattern(alloc, &mut pattern, names)?)
}
