// Expressions as text, and the numbers of their constructs.
use sqlite_items::Items;
use std::alloc::{AllocError, Global};
use sx_atoms::{Atom, UNITS, print};
use sx_kinds::{Construct, ConstructKind, Deep, Expr, ExprForm, Function, Origin, Ty, TyKind};
use sx_names::Names;
use sx_tree::NodeTest;

/// The line on which each construct of a row stands.
pub const LINE: u64 = 9;

// The fewest constructs of one kind that are listed as one run.
const FEWEST: u64 = 16;

fn copied(alloc: Global, text: &str) -> Result<String, AllocError> {
    String::from_str(alloc, text)
}

/// A name, with its namespace in braces where it has one.
pub fn name(alloc: Global, number: u64, names: &Names) -> Result<String, AllocError> {
    if !names.has(number) {
        return copied(alloc, "no name");
    }
    let (uri, local) = (names.uri(number), names.local(number));
    if uri.is_empty() {
        return copied(alloc, local);
    }
    format!(in alloc; "{{{uri}}}{local}")
}

fn kind_of_name(
    alloc: Global,
    kind: &str,
    number: Option<u64>,
    names: &Names,
) -> Result<String, AllocError> {
    match number {
        None => format!(in alloc; "{kind}()"),
        Some(number) => {
            let named = name(alloc, number, names)?;
            format!(in alloc; "{kind}({named})")
        }
    }
}

fn instruction(alloc: Global, target: Option<&str>) -> Result<String, AllocError> {
    let target = target.unwrap_or("");
    format!(in alloc; "processing-instruction({target})")
}

fn node_test(alloc: Global, test: &NodeTest, names: &Names) -> Result<String, AllocError> {
    match test {
        NodeTest::Name(number) => name(alloc, *number, names),
        NodeTest::AnyName => copied(alloc, "*"),
        NodeTest::InSpace(uri) => format!(in alloc; "{{{}}}*", uri.as_str()),
        NodeTest::Local(local) => format!(in alloc; "*:{}", local.as_str()),
        NodeTest::Node => copied(alloc, "node()"),
        NodeTest::Text => copied(alloc, "text()"),
        NodeTest::Comment => copied(alloc, "comment()"),
        NodeTest::Document => copied(alloc, "document-node()"),
        NodeTest::Pi(None) => instruction(alloc, None),
        NodeTest::Pi(Some(target)) => instruction(alloc, Some(target.as_str())),
        NodeTest::Element(number) => kind_of_name(alloc, "element", *number, names),
        NodeTest::Attribute(number) => kind_of_name(alloc, "attribute", *number, names),
    }
}

/// An atom as a row writes it. A decimal has a point.
pub fn atom(alloc: Global, atom: &Atom) -> Result<String, AllocError> {
    let text = print(alloc, atom)?;
    let text = text.as_str();
    match atom {
        Atom::Int(_) => copied(alloc, text),
        Atom::Dec(d) if d.0 % UNITS == 0 => format!(in alloc; "{text}.0"),
        Atom::Dec(_) => copied(alloc, text),
        Atom::Str(_) => format!(in alloc; "'{text}'"),
        Atom::Bool(_) => format!(in alloc; "{text}()"),
        Atom::Untyped(_) => format!(in alloc; "~'{text}'"),
    }
}

/// A type: its kind, `?` for at most one item and `*` for any number, and the origin of the nodes.
pub fn type_text(alloc: Global, ty: &Ty) -> Result<String, AllocError> {
    let many = if ty.at_most_one { "?" } else { "*" };
    format!(in alloc; "{:?}{many} {:?}", ty.kind, ty.origin)
}

// What is written of the type of a variable or a call: nothing where it may be anything, as before types are settled.
fn typed(alloc: Global, ty: &Ty) -> Result<String, AllocError> {
    if ty.kind == TyKind::Any && !ty.at_most_one && ty.origin == Origin::Source {
        return copied(alloc, "");
    }
    let text = type_text(alloc, ty)?;
    format!(in alloc; "<{text}>")
}

fn function_name(alloc: Global, function: Function) -> Result<String, AllocError> {
    match function {
        Function::Text(f) => format!(in alloc; "{f:?}"),
        Function::Seq(f) => format!(in alloc; "{f:?}"),
    }
}

// A call: its function, the type of what it calls for, and the accumulator that it names.
fn call(
    alloc: Global,
    function: Function,
    ty: &Ty,
    accumulator: Option<u64>,
    names: &Names,
) -> Result<String, AllocError> {
    let mut text = function_name(alloc, function)?;
    text.push_str(typed(alloc, ty)?.as_str())?;
    if let Some(number) = accumulator {
        text.push_str(" of ")?;
        text.push_str(name(alloc, number, names)?.as_str())?;
    }
    Ok(text)
}

fn mark(optional: bool) -> &'static str {
    if optional { "?" } else { "" }
}

fn operator(alloc: Global, form: &ExprForm) -> Result<String, AllocError> {
    match form {
        ExprForm::Compare { op, general } => {
            let general = if *general { " general" } else { "" };
            format!(in alloc; "{op:?}{general}")
        }
        ExprForm::Arith(op) => format!(in alloc; "{op:?}"),
        ExprForm::Unary { minus } => copied(alloc, if *minus { "minus" } else { "plus" }),
        ExprForm::Castable { to, optional } => format!(in alloc; "{to:?}{}", mark(*optional)),
        ExprForm::Cast { to, optional } => format!(in alloc; "{to:?}{}", mark(*optional)),
        ExprForm::Path { per_item } => copied(alloc, if *per_item { "per item" } else { "" }),
        _ => copied(alloc, ""),
    }
}

// What a form says beside its kind.
fn said(alloc: Global, form: &ExprForm, names: &Names) -> Result<String, AllocError> {
    match form {
        ExprForm::For { name: number } => name(alloc, *number, names),
        ExprForm::Let { name: number } => name(alloc, *number, names),
        ExprForm::Some { name: number } => name(alloc, *number, names),
        ExprForm::Every { name: number } => name(alloc, *number, names),
        ExprForm::Step { axis, test } => {
            let test = node_test(alloc, test, names)?;
            format!(in alloc; "{axis:?}::{test}")
        }
        ExprForm::Literal(value) => atom(alloc, value),
        ExprForm::Var { name: number, ty } => {
            let name = name(alloc, *number, names)?;
            let typed = typed(alloc, ty)?;
            format!(in alloc; "${name}{typed}")
        }
        ExprForm::Empty => copied(alloc, "()"),
        ExprForm::Dot => copied(alloc, "."),
        ExprForm::Root => copied(alloc, "/"),
        ExprForm::Call {
            function,
            ty,
            accumulator,
        } => call(alloc, *function, ty, *accumulator, names),
        _ => operator(alloc, form),
    }
}

// The kind of a construct that stands as in an expression.
fn short(form: &ExprForm) -> Option<ConstructKind> {
    match form {
        ExprForm::Step { .. } => Some(ConstructKind::Step),
        ExprForm::Literal(_) => Some(ConstructKind::LiteralValue),
        ExprForm::Var { .. } => Some(ConstructKind::Var),
        ExprForm::Empty => Some(ConstructKind::Empty),
        ExprForm::Dot => Some(ConstructKind::Dot),
        ExprForm::Root => Some(ConstructKind::Root),
        _ => None,
    }
}

fn is_short(e: &Expr) -> bool {
    short(&e.form) == Some(e.construct.kind)
}

// The number of parts before the predicates.
fn operands(form: &ExprForm) -> usize {
    match form {
        ExprForm::Step { .. } => 0,
        ExprForm::Filter => 1,
        _ => usize::MAX,
    }
}

fn depth(deep: Deep) -> &'static str {
    match deep {
        Deep::No => "",
        Deep::Written => "//",
        Deep::Descendant => "Descendant//",
        Deep::Parents => "Parents//",
    }
}

// Writes what stands before the parts of an expression.
#[inline(never)]
fn write_front(e: &Expr, names: &Names, out: &mut String) -> Result<(), AllocError> {
    let said = said(*out.allocator(), &e.form, names)?;
    out.push_str(depth(e.deep))?;
    if is_short(e) {
        return out.push_str(said.as_str());
    }
    let space = if said.is_empty() { "" } else { " " };
    let head = format!(in *out.allocator(); "({:?}{space}{said}", e.construct.kind)?;
    out.push_str(head.as_str())
}

/// Writes an expression.
pub fn write_expr(e: &Expr, names: &Names, out: &mut String) -> Result<(), AllocError> {
    write_front(e, names, out)?;
    let operands = operands(&e.form);
    for (i, part) in e.parts.as_slice().iter().enumerate() {
        out.push_str(if i < operands { " " } else { "[" })?;
        write_expr(part, names, out)?;
        out.push_str(if i < operands { "" } else { "]" })?;
    }
    out.push_str(if is_short(e) { "" } else { ")" })
}

/// An expression as text.
pub fn tree(alloc: Global, e: &Expr, names: &Names) -> Result<String, AllocError> {
    let mut text = String::new(alloc);
    write_expr(e, names, &mut text)?;
    Ok(text)
}

/// Puts the constructs of an expression behind others, its own before those of its parts.
pub fn list(e: &Expr, found: &mut Items<Construct>) -> Result<(), AllocError> {
    found.push(e.construct)?;
    for part in e.parts.as_slice() {
        list(part, found)?;
    }
    Ok(())
}

// Constructs of one kind and on one line whose numbers follow one another.
#[derive(Clone, Copy)]
struct Run {
    first: Construct,
    count: u64,
}

fn goes_on(run: &Run, next: &Construct) -> bool {
    let (first, number) = (run.first, run.first.number.wrapping_add(run.count));
    next.kind == first.kind && next.line == first.line && next.number == number
}

fn write_one(run: &Run, number: u64, out: &mut String) -> Result<(), AllocError> {
    let space = if out.is_empty() { "" } else { " " };
    let other = if run.first.line == LINE {
        ""
    } else {
        " on another line"
    };
    let text = format!(in *out.allocator(); "{space}{:?} {number}{other}", run.first.kind)?;
    out.push_str(text.as_str())
}

// A long run by its first number and its last one, and each construct of a short one by itself.
fn write_run(run: &Run, out: &mut String) -> Result<(), AllocError> {
    let first = run.first.number;
    if run.count < FEWEST {
        for i in 0..run.count {
            write_one(run, first.wrapping_add(i), out)?;
        }
        return Ok(());
    }
    write_one(run, first, out)?;
    let last = first.wrapping_add(run.count).wrapping_sub(1);
    let text = format!(in *out.allocator(); " to {last}")?;
    out.push_str(text.as_str())
}

/// Writes the kind and the number of each construct.
pub fn write_numbers(found: &[Construct], out: &mut String) -> Result<(), AllocError> {
    let mut run: Option<Run> = None;
    for next in found {
        match run {
            Some(before) if goes_on(&before, next) => {
                run = Some(Run {
                    first: before.first,
                    count: before.count.saturating_add(1),
                });
                continue;
            }
            Some(before) => write_run(&before, out)?,
            None => {}
        }
        run = Some(Run {
            first: *next,
            count: 1,
        });
    }
    match run {
        Some(last) => write_run(&last, out),
        None => Ok(()),
    }
}
