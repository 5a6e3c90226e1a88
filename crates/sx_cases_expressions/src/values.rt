// The values of expressions without nodes: what the operators and the functions make of atoms.
use crate::readings::{begin, read};
use crate::stops::Stop;
use crate::trees::atom;
use sqlite_items::Items;
use std::alloc::{AllocError, Global};
use sx_atoms::answers::single;
use sx_atoms::{Args, Atom, Atoms, Dec, calculate, cast, castable, compare, signed};
use sx_fn_seq::{call_seq, is_answerable};
use sx_fn_text::{call_text, signature_text};
use sx_kinds::{Expr, ExprForm, Function};
use sx_names::Names;

// The greatest integer that is a decimal.
const WHOLE: i128 = 170_141_183_460_469_231_731_687_303_715;

// Writes what stands behind a `~`: text in single quotes has no type.
fn write_untyped(piece: &str, out: &mut String) -> Result<(), AllocError> {
    let quoted = piece
        .strip_prefix('\'')
        .and_then(|rest| rest.split_once('\''));
    match quoted {
        None => out.push_str(piece),
        Some((text, rest)) => {
            let one = format!(in *out.allocator(); "('{text}' cast as xs:untypedAtomic){rest}")?;
            out.push_str(one.as_str())
        }
    }
}

// The expression that a row's text stands for.
fn spelled(alloc: Global, written: &str) -> Result<String, AllocError> {
    let mut out = String::new(alloc);
    for (i, piece) in written.split('~').enumerate() {
        if i == 0 {
            out.push_str(piece)?;
        } else {
            write_untyped(piece, &mut out)?;
        }
    }
    Ok(out)
}

// A number at the end of a range, by the name of its variable.
fn end_of_range(name: &str) -> Result<Atom, Stop> {
    match name {
        "most" => Ok(Atom::Int(i128::MAX)),
        "least" => Ok(Atom::Int(i128::MIN)),
        "whole" => Ok(Atom::Int(WHOLE)),
        "most-decimal" => Ok(Atom::Dec(Dec(i128::MAX))),
        "least-decimal" => Ok(Atom::Dec(Dec(i128::MIN))),
        _ => Err(Stop::Unfit),
    }
}

fn variable(alloc: Global, name: u64, names: &Names) -> Result<Atoms, Stop> {
    if !names.has(name) {
        return Err(Stop::Unfit);
    }
    Ok(single(alloc, end_of_range(names.local(name))?)?)
}

// The one atom of an operand.
fn operand(parts: &Args, at: usize) -> Result<&Atom, Stop> {
    match parts.get(at) {
        Some(atoms) => match atoms.as_slice() {
            [atom] => Ok(atom),
            _ => Err(Stop::Unfit),
        },
        None => Err(Stop::Unfit),
    }
}

// Atoms one behind another.
fn together(alloc: Global, parts: &Args) -> Result<Atoms, AllocError> {
    let mut all = Items::new(alloc);
    for atoms in parts.as_slice() {
        for atom in atoms.as_slice() {
            all.push(Atom::copy(alloc, atom)?)?;
        }
    }
    Ok(all)
}

fn called(alloc: Global, function: Function, args: &Args) -> Result<Atoms, Stop> {
    match function {
        Function::Text(f) if !args.is_empty() && signature_text(f).allows(args.len()) => {
            Ok(call_text(alloc, f, args)??)
        }
        Function::Seq(f) if is_answerable(f, args.len()) => Ok(call_seq(alloc, f, args)??),
        _ => Err(Stop::Unfit),
    }
}

// What an operator that gives one atom makes of its operands.
fn operated(alloc: Global, form: &ExprForm, parts: &Args) -> Result<Atom, Stop> {
    match form {
        ExprForm::Literal(atom) => Ok(Atom::copy(alloc, atom)?),
        ExprForm::Unary { minus } => Ok(signed(*minus, operand(parts, 0)?)?),
        ExprForm::Arith(op) => Ok(calculate(*op, operand(parts, 0)?, operand(parts, 1)?)?),
        ExprForm::Compare { op, general } => {
            let holds = compare(*op, *general, operand(parts, 0)?, operand(parts, 1)?)?;
            Ok(Atom::Bool(holds))
        }
        ExprForm::Cast { to, .. } => Ok(cast(alloc, operand(parts, 0)?, *to)??),
        ExprForm::Castable { to, .. } => Ok(Atom::Bool(castable(operand(parts, 0)?, *to))),
        _ => Err(Stop::Unfit),
    }
}

fn combined(alloc: Global, form: &ExprForm, parts: &Args, names: &Names) -> Result<Atoms, Stop> {
    match form {
        ExprForm::Empty => Ok(Items::new(alloc)),
        ExprForm::Comma => Ok(together(alloc, parts)?),
        ExprForm::Var { name, .. } => variable(alloc, *name, names),
        ExprForm::Call { function, .. } => called(alloc, *function, parts),
        _ => Ok(single(alloc, operated(alloc, form, parts)?)?),
    }
}

// The values of expressions, in their order.
fn values(alloc: Global, parts: &[Expr], names: &Names) -> Result<Args, Stop> {
    let mut all = Items::new(alloc);
    for part in parts {
        let of_parts = values(alloc, part.parts.as_slice(), names)?;
        all.push(combined(alloc, &part.form, &of_parts, names)?)?;
    }
    Ok(all)
}

/// An expression, with the values of its parts.
#[derive(Drop)]
pub struct Opened {
    pub form: ExprForm,
    parts: Args,
}

impl Opened {
    /// The one atom of an operand.
    pub fn operand(&self, at: usize) -> Result<&Atom, Stop> {
        operand(&self.parts, at)
    }

    // The value.
    fn value(&self, alloc: Global, names: &Names) -> Result<Atoms, Stop> {
        combined(alloc, &self.form, &self.parts, names)
    }
}

/// Reads an expression, and evaluates its parts.
pub fn open(alloc: Global, text: &str, names: &mut Names) -> Result<Opened, Stop> {
    let spelled = spelled(alloc, text)?;
    let e = read(alloc, spelled.as_str(), names, &mut begin())?;
    let (_, _, form, parts) = e.into_fields();
    let parts = values(alloc, parts.as_slice(), names)?;
    Ok(Opened { form, parts })
}

/// The value of an expression.
pub fn value(alloc: Global, text: &str, names: &mut Names) -> Result<Atoms, Stop> {
    open(alloc, text, names)?.value(alloc, names)
}

/// The values of expressions that commas join, each by itself.
pub fn joined(alloc: Global, text: &str, names: &mut Names) -> Result<Args, Stop> {
    let opened = open(alloc, text, names)?;
    if let ExprForm::Comma = opened.form {
        return Ok(opened.parts);
    }
    let mut one = Items::new(alloc);
    one.push(opened.value(alloc, names)?)?;
    Ok(one)
}

/// Atoms as an expression writes them: in parentheses, but for a single one.
pub fn written_atoms(alloc: Global, atoms: &[Atom]) -> Result<String, AllocError> {
    if let [one] = atoms {
        return atom(alloc, one);
    }
    let mut all = String::from_str(alloc, "(")?;
    for (i, one) in atoms.iter().enumerate() {
        all.push_str(if i == 0 { "" } else { ", " })?;
        all.push_str(atom(alloc, one)?.as_str())?;
    }
    all.push(')')?;
    Ok(all)
}
