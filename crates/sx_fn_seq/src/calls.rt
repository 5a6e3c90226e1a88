// Calls of functions.
ghost use Rattle.std.specs.Prelude.{◌≡◌, length, IsTrue, IfOk};
ghost use Rattle.sx_fn_seq.specs.Calls as spec;
ghost use Rattle.sx_fn_seq.specs.Calls.{boolean_of, negation_of, seq_call};
ghost use Rattle.sx_fn_seq.specs.Signatures.{is_answerable};

use crate::answers::{copied, copies};
use crate::distinct::distinct;
use crate::extremes::extreme;
use crate::parts::{
    cast_one, exactly_one, head, one_or_more, reversed, selected, tail, zero_or_one,
};
use crate::rounding::{Rounding, rounded};
use crate::sums::{average, total};
use crate::truths::effective_truth;
use sqlite_items::Items;
use std::alloc::{AllocError, Global};
use sx_atoms::answers::{answered, single};
use sx_atoms::arguments::{argument, given};
use sx_atoms::{Args, Atom, AtomType, Atoms, CmpOp, Code, SeqFn};

// The effective boolean value.
fn boolean(items: &[Atom]) -> Result<Atom, Code>
    ensures { result ≡ boolean_of items.now }
{
    Ok(Atom::Bool(effective_truth(items)?))
}

// The other truth value.
fn negation(items: &[Atom]) -> Result<Atom, Code>
    ensures { result ≡ negation_of items.now }
{
    Ok(Atom::Bool(!effective_truth(items)?))
}

// What a function of one argument answers.
fn of_one(alloc: Global, f: SeqFn, x: &[Atom]) -> Result<Result<Atoms, Code>, AllocError>
    ensures { IfOk result (λ answer. answer ≡ spec.of_one f x.now) }
{
    match f {
        SeqFn::Count => Ok(Ok(single(alloc, Atom::Int(x.len() as i128))?)),
        SeqFn::Empty => Ok(Ok(single(alloc, Atom::Bool(x.is_empty()))?)),
        SeqFn::Exists => Ok(Ok(single(alloc, Atom::Bool(!x.is_empty()))?)),
        SeqFn::Boolean => answered(alloc, boolean(x)),
        SeqFn::Not => answered(alloc, negation(x)),
        SeqFn::Sum => answered(alloc, total(x)),
        SeqFn::Avg => average(alloc, x),
        SeqFn::Min => extreme(alloc, CmpOp::Lt, x),
        SeqFn::Max => extreme(alloc, CmpOp::Gt, x),
        SeqFn::Data => Ok(Ok(copies(alloc, x)?)),
        SeqFn::DistinctValues => Ok(Ok(distinct(alloc, x)?)),
        SeqFn::Abs => rounded(alloc, Rounding::Abs, x),
        SeqFn::Floor => rounded(alloc, Rounding::Floor, x),
        SeqFn::Ceiling => rounded(alloc, Rounding::Ceiling, x),
        SeqFn::Round => rounded(alloc, Rounding::Round, x),
        SeqFn::Head => Ok(Ok(copies(alloc, head(x))?)),
        SeqFn::Tail => Ok(Ok(copies(alloc, tail(x))?)),
        SeqFn::Reverse => Ok(Ok(reversed(alloc, x)?)),
        SeqFn::ZeroOrOne => copied(alloc, zero_or_one(x)),
        SeqFn::OneOrMore => copied(alloc, one_or_more(x)),
        SeqFn::ExactlyOne => copied(alloc, exactly_one(x)),
        SeqFn::ToInteger => cast_one(alloc, AtomType::Integer, x),
        SeqFn::ToDecimal => cast_one(alloc, AtomType::Decimal, x),
        SeqFn::ToStr => cast_one(alloc, AtomType::Str, x),
        SeqFn::ToBoolean => cast_one(alloc, AtomType::Boolean, x),
        // The others take another number of arguments, or need more than arguments.
        _ => Ok(Ok(Items::new(alloc))),
    }
}

/// What a function answers (XPath functions and operators 3.1, 2.4, 4.4, 7, 14 and 18.1), or its code: FORG0006 where an item
/// is of a wrong kind, FORG0003 to FORG0005 where there are too many or too few, XPTY0004 where an argument is no number or
/// more than one atom, FOAR0002 where a number is too great, and the codes of casts.
pub fn call_seq(alloc: Global, f: SeqFn, args: &Args) -> Result<Result<Atoms, Code>, AllocError>
    requires { IsTrue (is_answerable f (length args.now)) }
    ensures { IfOk result (λ answer. answer ≡ seq_call f args.now) }
{
    match f {
        SeqFn::True => Ok(Ok(single(alloc, Atom::Bool(true))?)),
        SeqFn::False => Ok(Ok(single(alloc, Atom::Bool(false))?)),
        SeqFn::Subsequence => selected(alloc, argument(args, 0), argument(args, 1), given(args, 2)),
        _ => of_one(alloc, f, argument(args, 0)),
    }
}
