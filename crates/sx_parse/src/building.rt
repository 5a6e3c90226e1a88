// What nodes build.
ghost use Rattle.std.specs.Prelude.{◌≡◌, [], ◌∷◌, false, IfOk, OnOk};
ghost use Rattle.sx_parse.specs.Built as stack_of;
ghost use Rattle.sx_parse.specs.Grammar.{Tree};
ghost use Rattle.sx_parse.specs.Nodes.{nodes as nodes_of};
ghost use Rattle.sx_parse.specs.Says as spec;
ghost use Rattle.sx_parse.specs.Wording.{IsCutWording, meaning_of};

use crate::forms::{deepened, made, made_of_none, made_of_one, made_of_two, two, with_part};
use crate::lexemes::{Binder, Casting, Operator};
use crate::meanings::Wording;
use crate::nodes::Node;
use crate::operands::Operands;
use crate::steps::{step, step_on};
use std::alloc::{AllocError, Global};
use sx_atoms::AtomType;
use sx_kinds::{ArithOp, ConstructKind, Expr, ExprForm, Exprs, Origin, Ty, TyKind};
use sx_tree::{Axis, NodeTest};

/// The type of a variable, and of the current item or group, before types are looked at.
fn any_type() -> Ty
    ensures { result ≡ spec.any_type }
{
    Ty {
        kind: TyKind::Any,
        at_most_one: false,
        origin: Origin::Source,
    }
}

/// Two operands with an operator between.
fn joined_by(
    alloc: Global,
    words: &Wording,
    operator: Operator,
    a: Expr,
    b: Expr,
) -> Result<Expr, AllocError>
    ensures { IfOk result (λ e. e ≡ spec.joined_by (meaning_of words.now) operator a b) }
{
    match operator {
        Operator::Or => made_of_two(alloc, words, ConstructKind::Or, ExprForm::Or, a, b),
        Operator::And => made_of_two(alloc, words, ConstructKind::And, ExprForm::And, a, b),
        Operator::Compare { op, general } => {
            made_of_two(
                alloc,
                words,
                ConstructKind::Compare,
                ExprForm::Compare { op, general },
                a,
                b,
            )
        }
        Operator::Concat => made_of_two(
            alloc,
            words,
            ConstructKind::Concat,
            ExprForm::Concat,
            a,
            b,
        ),
        Operator::Range => made_of_two(alloc, words, ConstructKind::Range, ExprForm::Range, a, b),
        Operator::Arith(op) => made_of_two(
            alloc,
            words,
            ConstructKind::Arith,
            ExprForm::Arith(op),
            a,
            b,
        ),
        Operator::Union => made_of_two(alloc, words, ConstructKind::Union, ExprForm::Union, a, b),
        Operator::Map => made_of_two(alloc, words, ConstructKind::Map, ExprForm::Map, a, b),
        Operator::Slash => path(alloc, words, a, b),
        Operator::DoubleSlash => path(alloc, words, a, deepened(b)),
    }
}

// A path of its front part and what is behind the last `/`.
fn path(alloc: Global, words: &Wording, a: Expr, b: Expr) -> Result<Expr, AllocError>
    ensures { IfOk result
        (λ e. e
        ≡ spec.made (meaning_of words.now) ConstructKind.Path (ExprForm.Path false) (a ∷ b ∷ [])) }
{
    made_of_two(
        alloc,
        words,
        ConstructKind::Path,
        ExprForm::Path { per_item: false },
        a,
        b,
    )
}

fn root(alloc: Global, words: &Wording) -> Expr
    ensures { result ≡ spec.root_of (meaning_of words.now) }
{
    made_of_none(alloc, words, ConstructKind::Root, ExprForm::Root)
}

/// A sign, or a path from the root.
fn begun_by(alloc: Global, words: &Wording, operator: Operator, e: Expr) -> Result<Expr, AllocError>
    ensures { IfOk result (λ b. b ≡ spec.begun_by (meaning_of words.now) operator e) }
{
    match operator {
        Operator::Slash => path(alloc, words, root(alloc, words), e),
        Operator::DoubleSlash => path(alloc, words, root(alloc, words), deepened(e)),
        Operator::Arith(ArithOp::Sub) => {
            made_of_one(
                alloc,
                words,
                ConstructKind::Unary,
                ExprForm::Unary { minus: true },
                e,
            )
        }
        _ => made_of_one(
            alloc,
            words,
            ConstructKind::Unary,
            ExprForm::Unary { minus: false },
            e,
        ),
    }
}

fn cast_by(
    alloc: Global,
    words: &Wording,
    casting: Casting,
    to: AtomType,
    optional: bool,
    e: Expr,
) -> Result<Expr, AllocError>
    ensures { IfOk result (λ c. c ≡ spec.cast_by (meaning_of words.now) casting to optional e) }
{
    match casting {
        Casting::Castable => {
            made_of_one(
                alloc,
                words,
                ConstructKind::Castable,
                ExprForm::Castable { to, optional },
                e,
            )
        }
        Casting::Cast => made_of_one(
            alloc,
            words,
            ConstructKind::Cast,
            ExprForm::Cast { to, optional },
            e,
        ),
    }
}

/// A variable with its value, and what it is used in.
fn bound_by(
    alloc: Global,
    words: &Wording,
    binder: Binder,
    name: u64,
    a: Expr,
    e: Expr,
) -> Result<Expr, AllocError>
    ensures { IfOk result (λ b. b ≡ spec.bound_by (meaning_of words.now) binder name a e) }
{
    match binder {
        Binder::For => made_of_two(
            alloc,
            words,
            ConstructKind::For,
            ExprForm::For { name },
            a,
            e,
        ),
        Binder::Let => made_of_two(
            alloc,
            words,
            ConstructKind::Let,
            ExprForm::Let { name },
            a,
            e,
        ),
        Binder::Some => made_of_two(
            alloc,
            words,
            ConstructKind::Some,
            ExprForm::Some { name },
            a,
            e,
        ),
        Binder::Every => made_of_two(
            alloc,
            words,
            ConstructKind::Every,
            ExprForm::Every { name },
            a,
            e,
        ),
    }
}

/// What is filtered, with one more predicate.
fn filtered(
    alloc: Global,
    words: &Wording,
    more: bool,
    b: Expr,
    e: Expr,
) -> Result<Expr, AllocError>
    ensures { IfOk result (λ f. f ≡ spec.filtered (meaning_of words.now) more b e) }
{
    if more {
        with_part(b, e)
    } else {
        made_of_two(alloc, words, ConstructKind::Filter, ExprForm::Filter, b, e)
    }
}

fn call(words: &Wording, place: u32, arguments: Exprs) -> Expr
    requires { IsCutWording words.now }
    ensures { result ≡ spec.call_of (meaning_of words.now) place arguments }
{
    let function = words.called_function(place);
    made(
        words,
        ConstructKind::Call,
        ExprForm::Call {
            function,
            ty: any_type(),
            accumulator: None,
        },
        arguments,
    )
}

fn choice(
    alloc: Global,
    words: &Wording,
    test: Expr,
    then: Expr,
    otherwise: Expr,
) -> Result<Expr, AllocError>
    ensures { IfOk result
        (λ e. e ≡ spec.made (meaning_of words.now) ConstructKind.If ExprForm.If
        (test ∷ then ∷ otherwise ∷ [])) }
{
    let mut parts = two(alloc, test, then)?;
    parts.push(otherwise)?;
    Ok(made(words, ConstructKind::If, ExprForm::If, parts))
}

fn literal(alloc: Global, words: &Wording, place: u32) -> Result<Expr, AllocError>
    requires cut { IsCutWording words.now }
    requires literal { stack_of.IsLiteralAt (meaning_of words.now) place }
    ensures { IfOk result
        (λ e. e ≡ spec.made (meaning_of words.now) ConstructKind.LiteralValue
        (ExprForm.Literal (spec.literal_atom (meaning_of words.now) place)) []) }
{
    let atom = words.literal_atom(alloc, place)?;
    Ok(made_of_none(
        alloc,
        words,
        ConstructKind::LiteralValue,
        ExprForm::Literal(atom),
    ))
}

fn variable(alloc: Global, words: &Wording, place: u32) -> Expr
    ensures { result ≡ spec.made (meaning_of words.now) ConstructKind.Var
        (ExprForm.Var (spec.number_at (meaning_of words.now) place) spec.any_type) [] }
{
    let name = words.number_at(place);
    let ty = any_type();
    made_of_none(alloc, words, ConstructKind::Var, ExprForm::Var { name, ty })
}

fn put_called(
    alloc: Global,
    words: &Wording,
    place: u32,
    stack: &mut Operands,
) -> Result<(), AllocError>
    requires { IsCutWording words.now }
    ensures { OnOk result (stack.new
        ≡ stack_of.put_node (meaning_of words.now) (Node.Called place) stack.old) }
{
    let arguments = stack.take_list(alloc);
    stack.put(alloc, call(words, place, arguments))
}

fn put_parens(alloc: Global, words: &Wording, stack: &mut Operands) -> Result<(), AllocError>
    ensures { OnOk result (stack.new ≡ stack_of.put_node (meaning_of words.now) Node.Parens stack.old) }
{
    let e = stack.take(alloc, words);
    stack.put(alloc, e)
}

fn put_prefix(
    alloc: Global,
    words: &Wording,
    operator: Operator,
    stack: &mut Operands,
) -> Result<(), AllocError>
    ensures { OnOk result (stack.new
        ≡ stack_of.put_node (meaning_of words.now) (Node.Prefix operator) stack.old) }
{
    let e = stack.take(alloc, words);
    stack.put(alloc, begun_by(alloc, words, operator, e)?)
}

fn put_cast(
    alloc: Global,
    words: &Wording,
    casting: Casting,
    to: u32,
    optional: bool,
    stack: &mut Operands,
) -> Result<(), AllocError>
    requires { IsCutWording words.now }
    ensures { OnOk result (stack.new
        ≡ stack_of.put_node (meaning_of words.now) (Node.Cast casting to optional) stack.old) }
{
    let e = stack.take(alloc, words);
    let named = words.type_at(to);
    stack.put(alloc, cast_by(alloc, words, casting, named, optional, e)?)
}

fn put_filter(
    alloc: Global,
    words: &Wording,
    more: bool,
    stack: &mut Operands,
) -> Result<(), AllocError>
    ensures { OnOk result (stack.new
        ≡ stack_of.put_node (meaning_of words.now) (Node.Filter more) stack.old) }
{
    let predicate = stack.take(alloc, words);
    let base = stack.take(alloc, words);
    stack.put(alloc, filtered(alloc, words, more, base, predicate)?)
}

fn put_comma(alloc: Global, words: &Wording, stack: &mut Operands) -> Result<(), AllocError>
    ensures { OnOk result (stack.new ≡ stack_of.put_node (meaning_of words.now) Node.Comma stack.old) }
{
    let last = stack.take(alloc, words);
    let mut operands = stack.take_list(alloc);
    operands.push(last)?;
    stack.put_list(operands)
}

fn put_binary(
    alloc: Global,
    words: &Wording,
    operator: Operator,
    stack: &mut Operands,
) -> Result<(), AllocError>
    ensures { OnOk result (stack.new
        ≡ stack_of.put_node (meaning_of words.now) (Node.Binary operator) stack.old) }
{
    let b = stack.take(alloc, words);
    let a = stack.take(alloc, words);
    stack.put(alloc, joined_by(alloc, words, operator, a, b)?)
}

fn put_choice(alloc: Global, words: &Wording, stack: &mut Operands) -> Result<(), AllocError>
    ensures { OnOk result (stack.new ≡ stack_of.put_node (meaning_of words.now) Node.Choice stack.old) }
{
    let otherwise = stack.take(alloc, words);
    let then = stack.take(alloc, words);
    let test = stack.take(alloc, words);
    stack.put(alloc, choice(alloc, words, test, then, otherwise)?)
}

fn put_bind(
    alloc: Global,
    words: &Wording,
    binder: Binder,
    place: u32,
    stack: &mut Operands,
) -> Result<(), AllocError>
    ensures { OnOk result (stack.new
        ≡ stack_of.put_node (meaning_of words.now) (Node.Bind binder place) stack.old) }
{
    let e = stack.take(alloc, words);
    let value = stack.take(alloc, words);
    let name = words.number_at(place);
    stack.put(alloc, bound_by(alloc, words, binder, name, value, e)?)
}

/// A node takes its operands, and puts what it makes of them in their place.
fn put(alloc: Global, words: &Wording, node: Node, stack: &mut Operands) -> Result<(), AllocError>
    requires cut { IsCutWording words.now }
    requires literal { stack_of.IsLiteralIn (meaning_of words.now) node }
    ensures { OnOk result (stack.new ≡ stack_of.put_node (meaning_of words.now) node stack.old) }
{
    match node {
        Node::Literal(place) => stack.put(alloc, literal(alloc, words, place)?),
        Node::Dot => stack.put(
            alloc,
            made_of_none(alloc, words, ConstructKind::Dot, ExprForm::Dot),
        ),
        Node::Parent => stack.put(alloc, step_on(alloc, words, Axis::Parent, NodeTest::Node)),
        Node::Root => stack.put(alloc, root(alloc, words)),
        Node::Variable(place) => stack.put(alloc, variable(alloc, words, place)),
        Node::Step(prefix, test) => stack.put(alloc, step(alloc, words, prefix, test)?),
        Node::Empty => stack.put(
            alloc,
            made_of_none(alloc, words, ConstructKind::Empty, ExprForm::Empty),
        ),
        Node::Parens => put_parens(alloc, words, stack),
        Node::Call(place) => stack.put(alloc, call(words, place, Exprs::new(alloc))),
        Node::Called(place) => put_called(alloc, words, place, stack),
        Node::Filter { more } => put_filter(alloc, words, more, stack),
        Node::Comma => put_comma(alloc, words, stack),
        Node::Prefix(operator) => put_prefix(alloc, words, operator, stack),
        Node::Binary(operator) => put_binary(alloc, words, operator, stack),
        Node::Cast {
            casting,
            to,
            optional,
        } => put_cast(alloc, words, casting, to, optional, stack),
        Node::Choice => put_choice(alloc, words, stack),
        Node::Bind(binder, place) => put_bind(alloc, words, binder, place, stack),
    }
}

/// The operands of the derivation whose nodes these are.
pub(crate) fn build(alloc: Global, words: &Wording, nodes: &[Node]) -> Result<Exprs, AllocError>
    requires cut { IsCutWording words.now }
    requires literals { stack_of.AreLiteralsIn (meaning_of words.now) nodes.now }
    ensures { IfOk result
        (λ es. (t : Tree) → nodes.now ≡ nodes_of t → es ≡ spec.operands (meaning_of words.now) t) }
{
    let mut stack = Operands::new(alloc);
    for node in nodes {
        put(alloc, words, *node, &mut stack)?;
    }
    Ok(stack.take_list(alloc))
}
