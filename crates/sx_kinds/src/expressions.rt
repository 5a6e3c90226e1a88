// The constructs of expressions and patterns.
ghost use Rattle.std.specs.Prelude.{◌≡◌, IfOk};
ghost use Rattle.sx_kinds.specs.declared.expressions.Expr.TheViews.{out-Expr};

use crate::branches::Branches;
use crate::constructs::Construct;
use crate::types::Ty;
use sqlite_items::Items;
use std::alloc::{AllocError, Global};
use sx_atoms::{ArithOp, Atom, AtomType, CmpOp, SeqFn, TextFn};
use sx_tree::{Axis, Chars, NodeTest};

/// A function.
#[derive(Clone, Copy, Debug, PartialEq, Eq)]
pub enum Function {
    Text(TextFn),
    Seq(SeqFn),
}

/// Whether an expression stands behind `//`, and how that is read (XPath 3.1, 3.3.5).
#[derive(Clone, Copy, Debug, PartialEq, Eq)]
pub enum Deep {
    /// it does not
    No,
    /// it does, and the types have not been looked at
    Written,
    /// `//` and the child step are one step on the descendant axis
    Descendant,
    /// `//` is `/descendant-or-self::node()/`
    Parents,
}

/// What an expression is, beside its parts. A name is given by its number.
#[derive(Drop)]
pub enum ExprForm {
    /// two expressions or more: the parts (XPath 3.1, 3.4.1)
    Comma,
    /// a variable, and what it runs over; the parts are that and what is returned (3.9.1)
    For {
        name: u64,
    },
    /// a variable and its value; the parts are that and what is returned (3.9.2)
    Let {
        name: u64,
    },
    /// a variable, and what it runs over; the parts are that and the test (3.11)
    Some {
        name: u64,
    },
    /// a variable, and what it runs over; the parts are that and the test (3.11)
    Every {
        name: u64,
    },
    /// the parts are the test and the two branches (3.10)
    If,
    /// two operands (3.8)
    Or,
    /// two operands (3.8)
    And,
    /// two operands, by a general or a value comparison (3.7)
    Compare {
        op: CmpOp,
        general: bool,
    },
    /// two operands (3.6)
    Concat,
    /// two operands (3.4.1)
    Range,
    /// two operands (3.5)
    Arith(ArithOp),
    /// one operand, with a minus or a plus (3.5)
    Unary {
        minus: bool,
    },
    /// two operands (3.4.2)
    Union,
    /// one operand; optional where an empty one passes (3.12.3)
    Castable {
        to: AtomType,
        optional: bool,
    },
    /// one operand; optional where an empty one passes (3.12.2)
    Cast {
        to: AtomType,
        optional: bool,
    },
    /// two operands (3.14)
    Map,
    /// two operands; `per_item` where a front part gives nodes of separate copies (3.3)
    Path {
        per_item: bool,
    },
    /// the parts are the predicates (3.3.2)
    Step {
        axis: Axis,
        test: NodeTest,
    },
    /// the parts are what is filtered and the predicates (3.2)
    Filter,
    /// a literal (3.1.1)
    Literal(Atom),
    /// a reference to a variable, with the type of that (3.1.2)
    Var {
        name: u64,
        ty: Ty,
    },
    /// nothing (3.1.3)
    Empty,
    /// the context item (3.1.4)
    Dot,
    /// the root of the context item's tree (3.3)
    Root,
    /// a call; the parts are the arguments, and `ty` is the type of the current item or group where one is called for (3.1.5).
    /// `accumulator` is the number of the name of the accumulator that a call of `accumulator-before` or `accumulator-after`
    /// names in its literal: the prefix in there means what it does on the element of the stylesheet, so that the name is known
    /// only where the stylesheet is read. `None` until then, and in any other call (XSLT 3.0, 18.2.6 and 18.2.7)
    Call {
        function: Function,
        ty: Ty,
        accumulator: Option<u64>,
    },
}

/// An expression. Its parts stand in the order in which they are written, predicates last.
pub struct Expr {
    pub construct: Construct,
    /// Whether it stands behind `//`.
    pub deep: Deep,
    pub form: ExprForm,
    pub parts: Exprs,
}

// A loop along the first parts: a chain of operators is as deep as it is long, and need not fit into the stack.
impl Drop for Expr {
    fn drop(mut self) {
        loop {
            let Expr {
                construct: _,
                deep: _,
                form: _,
                mut parts,
            } = self;
            let Some(mut first) = parts.pop() else {
                return;
            };
            while let Some(before) = parts.pop() {
                first = before;
            }
            self = first;
        }
    }
}

/// Expressions one behind another.
pub type Exprs = Branches<Expr>;

/// A pattern. Each alternative is `/` alone, a step or a path; these are not numbered, and their predicates are (XSLT 3.0, 5.5).
#[derive(Drop)]
pub struct Pattern {
    pub construct: Construct,
    pub alternatives: Exprs,
}

/// A part of a value template (XSLT 3.0, 5.6).
#[derive(Drop)]
pub enum AvtPart {
    Fixed(Chars),
    Inner(Expr),
}

/// The parts of a value template, in their order.
pub type AvtParts = Items<AvtPart>;

// A copy of a text, where there is one.
fn copy_text(alloc: Global, text: &Option<Chars>) -> Result<Option<Chars>, AllocError>
    ensures { IfOk result (λ t. t ≡ text.now) }
{
    match text {
        None => Ok(None),
        Some(chars) => Ok(Some(Chars::copy(alloc, chars.as_str())?)),
    }
}

// A copy of a node test.
fn copy_test(alloc: Global, test: &NodeTest) -> Result<NodeTest, AllocError>
    ensures { IfOk result (λ t. t ≡ test.now) }
{
    match test {
        NodeTest::Name(name) => Ok(NodeTest::Name(*name)),
        NodeTest::AnyName => Ok(NodeTest::AnyName),
        NodeTest::InSpace(uri) => Ok(NodeTest::InSpace(Chars::copy(alloc, uri.as_str())?)),
        NodeTest::Local(local) => Ok(NodeTest::Local(Chars::copy(alloc, local.as_str())?)),
        NodeTest::Node => Ok(NodeTest::Node),
        NodeTest::Text => Ok(NodeTest::Text),
        NodeTest::Comment => Ok(NodeTest::Comment),
        NodeTest::Document => Ok(NodeTest::Document),
        NodeTest::Pi(target) => Ok(NodeTest::Pi(copy_text(alloc, target)?)),
        NodeTest::Element(name) => Ok(NodeTest::Element(*name)),
        NodeTest::Attribute(name) => Ok(NodeTest::Attribute(*name)),
    }
}

impl ExprForm {
    /// A copy of what an expression is.
    pub fn copy(alloc: Global, form: &ExprForm) -> Result<ExprForm, AllocError>
        ensures { IfOk result (λ f. f ≡ form.now) }
    {
        match form {
            ExprForm::Comma => Ok(ExprForm::Comma),
            ExprForm::For { name } => Ok(ExprForm::For { name: *name }),
            ExprForm::Let { name } => Ok(ExprForm::Let { name: *name }),
            ExprForm::Some { name } => Ok(ExprForm::Some { name: *name }),
            ExprForm::Every { name } => Ok(ExprForm::Every { name: *name }),
            ExprForm::If => Ok(ExprForm::If),
            ExprForm::Or => Ok(ExprForm::Or),
            ExprForm::And => Ok(ExprForm::And),
            ExprForm::Compare { op, general } => Ok(ExprForm::Compare {
                op: *op,
                general: *general,
            }),
            ExprForm::Concat => Ok(ExprForm::Concat),
            ExprForm::Range => Ok(ExprForm::Range),
            ExprForm::Arith(op) => Ok(ExprForm::Arith(*op)),
            ExprForm::Unary { minus } => Ok(ExprForm::Unary { minus: *minus }),
            ExprForm::Union => Ok(ExprForm::Union),
            ExprForm::Castable { to, optional } => Ok(ExprForm::Castable {
                to: *to,
                optional: *optional,
            }),
            ExprForm::Cast { to, optional } => Ok(ExprForm::Cast {
                to: *to,
                optional: *optional,
            }),
            ExprForm::Map => Ok(ExprForm::Map),
            ExprForm::Path { per_item } => Ok(ExprForm::Path {
                per_item: *per_item,
            }),
            ExprForm::Step { axis, test } => Ok(ExprForm::Step {
                axis: *axis,
                test: copy_test(alloc, test)?,
            }),
            ExprForm::Filter => Ok(ExprForm::Filter),
            ExprForm::Literal(atom) => Ok(ExprForm::Literal(Atom::copy(alloc, atom)?)),
            ExprForm::Var { name, ty } => Ok(ExprForm::Var {
                name: *name,
                ty: *ty,
            }),
            ExprForm::Empty => Ok(ExprForm::Empty),
            ExprForm::Dot => Ok(ExprForm::Dot),
            ExprForm::Root => Ok(ExprForm::Root),
            ExprForm::Call {
                function,
                ty,
                accumulator,
            } => Ok(ExprForm::Call {
                function: *function,
                ty: *ty,
                accumulator: *accumulator,
            }),
        }
    }
}

impl Expr {
    /// The construct of an expression, whether it stands behind `//`, what it is, and its parts.
    pub fn into_fields(self) -> (Construct, Deep, ExprForm, Exprs)
        ensures construct { result.0 ≡ (out-Expr self).construct }
        ensures deep { result.1 ≡ (out-Expr self).deep }
        ensures form { result.2 ≡ (out-Expr self).form }
        ensures parts { result.3 ≡ (out-Expr self).parts }
    {
        let Expr {
            construct,
            deep,
            form,
            parts,
        } = self;
        (construct, deep, form, parts)
    }
}
