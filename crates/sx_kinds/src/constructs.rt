// The constructs of templates.
ghost use Rattle.std.specs.Prelude.{◌≡◌, IfOk};

use sqlite_items::Items;
use std::alloc::{AllocError, Global};
use sx_tree::{Chars, Label};

/// What a construct is.
#[derive(Clone, Copy, Debug, PartialEq, Eq)]
pub enum ConstructKind {
    /// a template
    Template,
    /// the pattern of a template
    Pattern,
    /// a literal result element
    Literal,
    /// an `xsl:text`
    Text,
    /// an `xsl:apply-templates`
    ApplyTemplates,
    /// expressions joined by commas
    Comma,
    /// a `for`
    For,
    /// a `let`
    Let,
    /// a `some`
    Some,
    /// an `every`
    Every,
    /// an `if`
    If,
    /// an `or`
    Or,
    /// an `and`
    And,
    /// a comparison
    Compare,
    /// a `||`
    Concat,
    /// a `to`
    Range,
    /// an operator of arithmetic between two operands
    Arith,
    /// a sign
    Unary,
    /// a union
    Union,
    /// a `castable as`
    Castable,
    /// a `cast as`
    Cast,
    /// a `!`
    Map,
    /// a path
    Path,
    /// a step
    Step,
    /// an expression with predicates
    Filter,
    /// a literal
    LiteralValue,
    /// a variable
    Var,
    /// a pair of parentheses without content
    Empty,
    /// a `.`
    Dot,
    /// a `/` by itself
    Root,
    /// a call of a function
    Call,
}

/// A construct: its number, counted from 1 in document order over all constructs of the stylesheet, the line on which its
/// element starts, counted from 1, and what it is. A template comes before its pattern, and this before its body; an
/// instruction comes before its body.
#[derive(Clone, Copy, Debug, PartialEq, Eq)]
pub struct Construct {
    pub number: u64,
    pub line: u64,
    pub kind: ConstructKind,
}

/// A pattern: it matches the elements of one name, which is given by its number.
#[derive(Clone, Copy, Debug, PartialEq, Eq)]
pub struct NamePattern {
    pub construct: Construct,
    pub name: u64,
}

/// What an instruction does.
#[derive(Drop)]
pub enum InstrForm {
    /// makes an element of this name with what its body gives
    Literal { label: Label },
    /// makes a text, which may be empty
    Text(Chars),
    /// applies templates to the children
    ApplyTemplates,
}

/// An instruction. Its body is empty where the form has none.
#[derive(Drop)]
pub struct Instr {
    pub construct: Construct,
    pub form: InstrForm,
    pub body: Body,
}

/// Instructions one behind another.
pub type Body = Items<Instr>;

impl InstrForm {
    /// A copy of what an instruction does.
    pub fn copy(alloc: Global, form: &InstrForm) -> Result<InstrForm, AllocError>
        ensures { IfOk result (λ f. f ≡ form.now) }
    {
        match form {
            InstrForm::Literal { label } => Ok(InstrForm::Literal {
                label: Label::copy(alloc, label)?,
            }),
            InstrForm::Text(text) => Ok(InstrForm::Text(Chars::copy(alloc, text.as_str())?)),
            InstrForm::ApplyTemplates => Ok(InstrForm::ApplyTemplates),
        }
    }
}

impl Instr {
    /// A copy of an instruction.
    #[cycle(copying)]
    pub fn copy(alloc: Global, instr: &Instr) -> Result<Instr, AllocError>
        ensures { IfOk result (λ i. i ≡ instr.now) }
    {
        Ok(Instr {
            construct: instr.construct,
            form: InstrForm::copy(alloc, &instr.form)?,
            body: copy_instrs(alloc, instr.body.as_slice())?,
        })
    }
}

#[cycle(copying)]
fn copy_instrs(alloc: Global, instrs: &[Instr]) -> Result<Body, AllocError>
    ensures { IfOk result (λ copy. copy ≡ instrs.now) }
{
    let mut copy = Items::new(alloc);
    for instr in instrs {
        copy.push(Instr::copy(alloc, instr)?)?;
    }
    Ok(copy)
}

/// A copy of a body.
pub fn copy_body(alloc: Global, body: &Body) -> Result<Body, AllocError>
    ensures { IfOk result (λ copy. copy ≡ body.now) }
{
    copy_instrs(alloc, body.as_slice())
}
