// Expressions.
ghost use Rattle.std.specs.Prelude.{◌≡◌, ◌<◌, ◌≤◌, ◌+◌, ◌*◌, ◌^◌, Bool, false};
ghost use Rattle.std.specs.Prelude.{length, IfOk, IfErr, OnErr, OnOk, MatchResult};
ghost use Rattle.sx_kinds.specs.Formed.{IsFormed};
ghost use Rattle.sx_names.specs.Numbering.{KeepsPlaces};
ghost use Rattle.sx_parse.specs.Answers.{IsRefused};
ghost use Rattle.sx_parse.specs.Answers as answers;
ghost use Rattle.sx_parse.specs.Checks.{takes_arguments};
ghost use Rattle.sx_parse.specs.Parsed.{AnswersExpression, IsSaid, IsSaying};
ghost use Rattle.sx_parse.specs.Understanding.{IsUnderstood};

use crate::building::build;
use crate::faults::{Numbering, SyntaxFault};
use crate::forms::whole;
use crate::meanings::Wording;
use crate::numbering::number;
use crate::numbers::number_names;
use crate::parsing::{Understood, understand};
use std::alloc::{AllocError, Global};
use sx_atoms::Code;
use sx_kinds::Expr;
use sx_names::{Names, Scope};

/// The most bytes of an expression, a pattern or a value template.
const MOST_BYTES: usize = 4096;

/// Whether a text has too many bytes.
pub(crate) fn is_too_long(text: &str) -> bool
    ensures { result ≡ answers.is_too_long text.now }
{
    text.len() > MOST_BYTES
}

/// The fault of a text that has.
pub(crate) fn too_long() -> SyntaxFault
    ensures { result ≡ answers.too_long }
{
    SyntaxFault {
        code: Code::Sxst0001,
        offset: MOST_BYTES as u32,
    }
}

/// What a text that was read says, its constructs without numbers.
pub(crate) fn said(
    alloc: Global,
    scope: &Scope,
    names: &mut Names,
    text: &str,
    understood: &Understood,
    line: u64,
) -> Result<Expr, AllocError>
    requires { (p : Bool)
        × IsUnderstood p scope.now text.now understood.now.tokens understood.now.nodes understood.now.roles }
    ensures says { IfOk result
        (IsSaying scope.now text.now understood.now.tokens understood.now.nodes understood.now.roles line
        names.old names.new) }
    ensures kept { KeepsPlaces names.old names.new }
{
    let numbers = number_names(
        alloc,
        scope,
        names,
        text,
        understood.tokens.as_slice(),
        understood.roles.as_slice(),
    )?;
    let words = Wording {
        text,
        tokens: understood.tokens.as_slice(),
        scope,
        numbers: numbers.as_slice(),
        line,
    };
    let operands = build(alloc, &words, understood.nodes.as_slice())?;
    Ok(whole(&words, operands))
}

/// The expression of a text that was read.
fn numbered(
    alloc: Global,
    scope: &Scope,
    names: &mut Names,
    text: &str,
    understood: &Understood,
    at: &mut Numbering,
) -> Result<Expr, AllocError>
    requires understood { IsUnderstood false scope.now text.now
        understood.now.tokens understood.now.nodes understood.now.roles }
    requires short { length text.now ≤ 4096 }
    requires room { at.old.next < 2 ^ 63 }
    ensures says { IfOk result
        (IsSaid scope.now text.now at.old.line names.old at.old.next names.new at.new.next) }
    ensures formed { IfOk result (IsFormed takes_arguments) }
    ensures grows { OnOk result (at.new.next ≤ at.old.next + 2 * length text.now) }
    ensures failed { OnErr result (at.new ≡ at.old) }
    ensures line { at.new.line ≡ at.old.line }
    ensures kept { KeepsPlaces names.old names.new }
{
    let expr = said(alloc, scope, names, text, understood, at.line)?;
    number(alloc, expr, at)
}

/// The expression that a text is, its constructs numbered and its names added, or why it is none.
pub(crate) fn expression(
    alloc: Global,
    scope: &Scope,
    names: &mut Names,
    text: &str,
    at: &mut Numbering,
) -> Result<Result<Expr, SyntaxFault>, AllocError>
    requires short { length text.now ≤ 4096 }
    requires room { at.old.next < 2 ^ 63 }
    ensures says { IfOk result
        (λ r. MatchResult r
        (IsSaid scope.now text.now at.old.line names.old at.old.next names.new at.new.next)
        (IsRefused false scope.now text.now)) }
    ensures formed { IfOk result (λ r. IfOk r (IsFormed takes_arguments)) }
    ensures grows { OnOk result (at.new.next ≤ at.old.next + 2 * length text.now) }
    ensures refused { IfOk result (λ r. IfErr r (λ fault. (at.new ≡ at.old)
        × (names.new ≡ names.old))) }
    ensures failed { OnErr result (at.new ≡ at.old) }
    ensures line { at.new.line ≡ at.old.line }
    ensures kept { KeepsPlaces names.old names.new }
{
    match understand(alloc, false, scope, text)? {
        Err(fault) => Ok(Err(fault)),
        Ok(understood) => Ok(Ok(numbered(alloc, scope, names, text, &understood, at)?)),
    }
}

/// Reads an expression (XPath 3.1, A.1) of at most 4,096 bytes with at most 64 things open at once, among them each binding of
/// `for`, `let`, `some` and `every` up to the end of what these return, its names in the namespaces
/// that are in force. Its constructs are numbered from `at.next` on in the order in which they are written, an expression before
/// its parts; names that are new are added behind the others. Of several faults the one at the least offset is answered, and then
/// nothing has changed: `SXST0001` for a text that is too long stands before all others; `XPST0003` at the first token at which no
/// reading goes on, at a literal without a value, and at an unknown type; `XPST0081` at a name whose prefix is not bound;
/// `XPST0017` at the name of an unknown function, and at the closing parenthesis of a call with a wrong number of arguments;
/// `SXST0002` at the token that opens too much. After an `AllocError` no number is used up, names may have been added, and each
/// number that was given keeps its name.
pub fn parse_expr(
    alloc: Global,
    s: &str,
    scope: &Scope,
    names: &mut Names,
    at: &mut Numbering,
) -> Result<Result<Expr, SyntaxFault>, AllocError>
    requires { at.old.next < 2 ^ 62 }
    ensures exactly { IfOk result (AnswersExpression scope.now s.now names.old names.new at.old at.new) }
    ensures formed { IfOk result (λ r. IfOk r (IsFormed takes_arguments)) }
    ensures grows { OnOk result (at.new.next ≤ at.old.next + 2 * length s.now) }
    ensures refused { IfOk result (λ r. IfErr r (λ fault. (at.new ≡ at.old)
        × (names.new ≡ names.old))) }
    ensures failed { OnErr result (at.new ≡ at.old) }
    ensures line { at.new.line ≡ at.old.line }
    ensures kept { KeepsPlaces names.old names.new }
{
    if is_too_long(s) {
        return Ok(Err(too_long()));
    }
    expression(alloc, scope, names, s, at)
}
