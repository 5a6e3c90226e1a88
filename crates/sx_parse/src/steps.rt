// The steps of paths.
ghost use Rattle.std.specs.Prelude.{◌≡◌, IfOk};
ghost use Rattle.sx_parse.specs.Grammar.{axis_of as axis_named};
ghost use Rattle.sx_parse.specs.Says as spec;
ghost use Rattle.sx_parse.specs.Wording.{IsCutWording, meaning_of};

use crate::forms::made_of_none;
use crate::functions::uri_or_none;
use crate::lexemes::{KindWord, StepPrefix, Test, Word};
use crate::meanings::Wording;
use std::alloc::{AllocError, Global};
use sx_chars::split_name;
use sx_kinds::{ConstructKind, Expr, ExprForm};
use sx_tree::{Axis, Chars, NodeTest};

/// A step on an axis.
pub(crate) fn step_on(alloc: Global, words: &Wording, axis: Axis, test: NodeTest) -> Expr
    ensures { result ≡ spec.step_expression (meaning_of words.now) axis test }
{
    made_of_none(
        alloc,
        words,
        ConstructKind::Step,
        ExprForm::Step { axis, test },
    )
}

/// A step.
pub(crate) fn step(
    alloc: Global,
    words: &Wording,
    prefix: StepPrefix,
    test: Test,
) -> Result<Expr, AllocError>
    requires { IsCutWording words.now }
    ensures { IfOk result
        (λ e. e ≡ spec.step_expression (meaning_of words.now) (spec.step_axis prefix test)
        (spec.node_test_of (meaning_of words.now) test)) }
{
    Ok(step_on(
        alloc,
        words,
        step_axis(prefix, test),
        node_test(alloc, words, test)?,
    ))
}

// The axis of a step: without one, `child`, or `attribute` for the test of an attribute.
fn step_axis(prefix: StepPrefix, test: Test) -> Axis
    ensures { result ≡ spec.step_axis prefix test }
{
    match prefix {
        StepPrefix::Plain => test_axis(test),
        StepPrefix::At => Axis::Attribute,
        StepPrefix::Axis(word, _) => word_axis(word),
    }
}

fn test_axis(test: Test) -> Axis
    ensures { result ≡ spec.test_axis test }
{
    match test {
        Test::Kind(KindWord::Attribute, _) => Axis::Attribute,
        Test::KindOf(KindWord::Attribute, _, _, _) => Axis::Attribute,
        _ => Axis::Child,
    }
}

fn word_axis(word: Word) -> Axis
    ensures { result ≡ spec.or_child (axis_named word) }
{
    match word {
        Word::Axis(axis) => axis,
        Word::Kind(KindWord::Attribute) => Axis::Attribute,
        _ => Axis::Child,
    }
}

fn node_test(alloc: Global, words: &Wording, test: Test) -> Result<NodeTest, AllocError>
    requires { IsCutWording words.now }
    ensures { IfOk result (λ t. t ≡ spec.node_test_of (meaning_of words.now) test) }
{
    match test {
        Test::Named(_, place) => Ok(NodeTest::Name(words.number_at(place))),
        Test::Any => Ok(NodeTest::AnyName),
        Test::Wild(place) => wild_test(alloc, words, words.spelled(place)),
        Test::Kind(kind, _) => Ok(kind_test(kind)),
        Test::KindOf(kind, _, _, place) => named_kind_test(alloc, words, kind, place),
    }
}

// A wildcard of one part.
fn wild_test(alloc: Global, words: &Wording, text: &str) -> Result<NodeTest, AllocError>
    ensures { IfOk result (λ t. t ≡ spec.wild_test words.now.scope.now text.now) }
{
    let (prefix, local) = split_name(text);
    if prefix == "*" {
        Ok(NodeTest::Local(Chars::copy(alloc, local)?))
    } else {
        Ok(NodeTest::InSpace(Chars::copy(alloc, uri_or_none(words.scope, text))?))
    }
}

// A kind test without a name.
fn kind_test(kind: KindWord) -> NodeTest
    ensures { result ≡ spec.kind_test kind }
{
    match kind {
        KindWord::Node => NodeTest::Node,
        KindWord::Text => NodeTest::Text,
        KindWord::Comment => NodeTest::Comment,
        KindWord::DocumentNode => NodeTest::Document,
        KindWord::ProcessingInstruction => NodeTest::Pi(None),
        KindWord::Element => NodeTest::Element(None),
        KindWord::Attribute => NodeTest::Attribute(None),
    }
}

fn named_kind_test(
    alloc: Global,
    words: &Wording,
    kind: KindWord,
    place: u32,
) -> Result<NodeTest, AllocError>
    requires { IsCutWording words.now }
    ensures { IfOk result (λ t. t ≡ spec.named_kind_test (meaning_of words.now) kind place) }
{
    match kind {
        KindWord::ProcessingInstruction => {
            Ok(NodeTest::Pi(Some(Chars::copy(alloc, words.spelled(place))?)))
        }
        KindWord::Element => Ok(NodeTest::Element(Some(words.number_at(place)))),
        KindWord::Attribute => Ok(NodeTest::Attribute(Some(words.number_at(place)))),
        _ => Ok(kind_test(kind)),
    }
}
