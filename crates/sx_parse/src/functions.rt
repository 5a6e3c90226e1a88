// Functions, types and literals by what is written.
ghost use Rattle.std.specs.Prelude.{◌≡◌, ◌<◌, IfOk, string_bytes, true};
ghost use Rattle.std.specs.Option.{option_copied};
ghost use Rattle.sx_atoms.specs.Casting.{cast_of};
ghost use Rattle.sx_lex.specs.Tokens.{closes, is_literal};
ghost use Rattle.sx_parse.specs.Checks as spec;
ghost use Rattle.sx_parse.specs.Literals.{IsLiteral};

use crate::words::found;
use std::alloc::{AllocError, Global};
use sx_atoms::{Atom, AtomType, Code, SeqFn, Text, TextFn, cast};
use sx_chars::split_name;
use sx_fn_seq::signature_seq;
use sx_fn_text::signature_text;
use sx_kinds::Function;
use sx_lex::TokenKind;
use sx_names::Scope;

/// The namespace of the functions.
const FN_URI: &str = "http://www.w3.org/2005/xpath-functions";

/// The namespace of the types.
const XS_URI: &str = "http://www.w3.org/2001/XMLSchema";

/// The functions by their local names (XPath functions and operators 3.1; XSLT 3.0, 14, 18 and 20).
const FUNCTIONS: [(&[u8], Function); 48] = [
    (b"string", Function::Text(TextFn::String)),
    (b"string-length", Function::Text(TextFn::StringLength)),
    (b"normalize-space", Function::Text(TextFn::NormalizeSpace)),
    (b"concat", Function::Text(TextFn::Concat)),
    (b"string-join", Function::Text(TextFn::StringJoin)),
    (b"contains", Function::Text(TextFn::Contains)),
    (b"starts-with", Function::Text(TextFn::StartsWith)),
    (b"ends-with", Function::Text(TextFn::EndsWith)),
    (b"substring-before", Function::Text(TextFn::SubstringBefore)),
    (b"substring-after", Function::Text(TextFn::SubstringAfter)),
    (b"substring", Function::Text(TextFn::Substring)),
    (b"translate", Function::Text(TextFn::Translate)),
    (b"name", Function::Seq(SeqFn::Name)),
    (b"local-name", Function::Seq(SeqFn::LocalName)),
    (b"namespace-uri", Function::Seq(SeqFn::NamespaceUri)),
    (b"count", Function::Seq(SeqFn::Count)),
    (b"empty", Function::Seq(SeqFn::Empty)),
    (b"exists", Function::Seq(SeqFn::Exists)),
    (b"boolean", Function::Seq(SeqFn::Boolean)),
    (b"not", Function::Seq(SeqFn::Not)),
    (b"sum", Function::Seq(SeqFn::Sum)),
    (b"avg", Function::Seq(SeqFn::Avg)),
    (b"min", Function::Seq(SeqFn::Min)),
    (b"max", Function::Seq(SeqFn::Max)),
    (b"data", Function::Seq(SeqFn::Data)),
    (b"distinct-values", Function::Seq(SeqFn::DistinctValues)),
    (b"abs", Function::Seq(SeqFn::Abs)),
    (b"floor", Function::Seq(SeqFn::Floor)),
    (b"ceiling", Function::Seq(SeqFn::Ceiling)),
    (b"round", Function::Seq(SeqFn::Round)),
    (b"true", Function::Seq(SeqFn::True)),
    (b"false", Function::Seq(SeqFn::False)),
    (b"position", Function::Seq(SeqFn::Position)),
    (b"last", Function::Seq(SeqFn::Last)),
    (b"head", Function::Seq(SeqFn::Head)),
    (b"tail", Function::Seq(SeqFn::Tail)),
    (b"reverse", Function::Seq(SeqFn::Reverse)),
    (b"subsequence", Function::Seq(SeqFn::Subsequence)),
    (b"zero-or-one", Function::Seq(SeqFn::ZeroOrOne)),
    (b"one-or-more", Function::Seq(SeqFn::OneOrMore)),
    (b"exactly-one", Function::Seq(SeqFn::ExactlyOne)),
    (b"copy-of", Function::Seq(SeqFn::CopyOf)),
    (b"snapshot", Function::Seq(SeqFn::Snapshot)),
    (b"current", Function::Seq(SeqFn::Current)),
    (b"current-group", Function::Seq(SeqFn::CurrentGroup)),
    (
        b"current-grouping-key",
        Function::Seq(SeqFn::CurrentGroupingKey),
    ),
    (
        b"accumulator-before",
        Function::Seq(SeqFn::AccumulatorBefore),
    ),
    (b"accumulator-after", Function::Seq(SeqFn::AccumulatorAfter)),
];

/// The constructor functions by their local names (XPath functions and operators 3.1, 18.1).
const CONSTRUCTORS: [(&[u8], Function); 4] = [
    (b"integer", Function::Seq(SeqFn::ToInteger)),
    (b"decimal", Function::Seq(SeqFn::ToDecimal)),
    (b"string", Function::Seq(SeqFn::ToStr)),
    (b"boolean", Function::Seq(SeqFn::ToBoolean)),
];

/// The atomic types by their local names.
const TYPES: [(&[u8], AtomType); 5] = [
    (b"integer", AtomType::Integer),
    (b"decimal", AtomType::Decimal),
    (b"string", AtomType::Str),
    (b"boolean", AtomType::Boolean),
    (b"untypedAtomic", AtomType::Untyped),
];

/// The namespace of a prefix, if it is bound; without a prefix, the given one.
fn uri_with<'a>(default: &'a str, scope: &'a Scope, prefix: &str) -> Option<&'a str>
    ensures { option_copied result ≡ spec.uri_with default.now scope.now prefix.now }
{
    if prefix.is_empty() {
        Some(default)
    } else {
        scope.lookup(prefix)
    }
}

/// The namespace of the name of an element, an attribute, a variable or a type, if its prefix is bound: without one, none.
pub(crate) fn name_uri<'a>(scope: &'a Scope, name: &str) -> Option<&'a str>
    ensures { option_copied result ≡ spec.name_uri scope.now name.now }
{
    uri_with("", scope, split_name(name).0)
}

/// The namespace of such a name, and the empty text where its prefix is not bound.
pub(crate) fn uri_or_none<'a>(scope: &'a Scope, name: &str) -> &'a str
    ensures { result.now ≡ spec.or_none (spec.name_uri scope.now name.now) }
{
    name_uri(scope, name).unwrap_or("")
}

/// The namespace of the name of a function, if its prefix is bound.
pub(crate) fn function_uri<'a>(scope: &'a Scope, name: &str) -> Option<&'a str>
    ensures { option_copied result ≡ spec.function_uri scope.now name.now }
{
    uri_with(FN_URI, scope, split_name(name).0)
}

/// The function of a name, by its namespace and its local name.
fn function_named(uri: &str, local: &str) -> Option<Function>
    ensures { result ≡ spec.function_named uri.now local.now }
{
    if uri == FN_URI {
        found(&FUNCTIONS, local.as_bytes())
    } else if uri == XS_URI {
        found(&CONSTRUCTORS, local.as_bytes())
    } else {
        None
    }
}

/// The type of a name, by its namespace and its local name.
pub(crate) fn type_named(uri: &str, local: &str) -> Option<AtomType>
    ensures { result ≡ spec.type_named uri.now local.now }
{
    if uri == XS_URI {
        found(&TYPES, local.as_bytes())
    } else {
        None
    }
}

/// The function of a name as it is written.
pub(crate) fn function_of(scope: &Scope, name: &str) -> Option<Function>
    ensures { result ≡ spec.function_of scope.now name.now }
{
    match function_uri(scope, name) {
        None => None,
        Some(uri) => function_named(uri, split_name(name).1),
    }
}

/// Whether a function takes this many arguments.
pub(crate) fn takes(function: Option<Function>, count: u64) -> bool
    ensures { result ≡ spec.accepts_count function count }
{
    match function {
        None => false,
        Some(Function::Text(f)) => signature_text(f).allows(count as usize),
        Some(Function::Seq(f)) => signature_seq(f).allows(count as usize),
    }
}

/// What stands in quotes (XPath 3.1, A.2.1, StringLiteral).
fn content(alloc: Global, text: &str) -> Result<String, AllocError>
    requires { is_literal text.now ≡ true }
    ensures { IfOk result (λ s. string_bytes s ≡ spec.literal_content text.now) }
{
    let quote = char::from(text.as_bytes()[0]);
    unquoted(alloc, quote, &text[1..])
}

/// What stands behind a quote and in front of the last one: a doubled quote is one.
fn unquoted(alloc: Global, quote: char, text: &str) -> Result<String, AllocError>
    requires ascii { quote < 128 }
    requires closes { closes quote text.now ≡ true }
    ensures { IfOk result (λ s. string_bytes s ≡ spec.unquoted quote text.now) }
{
    let mut unquoted = String::new(alloc);
    let mut rest = text;
    while let Some((front, back)) = rest.split_once(quote) {
        unquoted.push_str(front)?;
        match back.strip_prefix(quote) {
            None => return Ok(unquoted),
            Some(after) => {
                unquoted.push(quote)?;
                rest = after;
            }
        }
    }
    Ok(unquoted)
}

/// The value of a literal: a number as its text is cast, or the text in quotes.
pub(crate) fn literal(
    alloc: Global,
    kind: TokenKind,
    text: &str,
) -> Result<Result<Atom, Code>, AllocError>
    requires { IsLiteral kind text.now }
    ensures { IfOk result (λ value. value ≡ spec.literal_of kind text.now) }
{
    match kind {
        TokenKind::Integer => number(alloc, text, AtomType::Integer),
        TokenKind::Decimal => number(alloc, text, AtomType::Decimal),
        _ => Ok(Ok(Atom::Str(Text::from_string(content(alloc, text)?)))),
    }
}

/// The value of a literal that is a number.
pub(crate) fn number(
    alloc: Global,
    text: &str,
    to: AtomType,
) -> Result<Result<Atom, Code>, AllocError>
    ensures { IfOk result (λ value. value ≡ cast_of (Atom.Untyped text.now) to) }
{
    cast(alloc, &Atom::Untyped(Text::copy(alloc, text)?), to)
}
