// What words and symbols are to the grammar.
ghost use Rattle.std.specs.Prelude.{◌≡◌, map, Some, None};
ghost use Rattle.sx_parse.specs.Lexemes as spec;

use crate::lexemes::{Binder, Casting, KindWord, Lexeme, Mark, Operator, Word};
use sx_atoms::CmpOp;
use sx_kinds::ArithOp;
use sx_lex::TokenKind;
use sx_tree::Axis;

/// The words that may be more than a name (XPath 3.1, A.1).
const WORDS: [(&[u8], Word); 44] = [
    (b"or", Word::Operator(Operator::Or)),
    (b"and", Word::Operator(Operator::And)),
    (
        b"eq",
        Word::Operator(Operator::Compare {
            op: CmpOp::Eq,
            general: false,
        }),
    ),
    (
        b"ne",
        Word::Operator(Operator::Compare {
            op: CmpOp::Ne,
            general: false,
        }),
    ),
    (
        b"lt",
        Word::Operator(Operator::Compare {
            op: CmpOp::Lt,
            general: false,
        }),
    ),
    (
        b"le",
        Word::Operator(Operator::Compare {
            op: CmpOp::Le,
            general: false,
        }),
    ),
    (
        b"gt",
        Word::Operator(Operator::Compare {
            op: CmpOp::Gt,
            general: false,
        }),
    ),
    (
        b"ge",
        Word::Operator(Operator::Compare {
            op: CmpOp::Ge,
            general: false,
        }),
    ),
    (b"to", Word::Operator(Operator::Range)),
    (b"div", Word::Operator(Operator::Arith(ArithOp::Div))),
    (b"idiv", Word::Operator(Operator::Arith(ArithOp::Idiv))),
    (b"mod", Word::Operator(Operator::Arith(ArithOp::Mod))),
    (b"union", Word::Operator(Operator::Union)),
    (b"castable", Word::Casting(Casting::Castable)),
    (b"cast", Word::Casting(Casting::Cast)),
    (b"for", Word::Binder(Binder::For)),
    (b"let", Word::Binder(Binder::Let)),
    (b"some", Word::Binder(Binder::Some)),
    (b"every", Word::Binder(Binder::Every)),
    (b"as", Word::As),
    (b"in", Word::In),
    (b"return", Word::Return),
    (b"satisfies", Word::Satisfies),
    (b"if", Word::If),
    (b"then", Word::Then),
    (b"else", Word::Else),
    (b"node", Word::Kind(KindWord::Node)),
    (b"text", Word::Kind(KindWord::Text)),
    (b"comment", Word::Kind(KindWord::Comment)),
    (b"document-node", Word::Kind(KindWord::DocumentNode)),
    (
        b"processing-instruction",
        Word::Kind(KindWord::ProcessingInstruction),
    ),
    (b"element", Word::Kind(KindWord::Element)),
    (b"attribute", Word::Kind(KindWord::Attribute)),
    (b"self", Word::Axis(Axis::SelfNode)),
    (b"child", Word::Axis(Axis::Child)),
    (b"descendant", Word::Axis(Axis::Descendant)),
    (b"descendant-or-self", Word::Axis(Axis::DescendantOrSelf)),
    (b"parent", Word::Axis(Axis::Parent)),
    (b"ancestor", Word::Axis(Axis::Ancestor)),
    (b"ancestor-or-self", Word::Axis(Axis::AncestorOrSelf)),
    (b"following", Word::Axis(Axis::Following)),
    (b"following-sibling", Word::Axis(Axis::FollowingSibling)),
    (b"preceding", Word::Axis(Axis::Preceding)),
    (b"preceding-sibling", Word::Axis(Axis::PrecedingSibling)),
];

/// The symbols but for `?` (XPath 3.1, A.2).
const MARKS: [(&[u8], Mark); 25] = [
    (b"(", Mark::Open),
    (b")", Mark::Close),
    (b"[", Mark::OpenBracket),
    (b"]", Mark::CloseBracket),
    (b",", Mark::Comma),
    (b"$", Mark::Dollar),
    (b"@", Mark::At),
    (b".", Mark::Dot),
    (b"..", Mark::DotDot),
    (b"/", Mark::Operator(Operator::Slash)),
    (b"//", Mark::Operator(Operator::DoubleSlash)),
    (b"::", Mark::Colons),
    (b":=", Mark::Assign),
    (b"|", Mark::Operator(Operator::Union)),
    (b"||", Mark::Operator(Operator::Concat)),
    (b"!", Mark::Operator(Operator::Map)),
    (
        b"!=",
        Mark::Operator(Operator::Compare {
            op: CmpOp::Ne,
            general: true,
        }),
    ),
    (
        b"=",
        Mark::Operator(Operator::Compare {
            op: CmpOp::Eq,
            general: true,
        }),
    ),
    (
        b"<",
        Mark::Operator(Operator::Compare {
            op: CmpOp::Lt,
            general: true,
        }),
    ),
    (
        b"<=",
        Mark::Operator(Operator::Compare {
            op: CmpOp::Le,
            general: true,
        }),
    ),
    (
        b">",
        Mark::Operator(Operator::Compare {
            op: CmpOp::Gt,
            general: true,
        }),
    ),
    (
        b">=",
        Mark::Operator(Operator::Compare {
            op: CmpOp::Ge,
            general: true,
        }),
    ),
    (b"+", Mark::Operator(Operator::Arith(ArithOp::Add))),
    (b"-", Mark::Operator(Operator::Arith(ArithOp::Sub))),
    (b"*", Mark::Operator(Operator::Arith(ArithOp::Mul))),
];

/// What stands beside a text in a table, if the text is there.
pub(crate) fn found<X: Copy>(mut table: &[(&[u8], X)], text: &[u8]) -> Option<X>
    ensures { result ≡ spec.found (map (λ row. (row.0.now, Some row.1)) table.entry.now) text.now None }
{
    while let [row, rest @ ..] = table {
        if row.0 == text {
            return Some(row.1);
        }
        table = rest;
    }
    None
}

/// What a name may be: a word is one without a prefix (XPath 3.1, A.1).
pub(crate) fn word_of(text: &str) -> Word
    ensures { result ≡ spec.word_of text.now }
{
    let bytes = text.as_bytes();
    if bytes.contains(&b':') {
        Word::Prefixed
    } else {
        found(&WORDS, bytes).unwrap_or(Word::Other)
    }
}

/// The symbol that a text is (XPath 3.1, A.2).
pub(crate) fn mark_of(text: &str) -> Mark
    ensures { result ≡ spec.mark_of text.now }
{
    found(&MARKS, text.as_bytes()).unwrap_or(Mark::Question)
}

/// A token of a kind and with a text, as the grammar sees it.
pub(crate) fn lexeme(kind: TokenKind, text: &str, place: u32) -> Lexeme
    ensures { result ≡ spec.lexeme_of kind text.now place }
{
    match kind {
        TokenKind::Name => Lexeme::Name(word_of(text), place),
        TokenKind::Wild => Lexeme::Wild(place),
        TokenKind::Integer | TokenKind::Decimal | TokenKind::Str => Lexeme::Literal(place),
        TokenKind::Mark => Lexeme::Mark(mark_of(text)),
    }
}
