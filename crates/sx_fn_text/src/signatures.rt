// How many arguments the functions on texts take.
ghost use Rattle.std.specs.Prelude.{◌≡◌};
ghost use Rattle.sx_fn_text.specs.Signatures.{text_signature};

use sx_atoms::{Signature, TextFn, Usage};

/// How many arguments a function on texts takes (XPath functions and operators 3.1, 5 and 2.3), `concat` no more than 16. It
/// absorbs the nodes of each of them (XSLT 3.0, 19.8.9).
pub fn signature_text(f: TextFn) -> Signature
    ensures { result ≡ text_signature f }
{
    let (least, most) = match f {
        TextFn::String | TextFn::StringLength | TextFn::NormalizeSpace => (0, 1),
        TextFn::Concat => (2, 16),
        TextFn::StringJoin => (1, 2),
        TextFn::Contains | TextFn::StartsWith | TextFn::EndsWith => (2, 2),
        TextFn::SubstringBefore | TextFn::SubstringAfter => (2, 2),
        TextFn::Substring => (2, 3),
        TextFn::Translate => (3, 3),
    };
    Signature {
        least,
        most,
        first: Usage::Absorbs,
        rest: Usage::Absorbs,
    }
}
