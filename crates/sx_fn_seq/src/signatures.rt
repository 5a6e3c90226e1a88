// How many arguments functions take, and what they do with nodes.
ghost use Rattle.std.specs.Prelude.{◌≡◌};
ghost use Rattle.sx_fn_seq.specs.Signatures as spec;
ghost use Rattle.sx_fn_seq.specs.Signatures.{seq_signature};

use sx_atoms::{SeqFn, Signature, Usage};

// A signature of at most one argument.
fn takes(least: u8, most: u8, usage: Usage) -> Signature
    ensures { result ≡ spec.taking least most usage }
{
    Signature {
        least,
        most,
        first: usage,
        rest: usage,
    }
}

/// How many arguments a function takes, and what it does with the nodes of the first one and of the others (XSLT 3.0,
/// 19.8.9).
pub fn signature_seq(f: SeqFn) -> Signature
    ensures { result ≡ seq_signature f }
{
    use SeqFn::*;
    match f {
        Name | LocalName | NamespaceUri => takes(0, 1, Usage::Inspects),
        Count | Empty | Exists | Boolean | Not => takes(1, 1, Usage::Inspects),
        Sum | Avg | Min | Max => takes(1, 1, Usage::Absorbs),
        Data => takes(0, 1, Usage::Absorbs),
        DistinctValues | Abs | Floor | Ceiling | Round => takes(1, 1, Usage::Absorbs),
        True | False | Position | Last => takes(0, 0, Usage::Special),
        Head | Tail | Reverse => takes(1, 1, Usage::Navigates),
        Subsequence => Signature {
            least: 2,
            most: 3,
            first: Usage::Navigates,
            rest: Usage::Absorbs,
        },
        ZeroOrOne | OneOrMore | ExactlyOne => takes(1, 1, Usage::Navigates),
        CopyOf | Snapshot => takes(0, 1, Usage::Absorbs),
        Current | CurrentGroup | CurrentGroupingKey => takes(0, 0, Usage::Special),
        AccumulatorBefore | AccumulatorAfter => takes(1, 1, Usage::Special),
        ToInteger | ToDecimal | ToStr | ToBoolean => takes(1, 1, Usage::Absorbs),
    }
}

// Whether a function is one of nodes or of the context.
fn needs_more(f: SeqFn) -> bool
    ensures { result ≡ spec.needs_more f }
{
    use SeqFn::*;
    matches!(
        f,
        Name | LocalName
            | NamespaceUri
            | Position
            | Last
            | CopyOf
            | Snapshot
            | Current
            | CurrentGroup
            | CurrentGroupingKey
            | AccumulatorBefore
            | AccumulatorAfter
    )
}

/// Whether `call_seq` answers a call with this many arguments: the function is none of nodes or of the context, takes so many
/// arguments, and what is the context item where it is missing is given.
pub fn is_answerable(f: SeqFn, count: usize) -> bool
    ensures { result ≡ spec.is_answerable f count }
{
    let signature = signature_seq(f);
    !needs_more(f) && signature.allows(count) && (count >= 1 || signature.most == 0)
}
