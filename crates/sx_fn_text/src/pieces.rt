// Texts that are put together.
ghost use Rattle.std.specs.Prelude.{◌≡◌, ℕ, ◌++◌, List, Err, IfOk, OnOk, MatchResult};
ghost use Rattle.std.specs.Prelude.{string_bytes};
ghost use Rattle.std.specs.Str.{chars, encode_utf8_all};
ghost use Rattle.sx_atoms.specs.Lexical as lexical;
ghost use Rattle.sx_atoms.specs.Printing.{text_of};
ghost use Rattle.sx_fn_text.specs.Calls.{printed_atoms, prints_joined};
ghost use Rattle.sx_fn_text.specs.Characters as spec;
ghost use Rattle.sx_fn_text.specs.Pieces.{extended, next_text, next_apart, IsPrinted, bytes_concatenated};

use std::alloc::{AllocError, Global};
use sx_atoms::{Atom, Atoms, Code, Text, print};

fn is_blank(c: char) -> bool
    ensures { result ≡ lexical.is_blank c }
{
    matches!(c, ' ' | '\t' | '\n' | '\r')
}

// Appends a character, and a space before it where it stands apart.
fn append(out: &mut String, apart: bool, c: char) -> Result<(), AllocError>
    ensures { OnOk result ((cs : List ℕ) → string_bytes out.old ≡ encode_utf8_all cs
        → string_bytes out.new ≡ encode_utf8_all (extended cs apart c)) }
{
    if apart {
        out.push(' ')?;
        out.push(c)
    } else {
        out.push(c)
    }
}

// Puts one more character of a text behind its words so far. The answer is whether white space came behind the last word.
fn put(out: &mut String, apart: bool, c: char) -> Result<bool, AllocError>
    ensures text { OnOk result ((cs : List ℕ) → string_bytes out.old ≡ encode_utf8_all cs
        → string_bytes out.new ≡ encode_utf8_all (next_text cs apart c)) }
    ensures apart { IfOk result (λ a. (cs : List ℕ) → string_bytes out.old ≡ encode_utf8_all cs
        → a ≡ next_apart cs c) }
{
    if is_blank(c) {
        return Ok(!out.is_empty());
    }
    append(out, apart, c)?;
    Ok(false)
}

/// The words of a text with one space between two.
pub fn normalized(alloc: Global, s: &str) -> Result<Text, AllocError>
    ensures { IfOk result (λ t. t ≡ encode_utf8_all (spec.normalized (chars s.now))) }
{
    let mut out = String::new(alloc);
    let mut apart = false;
    for c in s.chars() {
        apart = put(&mut out, apart, c)?;
    }
    Ok(Text::from_string(out))
}

// Appends what is printed of an atom.
fn append_print(alloc: Global, out: &mut String, atom: &Atom) -> Result<(), AllocError>
    ensures { OnOk result (string_bytes out.new
        ≡ string_bytes out.old ++ encode_utf8_all (chars (text_of atom.now))) }
{
    match atom {
        Atom::Str(text) | Atom::Untyped(text) => out.push_str(text.as_str()),
        _ => {
            let text = print(alloc, atom)?;
            out.push_str(text.as_str())
        }
    }
}

/// What is printed of atoms, with a separator between two.
pub fn join(alloc: Global, atoms: &[Atom], separator: &str) -> Result<Text, AllocError>
    ensures { IfOk result (λ t. t ≡ encode_utf8_all (prints_joined (chars separator.now) atoms.now)) }
{
    let Some((first, more)) = atoms.split_first() else {
        return Ok(Text::new(alloc));
    };
    let mut joined = String::new(alloc);
    append_print(alloc, &mut joined, first)?;
    for atom in more {
        joined.push_str(separator)?;
        append_print(alloc, &mut joined, atom)?;
    }
    Ok(Text::from_string(joined))
}

// Appends what is printed of an argument of one atom at most.
fn append_argument(
    alloc: Global,
    out: &mut String,
    atoms: &[Atom],
) -> Result<Result<(), Code>, AllocError>
    ensures { IfOk result (λ answer. MatchResult answer
        (λ _. IsPrinted atoms.now (string_bytes out.old) (string_bytes out.new))
        (λ e. printed_atoms atoms.now ≡ Err e)) }
{
    match atoms {
        [] => Ok(Ok(())),
        [atom] => {
            append_print(alloc, out, atom)?;
            Ok(Ok(()))
        }
        _ => Ok(Err(Code::Xpty0004)),
    }
}

/// What is printed of the arguments, one behind another.
pub fn concat(alloc: Global, args: &[Atoms]) -> Result<Result<Text, Code>, AllocError>
    ensures { IfOk result (λ answer. answer ≡ bytes_concatenated args.now) }
{
    let mut out = String::new(alloc);
    for atoms in args {
        if let Err(code) = append_argument(alloc, &mut out, atoms.as_slice())? {
            return Ok(Err(code));
        }
    }
    Ok(Ok(Text::from_string(out)))
}
