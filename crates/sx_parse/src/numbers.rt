// The numbers of the names of an expression.
ghost use Rattle.std.specs.Prelude.{◌≡◌, IfOk};
ghost use Rattle.sx_names.specs.Numbering.{KeepsPlaces};
ghost use Rattle.sx_parse.specs.Lexing.{AreParts};
ghost use Rattle.sx_parse.specs.Naming.{names_with_role, number_with};
ghost use Rattle.sx_parse.specs.Numbers.{expanded, names_among, number_in, numbers_among, with_name};
ghost use Rattle.sx_parse.specs.Numbers.{with_names};

use crate::functions::uri_or_none;
use crate::lexing::token_text;
use crate::roles::Role;
use sqlite_items::Items;
use std::alloc::{AllocError, Global};
use sx_chars::split_name;
use sx_lex::Token;
use sx_names::{Names, Scope};

/// For each token the number of its name, where it has the role of a name, and else 0. Names that are new are added behind the
/// others; so they are where the memory does not suffice.
pub(crate) fn number_names(
    alloc: Global,
    scope: &Scope,
    names: &mut Names,
    text: &str,
    tokens: &[Token],
    roles: &[Role],
) -> Result<Items<u64>, AllocError>
    requires { AreParts text.now tokens.now }
    ensures names { IfOk result
        (λ numbers. names.new
        ≡ with_names names.old (names_among scope.now text.now roles.now tokens.now)) }
    ensures numbers { IfOk result
        (λ numbers. numbers ≡ numbers_among names.new scope.now text.now roles.now tokens.now) }
    ensures kept { KeepsPlaces names.old names.new }
{
    let mut numbers = Items::new(alloc);
    for (role, token) in roles.iter().zip(tokens) {
        let number = number_of(scope, names, token_text(text, *token), *role)?;
        numbers.push(number)?;
    }
    Ok(numbers)
}

/// The number of a name, which is added if it is new; 0 where the role is not that of a name.
fn number_of(scope: &Scope, names: &mut Names, text: &str, role: Role) -> Result<u64, AllocError>
    ensures names { IfOk result
        (λ number. names.new ≡ names_with_role role names.old (expanded scope.now text.now)) }
    ensures number { IfOk result
        (λ number. number ≡ number_with role names.new (expanded scope.now text.now)) }
    ensures kept { KeepsPlaces names.old names.new }
{
    match role {
        Role::Name => number_name(scope, names, text),
        _ => Ok(0),
    }
}

/// The number of a name, which is added if it is new.
fn number_name(scope: &Scope, names: &mut Names, text: &str) -> Result<u64, AllocError>
    ensures names { IfOk result (λ number. names.new ≡ with_name names.old (expanded scope.now text.now)) }
    ensures number { IfOk result (λ number. number ≡ number_in names.new (expanded scope.now text.now)) }
    ensures kept { KeepsPlaces names.old names.new }
{
    names.intern(uri_or_none(scope, text), split_name(text).1)
}
