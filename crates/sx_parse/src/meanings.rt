// What the words of a text mean.
ghost use Rattle.std.specs.Prelude.{◌≡◌, IfOk};
ghost use Rattle.sx_parse.specs.Checks as checks;
ghost use Rattle.sx_parse.specs.Built.{IsLiteralAt};
ghost use Rattle.sx_parse.specs.Says as spec;
ghost use Rattle.sx_parse.specs.Wording.{IsCutWording, meaning_of};

use crate::checks::text_at;
use crate::functions::{function_of, literal, type_named, uri_or_none};
use sqlite_items::at;
use std::alloc::{AllocError, Global};
use sx_atoms::{Atom, AtomType, SeqFn, Text};
use sx_chars::split_name;
use sx_kinds::Function;
use sx_lex::{Token, TokenKind};
use sx_names::Scope;

/// A text and its tokens, the bindings in force, for each token the number of its name where it has one, and the line of the
/// text's element. A place is that of a token, counted from 0.
#[derive(Clone, Copy)]
pub(crate) struct Wording<'a> {
    pub text: &'a str,
    pub tokens: &'a [Token],
    pub scope: &'a Scope,
    pub numbers: &'a [u64],
    pub line: u64,
}

impl Wording<'_> {
    /// The number of the name at a place.
    pub(crate) fn number_at(&self, place: u32) -> u64
        ensures { result ≡ spec.number_at (meaning_of self.now) place }
    {
        match at(self.numbers, place as usize) {
            Some(number) => *number,
            None => 0,
        }
    }

    /// The text of the token at a place.
    pub(crate) fn spelled(&self, place: u32) -> &str
        requires { IsCutWording self.now }
        ensures { result.now ≡ checks.token_text self.now.text.now self.now.tokens.now place }
    {
        text_at(self.text, self.tokens, place)
    }

    fn kind_at(&self, place: u32) -> TokenKind
        ensures { result ≡ spec.token_kind_at (meaning_of self.now) place }
    {
        match at(self.tokens, place as usize) {
            Some(token) => token.kind,
            None => TokenKind::Str,
        }
    }

    /// The literal at a place.
    pub(crate) fn literal_atom(&self, alloc: Global, place: u32) -> Result<Atom, AllocError>
        requires cut { IsCutWording self.now }
        requires literal { IsLiteralAt (meaning_of self.now) place }
        ensures { IfOk result (λ a. a ≡ spec.literal_atom (meaning_of self.now) place) }
    {
        match literal(alloc, self.kind_at(place), self.spelled(place))? {
            Ok(atom) => Ok(atom),
            Err(_) => Ok(Atom::Str(Text::new(alloc))),
        }
    }

    /// The function of the name at a place.
    pub(crate) fn called_function(&self, place: u32) -> Function
        requires { IsCutWording self.now }
        ensures { result ≡ spec.called_function (meaning_of self.now) place }
    {
        match function_of(self.scope, self.spelled(place)) {
            Some(function) => function,
            None => Function::Seq(SeqFn::True),
        }
    }

    /// The type of the name at a place.
    pub(crate) fn type_at(&self, place: u32) -> AtomType
        requires { IsCutWording self.now }
        ensures { result ≡ spec.type_named_at (meaning_of self.now) place }
    {
        let name = self.spelled(place);
        let (_, local) = split_name(name);
        match type_named(uri_or_none(self.scope, name), local) {
            Some(named) => named,
            None => AtomType::Untyped,
        }
    }
}
