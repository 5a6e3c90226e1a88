// Bindings of prefixes to namespaces, and which of them are in force.
ghost use Rattle.std.specs.Prelude.{◌≡◌, ◌++◌, reverse};
ghost use Rattle.std.specs.Option.{option_copied};
ghost use Rattle.sx_build.specs.InForce.{first_binding, in_force};
ghost use Rattle.sx_build.specs.FixUp as fix;

use std::marker::Model;
use sx_tree::Chars;

/// A binding of a prefix to a namespace. The empty prefix is the default one; the empty namespace is none.
#[derive(Drop)]
pub struct Binding {
    prefix: Chars,
    uri: Chars,
}

impl Model for Binding {
    ghost use Rattle.sx_build.specs.FixUp as fix;

    ghost Value = { fix.Binding };

    ghost view = { λ b. fix.bind b.prefix b.uri };
}

impl Binding {
    /// The binding of this prefix to this namespace.
    pub fn new(prefix: Chars, uri: Chars) -> Binding
        ensures { result ≡ fix.bind prefix uri }
    {
        Binding { prefix, uri }
    }

    /// Its prefix.
    pub fn prefix(&self) -> &str
        ensures { result.now ≡ self.now.prefix }
    {
        self.prefix.as_str()
    }

    /// Its namespace.
    pub fn uri(&self) -> &str
        ensures { result.now ≡ self.now.uri }
    {
        self.uri.as_str()
    }
}

// The first of these that binds a prefix.
fn first<'a>(bindings: &'a [Binding], prefix: &str) -> Option<&'a Binding>
    ensures { option_copied result ≡ first_binding bindings.now prefix.now }
{
    for binding in bindings {
        if binding.prefix() == prefix {
            return Some(binding);
        }
    }
    None
}

// The last of these that binds a prefix.
fn last<'a>(bindings: &'a [Binding], prefix: &str) -> Option<&'a Binding>
    ensures { option_copied result ≡ first_binding (reverse bindings.now) prefix.now }
{
    for at in (0..bindings.len()).rev() {
        if bindings[at].prefix() == prefix {
            return Some(&bindings[at]);
        }
    }
    None
}

/// Whether one of these binds a prefix.
pub fn declares(bindings: &[Binding], prefix: &str) -> bool
    ensures { result ≡ fix.is_text_among (fix.prefixes bindings.now) prefix.now }
{
    first(bindings, prefix).is_some()
}

/// The binding of a prefix where an element declares some, in order, and the elements around it have declared others, the
/// innermost last.
pub fn declared<'a>(own: &'a [Binding], outer: &'a [Binding], prefix: &str) -> Option<&'a Binding>
    ensures { option_copied result ≡ first_binding (own.now ++ reverse outer.now) prefix.now }
{
    match first(own, prefix) {
        Some(binding) => Some(binding),
        None => last(outer, prefix),
    }
}

/// Whether a prefix is bound to a namespace there.
pub fn binds(own: &[Binding], outer: &[Binding], prefix: &str, uri: &str) -> bool
    ensures { result ≡ fix.binds (own.now ++ in_force outer.now) prefix.now uri.now }
{
    match declared(own, outer, prefix) {
        Some(binding) => binding.uri() == uri,
        None => binds_at_first(prefix, uri),
    }
}

/// Whether a prefix is bound there.
pub fn has_binding(own: &[Binding], outer: &[Binding], prefix: &str) -> bool
    ensures { result ≡ fix.is_text_among (fix.prefixes (own.now ++ in_force outer.now)) prefix.now }
{
    declared(own, outer, prefix).is_some() || is_bound_at_first(prefix)
}

// Whether a prefix is bound before anything is declared.
fn is_bound_at_first(prefix: &str) -> bool
    ensures { result ≡ fix.is_text_among (fix.prefixes fix.first_bound) prefix.now }
{
    prefix == "xml" || prefix.is_empty()
}

// Whether a prefix is bound to a namespace before anything is declared.
fn binds_at_first(prefix: &str, uri: &str) -> bool
    ensures { result ≡ fix.binds fix.first_bound prefix.now uri.now }
{
    if prefix == "xml" {
        return uri == "http://www.w3.org/XML/1998/namespace";
    }
    prefix.is_empty() && uri.is_empty()
}
