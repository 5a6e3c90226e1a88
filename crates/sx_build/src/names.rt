// Names, written out and as they are printed.
ghost use Rattle.std.specs.Prelude.{◌≡◌, ◌&&◌, IfOk};
ghost use Rattle.sx_named.specs.Named as named;
ghost use Rattle.sx_names.specs.Numbering as table;
ghost use Rattle.sx_chars.specs.Names as chars;
ghost use Rattle.sx_build.specs.Build as spec;
ghost use Rattle.sx_build.specs.FixUp as fix;
ghost use Rattle.sx_build.specs.Kept.{name_with};

use itoa::Buffer;
use std::alloc::{AllocError, Global};
use std::marker::Model;
use sx_names::Names;
use sx_tree::Chars;

/// A name that is written out.
#[derive(Drop)]
pub struct Name {
    prefix: Chars,
    uri: Chars,
    local: Chars,
}

impl Model for Name {
    ghost use Rattle.sx_named.specs.Named as named;
    ghost use Rattle.sx_build.specs.Kept.{name_with};

    ghost Value = { named.Name };

    ghost view = { λ n. name_with n.prefix n.uri n.local };
}

impl Name {
    /// The name with this prefix, namespace and local name.
    pub fn new(prefix: Chars, uri: Chars, local: Chars) -> Name
        ensures { result ≡ name_with prefix uri local }
    {
        Name { prefix, uri, local }
    }

    /// Its prefix, which is empty where it has none.
    pub fn prefix(&self) -> &str
        ensures { result.now ≡ self.now.prefix }
    {
        self.prefix.as_str()
    }

    /// Its namespace, which is empty where it is in none.
    pub fn uri(&self) -> &str
        ensures { result.now ≡ self.now.uri }
    {
        self.uri.as_str()
    }

    /// Its local name.
    pub fn local(&self) -> &str
        ensures { result.now ≡ self.now.local }
    {
        self.local.as_str()
    }

    /// Whether two names have the same namespace and local name.
    pub fn is_same(&self, other: &Name) -> bool
        ensures { result ≡ named.is_same_name self.now other.now }
    {
        self.uri() == other.uri() && self.local() == other.local()
    }

    /// The name with its prefix.
    pub fn print(&self, alloc: Global) -> Result<Chars, AllocError>
        ensures { IfOk result (λ name. name ≡ spec.printed_name self.now) }
    {
        prefixed(alloc, self.prefix(), self.local())
    }
}

/// The namespace of the name with this number, or none where no name has it.
pub fn uri_at(names: &Names, number: u64) -> &str
    ensures { result.now ≡ table.uri_at names.now number }
{
    if !names.has(number) {
        return "";
    }
    names.uri(number)
}

/// The local name with this number, or the empty text where no name has it.
pub fn local_at(names: &Names, number: u64) -> &str
    ensures { result.now ≡ table.local_at names.now number }
{
    if !names.has(number) {
        return "";
    }
    names.local(number)
}

/// A local name behind its prefix, where it has one.
pub fn prefixed(alloc: Global, prefix: &str, local: &str) -> Result<Chars, AllocError>
    ensures { IfOk result (λ name. name ≡ chars.prefixed prefix.now local.now) }
{
    if prefix.is_empty() {
        return Chars::copy(alloc, local);
    }
    let mut name = Chars::new(alloc);
    name.push_str(prefix)?;
    name.push_str(":")?;
    name.push_str(local)?;
    Ok(name)
}

/// The name of the attribute that declares a prefix.
pub fn declaration_name(alloc: Global, prefix: &str) -> Result<Chars, AllocError>
    ensures { IfOk result (λ name. name ≡ spec.declaration_name prefix.now) }
{
    if prefix.is_empty() {
        return Chars::copy(alloc, "xmlns");
    }
    prefixed(alloc, "xmlns", prefix)
}

/// The prefix `ns` with this number.
pub fn numbered_prefix(alloc: Global, number: usize) -> Result<Chars, AllocError>
    ensures { IfOk result (λ prefix. prefix ≡ fix.numbered_prefix number) }
{
    let mut digits = Buffer::new();
    let mut prefix = Chars::copy(alloc, "ns")?;
    prefix.push_str(digits.format(number))?;
    Ok(prefix)
}
