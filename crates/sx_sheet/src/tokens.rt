// What the events of a stylesheet say.
ghost use Rattle.std.specs.Prelude.{◌≡◌, ◌&&◌, ◌==◌, not, [], ◌<◌, ℕ, List, length};
ghost use Rattle.std.specs.Prelude.{bytes_eq, Option, option_map, IfSome};
ghost use Rattle.std.specs.List.{list_all};
ghost use Rattle.sx_chars.specs.Names as chars;
ghost use Rattle.sx_names.specs.Numbering.{NameTable, uri_at, local_at};
ghost use Rattle.sx_named.specs.Named.{named, name_at, attributes_at};
ghost use Rattle.sx_sheet.specs.Tokens as said;
ghost use Rattle.sx_sheet.specs.Shown.{shown, IsShown};

use sx_chars::is_white_space;
use sx_kinds::OnNoMatch;
use sx_names::Names;
use sx_tree::{Attr, Event, Label};

/// What an event says, as far as thin stylesheets go.
#[derive(Clone, Copy)]
pub(crate) enum Token<'a> {
    StartsSheet,
    /// what the mode does with nodes that no template matches
    StartsMode(OnNoMatch),
    /// the name that the template matches
    StartsTemplate(&'a str),
    /// the number of the name of a literal result element
    StartsLiteral(u64),
    StartsText,
    StartsApply,
    /// the innermost open element ends
    Ends,
    Says(&'a str),
    /// the input has ended well
    Closes,
    /// what no thin stylesheet says
    Strange,
}

const XSLT_NAMESPACE: &str = "http://www.w3.org/1999/XSL/Transform";

fn are_letters(bytes: &[u8]) -> bool
    ensures { result ≡ list_all said.is_letter bytes.now }
{
    bytes.iter().all(|byte| byte.is_ascii_alphabetic())
}

fn are_white_space(bytes: &[u8]) -> bool
    ensures { result ≡ list_all chars.is_white_space bytes.now }
{
    bytes.iter().all(|byte| is_white_space(*byte))
}

// One or more letters of ASCII.
fn is_plain_name(text: &str) -> bool
    ensures { result ≡ said.is_plain_name text.now }
{
    !text.is_empty() && are_letters(text.as_bytes())
}

// The namespace and the local name with a number, which are both empty where the table has none.
fn name_of(names: &Names, number: u64) -> (&str, &str)
    ensures uri { result.0.now ≡ uri_at names.now number }
    ensures local { result.1.now ≡ local_at names.now number }
{
    if names.has(number) {
        (names.uri(number), names.local(number))
    } else {
        ("", "")
    }
}

// Whether the name with a number is in no namespace and has this local name.
fn is_plain(names: &Names, number: u64, local: &str) -> bool
    ensures { result
        ≡ (said.is_empty (uri_at names.now number) && bytes_eq (local_at names.now number) local.now) }
{
    let (uri, name) = name_of(names, number);
    uri.is_empty() && name == local
}

// The value of the attribute of this local name in no namespace.
fn value_of<'a>(attrs: &'a [Attr], names: &Names, local: &str) -> Option<&'a str>
    ensures { option_map (λ v. v.now) result
        ≡ said.value_named (attributes_at names.now attrs.now) local.now }
{
    for attr in attrs {
        if is_plain(names, attr.label.number, local) {
            return Some(attr.value.as_str());
        }
    }
    None
}

// Whether there is a value, and it is this one.
fn is_value(value: Option<&str>, expected: &str) -> bool
    ensures { result ≡ said.is_value expected.now (option_map (λ v. v.now) value.entry) }
{
    match value {
        None => false,
        Some(text) => text == expected,
    }
}

// Whether there are so many attributes.
fn are(attrs: &[Attr], count: usize) -> bool
    ensures { (names : NameTable) → result ≡ (length (attributes_at names attrs.now) == count) }
{
    attrs.len() == count
}

fn sheet_token<'a>(attrs: &'a [Attr], names: &Names) -> Token<'a>
    ensures { shown names.now result ≡ said.sheet_token (attributes_at names.now attrs.now) }
{
    if are(attrs, 1) && is_value(value_of(attrs, names, "version"), "3.0") {
        return Token::StartsSheet;
    }
    Token::Strange
}

fn mode_token<'a>(attrs: &'a [Attr], names: &Names) -> Token<'a>
    ensures { shown names.now result ≡ said.mode_token (attributes_at names.now attrs.now) }
{
    if !are(attrs, 2) || !is_value(value_of(attrs, names, "streamable"), "yes") {
        return Token::Strange;
    }
    match value_of(attrs, names, "on-no-match") {
        Some("text-only-copy") => Token::StartsMode(OnNoMatch::TextOnlyCopy),
        Some("shallow-copy") => Token::StartsMode(OnNoMatch::ShallowCopy),
        _ => Token::Strange,
    }
}

fn template_token<'a>(attrs: &'a [Attr], names: &Names) -> Token<'a>
    ensures { shown names.now result ≡ said.template_token (attributes_at names.now attrs.now) }
{
    if !are(attrs, 1) {
        return Token::Strange;
    }
    match value_of(attrs, names, "match") {
        Some(name) if is_plain_name(name) => Token::StartsTemplate(name),
        _ => Token::Strange,
    }
}

// A start without attributes.
fn if_bare<'a>(attrs: &[Attr], token: Token<'a>) -> Token<'a>
    ensures { (names : NameTable)
        → shown names result ≡ said.if_bare (attributes_at names attrs.now) (shown names token.entry) }
{
    if attrs.is_empty() {
        token
    } else {
        Token::Strange
    }
}

// The start of an element of the XSLT namespace.
fn xslt_token<'a>(local: &str, attrs: &'a [Attr], names: &Names) -> Token<'a>
    ensures { shown names.now result ≡ said.xslt_token local.now (attributes_at names.now attrs.now) }
{
    match local {
        "stylesheet" => sheet_token(attrs, names),
        "mode" => mode_token(attrs, names),
        "template" => template_token(attrs, names),
        "text" => if_bare(attrs, Token::StartsText),
        "apply-templates" => if_bare(attrs, Token::StartsApply),
        _ => Token::Strange,
    }
}

fn is_unprefixed(label: &Label) -> bool
    ensures { result ≡ said.is_empty label.now.prefix }
{
    label.prefix.as_str().is_empty()
}

fn start_token<'a>(label: &Label, attrs: &'a [Attr], names: &Names) -> Token<'a>
    ensures token { shown names.now result
        ≡ said.start_token (record {
          name = name_at names.now label.now;
          attributes = attributes_at names.now attrs.now;
          spaces = [];
        }) }
{
    let (uri, local) = name_of(names, label.number);
    if uri == XSLT_NAMESPACE {
        return xslt_token(local, attrs, names);
    }
    if is_unprefixed(label) && is_plain_name(local) {
        return if_bare(attrs, Token::StartsLiteral(label.number));
    }
    Token::Strange
}

/// What an event says, or `None` for a processing instruction, which says nothing.
pub(crate) fn token_of<'a>(event: &'a Event, names: &Names) -> Option<Token<'a>>
    ensures token { option_map (shown names.now) result ≡ said.token_of (named names.now event.now) }
    ensures known { IfSome result (IsShown names.now) }
{
    match event {
        Event::Start {
            label,
            attrs,
            spaces: _,
        } => Some(start_token(label, attrs.as_slice(), names)),
        Event::End => Some(Token::Ends),
        Event::Text(text) => Some(Token::Says(text.as_str())),
        Event::Pi {
            target: _,
            content: _,
        } => None,
        Event::Close => Some(Token::Closes),
    }
}

impl<'a> Token<'a> {
    // Whether it is a text of white space alone, which counts in `xsl:text` only (XSLT 3.0, 4.3).
    fn is_blank(self) -> bool
        ensures { (names : NameTable) → result ≡ said.is_blank_token (shown names self.entry) }
    {
        match self {
            Token::Says(text) => are_white_space(text.as_bytes()),
            _ => false,
        }
    }

    /// Whether it does not count, where the content of an `xsl:text` may or may not stand in front of it.
    pub fn is_skipped(self, in_text: bool) -> bool
        ensures { (names : NameTable)
            → result ≡ (said.is_blank_token (shown names self.entry) && not in_text) }
    {
        self.is_blank() && !in_text
    }

    /// Whether the content of an `xsl:text` may stand behind it, where it did or did not before.
    pub fn is_in_text(self, before: bool) -> bool
        ensures { (names : NameTable) → result ≡ said.is_in_text before (shown names self.entry) }
    {
        match self {
            Token::StartsText => true,
            Token::Says(_) => before,
            _ => false,
        }
    }
}
