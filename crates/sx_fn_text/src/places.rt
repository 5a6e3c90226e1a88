// Where a text stands in another one.
ghost use Rattle.std.specs.Prelude.{◌≡◌, nat_eq};
ghost use Rattle.std.specs.List.{starts_with, ends_with};
ghost use Rattle.std.specs.Str.{chars, encode_utf8_all};
ghost use Rattle.sx_fn_text.specs.Characters as spec;

/// Whether t stands in s.
pub fn is_within(t: &str, s: &str) -> bool
    ensures { result ≡ spec.is_within (chars t.now) (chars s.now) }
{
    s.contains(t)
}

/// Whether s begins with t.
pub fn begins(s: &str, t: &str) -> bool
    ensures { result ≡ starts_with nat_eq (chars s.now) (chars t.now) }
{
    s.starts_with(t)
}

/// Whether s ends with t.
pub fn ends(s: &str, t: &str) -> bool
    ensures { result ≡ ends_with nat_eq (chars s.now) (chars t.now) }
{
    s.ends_with(t)
}

/// What stands in s before the first place of t, and "" where there is none.
pub fn before<'a>(s: &'a str, t: &str) -> &'a str
    ensures { result.now ≡ encode_utf8_all (spec.text_before (chars s.now) (chars t.now)) }
{
    match s.split_once(t) {
        Some((front, _)) => front,
        None => "",
    }
}

/// What stands in s behind the first place of t, and "" where there is none.
pub fn after<'a>(s: &'a str, t: &str) -> &'a str
    ensures { result.now ≡ encode_utf8_all (spec.text_after (chars s.now) (chars t.now)) }
{
    match s.split_once(t) {
        Some((_, back)) => back,
        None => "",
    }
}
