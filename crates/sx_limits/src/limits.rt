// The limits of documents, stylesheets and their evaluation.
ghost use Rattle.std.specs.Prelude.{◌≡◌};
ghost use Rattle.sx_limits.specs.Limits.{stated};

/// Limits; each is the most that is taken.
#[derive(Clone, Copy, Debug, PartialEq, Eq)]
pub struct Limits {
    /// bytes of a line without its newline
    pub line: u64,
    /// bytes of a run of text, as UTF-8 and without escapes
    pub text_run: u64,
    /// attribute lines of one element that are not IMPLIED
    pub attrs: u64,
    /// elements that are open at once; it counts up to 200 and no more
    pub depth: u64,
    /// bytes of a document
    pub bytes: u64,
    /// nodes of a document that is evaluated as a tree, attributes counted
    pub nodes: u64,
    /// invocations of templates that are open at once, built-in ones counted
    pub invocations: u64,
    /// integers of one range
    pub range: u64,
    /// bytes of a string
    pub string: u64,
    /// items of a list, or nodes of a copied tree
    pub list: u64,
}

impl Limits {
    /// The limits that the program states.
    pub fn stated() -> Limits
        ensures { result ≡ stated }
    {
        Limits {
            line: 1_048_576,
            text_run: 16_777_216,
            attrs: 256,
            depth: 200,
            bytes: 1 << 40,
            nodes: 4_000_000,
            invocations: 256,
            range: 1_000_000,
            string: 67_108_864,
            list: 4_000_000,
        }
    }
}
