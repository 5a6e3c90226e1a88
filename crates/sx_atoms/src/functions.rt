// The functions of expressions.
/// A function on texts (XPath functions and operators 3.1, 5 and 2.3).
#[derive(Clone, Copy, Debug, PartialEq, Eq)]
pub enum TextFn {
    /// `string`
    String,
    /// `string-length`
    StringLength,
    /// `normalize-space`
    NormalizeSpace,
    /// `concat`
    Concat,
    /// `string-join`
    StringJoin,
    /// `contains`
    Contains,
    /// `starts-with`
    StartsWith,
    /// `ends-with`
    EndsWith,
    /// `substring-before`
    SubstringBefore,
    /// `substring-after`
    SubstringAfter,
    /// `substring`
    Substring,
    /// `translate`
    Translate,
}

/// A function on nodes, sequences, numbers or truth values, or of the context (XPath functions and operators 3.1; XSLT 3.0,
/// 14, 18 and 20).
#[derive(Clone, Copy, Debug, PartialEq, Eq)]
pub enum SeqFn {
    /// `name`
    Name,
    /// `local-name`
    LocalName,
    /// `namespace-uri`
    NamespaceUri,
    /// `count`
    Count,
    /// `empty`
    Empty,
    /// `exists`
    Exists,
    /// `boolean`
    Boolean,
    /// `not`
    Not,
    /// `sum`
    Sum,
    /// `avg`
    Avg,
    /// `min`
    Min,
    /// `max`
    Max,
    /// `data`
    Data,
    /// `distinct-values`
    DistinctValues,
    /// `abs`
    Abs,
    /// `floor`
    Floor,
    /// `ceiling`
    Ceiling,
    /// `round`
    Round,
    /// `true`
    True,
    /// `false`
    False,
    /// `position`
    Position,
    /// `last`
    Last,
    /// `head`
    Head,
    /// `tail`
    Tail,
    /// `reverse`
    Reverse,
    /// `subsequence`
    Subsequence,
    /// `zero-or-one`
    ZeroOrOne,
    /// `one-or-more`
    OneOrMore,
    /// `exactly-one`
    ExactlyOne,
    /// `copy-of`
    CopyOf,
    /// `snapshot`
    Snapshot,
    /// `current`
    Current,
    /// `current-group`
    CurrentGroup,
    /// `current-grouping-key`
    CurrentGroupingKey,
    /// `accumulator-before`
    AccumulatorBefore,
    /// `accumulator-after`
    AccumulatorAfter,
    /// `xs:integer`
    ToInteger,
    /// `xs:decimal`
    ToDecimal,
    /// `xs:string`
    ToStr,
    /// `xs:boolean`
    ToBoolean,
}

/// What a function does with the nodes of an argument (XSLT 3.0, 19.2). `Special` is for a function without arguments, and
/// for one whose arguments follow rules of their own.
#[derive(Clone, Copy, Debug, PartialEq, Eq)]
pub enum Usage {
    Absorbs,
    Inspects,
    Navigates,
    Special,
}
