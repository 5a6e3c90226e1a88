// The codes of errors, and how they are written.
ghost use Rattle.std.specs.Prelude.{◌≡◌};
ghost use Rattle.sx_atoms.specs.Codes.{name_of};

/// The code of an error: those of XPath 3.1 (appendix F), of its functions and operators (appendix A) and of XSLT 3.0
/// (appendix E), then those of what this program does not take and of its limits.
#[derive(Clone, Copy, Debug, PartialEq, Eq)]
pub enum Code {
    /// An expression is not in the grammar, or a literal in it has no value here.
    Xpst0003,
    /// A variable is not declared.
    Xpst0008,
    /// No function has this name and this number of arguments.
    Xpst0017,
    /// A prefix is not bound to a namespace.
    Xpst0081,
    /// A value has a type, or a number of items, that is not allowed where it stands.
    Xpty0004,
    /// There is no context item.
    Xpdy0002,
    /// The root of a tree is no document node.
    Xpdy0050,
    /// Division by zero.
    Foar0001,
    /// A number is outside the range of its type.
    Foar0002,
    /// A decimal has more digits than its type.
    Foca0006,
    /// A text is no value of the type that it is cast to.
    Forg0001,
    /// More than one item where at most one is asked for.
    Forg0003,
    /// No item where at least one is asked for.
    Forg0004,
    /// Not exactly one item where one is asked for.
    Forg0005,
    /// An argument has a wrong type.
    Forg0006,
    /// An element or an attribute is not allowed where it stands.
    Xtse0010,
    /// An attribute has a value that is not allowed.
    Xtse0020,
    /// An attribute is not known.
    Xtse0090,
    /// Text at the top level of a stylesheet.
    Xtse0120,
    /// A top-level element has no namespace.
    Xtse0130,
    /// The root element is not in the namespace of XSLT.
    Xtse0150,
    /// A pattern is not in the grammar.
    Xtse0340,
    /// A `{` of a value template has no `}`.
    Xtse0350,
    /// A `}` of a value template has no `{`.
    Xtse0370,
    /// A template has neither a pattern nor a name, or a mode or a priority without a pattern.
    Xtse0500,
    /// Two declarations of one mode.
    Xtse0545,
    /// Two global variables, parameters or accumulators of one name.
    Xtse0630,
    /// No template has the name that is called.
    Xtse0650,
    /// Two templates of one name.
    Xtse0660,
    /// A parameter that is passed is not declared.
    Xtse0680,
    /// No accumulator has this name, or its name is no literal.
    Xtde3340,
    /// The stylesheet cannot be streamed.
    Xtse3430,
    /// An attribute behind a child of its element.
    Xtde0410,
    /// An attribute at a document node.
    Xtde0420,
    /// No template matches a node in a mode that asks for one.
    Xtde0555,
    /// A global variable is needed for its own value.
    Xtde0640,
    /// A value does not have the declared type.
    Xtte0570,
    /// The name of an element is no QName.
    Xtde0820,
    /// The prefix of an element's name is not bound.
    Xtde0830,
    /// The name of an attribute is no QName.
    Xtde0850,
    /// The name of an attribute is `xmlns`.
    Xtde0855,
    /// The prefix of an attribute's name is not bound.
    Xtde0860,
    /// The name of a processing instruction is no NCName.
    Xtde0890,
    /// There is no current group.
    Xtde1061,
    /// There is no current grouping key.
    Xtde1071,
    /// A grouping key is not one atom.
    Xtte1100,
    /// The value of an accumulator at an attribute or an atom.
    Xtte3360,
    /// An accumulator does not apply to the tree of a node.
    Xtde3362,
    /// An expression, a pattern or a value template has too many bytes.
    Sxst0001,
    /// An expression is nested too deeply.
    Sxst0002,
    /// Steps or a union where the nodes may be of several copied trees.
    Sxst0003,
    /// A fork has too many branches.
    Sxst0004,
    /// Too many accumulators.
    Sxst0005,
    /// An atom in the selection to which templates are applied.
    Sxde0001,
    /// More templates are open at once than the limit.
    Sxli0001,
    /// A range has more integers than the limit.
    Sxli0002,
    /// A string has more bytes than the limit.
    Sxli0003,
    /// A list has more items, or a copied tree more nodes, than the limit.
    Sxli0004,
}

impl Code {
    /// The eight bytes that the code is written with.
    pub fn text(self) -> [u8; 8]
        ensures { result ≡ name_of self }
    {
        match self {
            Code::Xpst0003 => *b"XPST0003",
            Code::Xpst0008 => *b"XPST0008",
            Code::Xpst0017 => *b"XPST0017",
            Code::Xpst0081 => *b"XPST0081",
            Code::Xpty0004 => *b"XPTY0004",
            Code::Xpdy0002 => *b"XPDY0002",
            Code::Xpdy0050 => *b"XPDY0050",
            Code::Foar0001 => *b"FOAR0001",
            Code::Foar0002 => *b"FOAR0002",
            Code::Foca0006 => *b"FOCA0006",
            Code::Forg0001 => *b"FORG0001",
            Code::Forg0003 => *b"FORG0003",
            Code::Forg0004 => *b"FORG0004",
            Code::Forg0005 => *b"FORG0005",
            Code::Forg0006 => *b"FORG0006",
            Code::Xtse0010 => *b"XTSE0010",
            Code::Xtse0020 => *b"XTSE0020",
            Code::Xtse0090 => *b"XTSE0090",
            Code::Xtse0120 => *b"XTSE0120",
            Code::Xtse0130 => *b"XTSE0130",
            Code::Xtse0150 => *b"XTSE0150",
            Code::Xtse0340 => *b"XTSE0340",
            Code::Xtse0350 => *b"XTSE0350",
            Code::Xtse0370 => *b"XTSE0370",
            Code::Xtse0500 => *b"XTSE0500",
            Code::Xtse0545 => *b"XTSE0545",
            Code::Xtse0630 => *b"XTSE0630",
            Code::Xtse0650 => *b"XTSE0650",
            Code::Xtse0660 => *b"XTSE0660",
            Code::Xtse0680 => *b"XTSE0680",
            Code::Xtde3340 => *b"XTDE3340",
            Code::Xtse3430 => *b"XTSE3430",
            Code::Xtde0410 => *b"XTDE0410",
            Code::Xtde0420 => *b"XTDE0420",
            Code::Xtde0555 => *b"XTDE0555",
            Code::Xtde0640 => *b"XTDE0640",
            Code::Xtte0570 => *b"XTTE0570",
            Code::Xtde0820 => *b"XTDE0820",
            Code::Xtde0830 => *b"XTDE0830",
            Code::Xtde0850 => *b"XTDE0850",
            Code::Xtde0855 => *b"XTDE0855",
            Code::Xtde0860 => *b"XTDE0860",
            Code::Xtde0890 => *b"XTDE0890",
            Code::Xtde1061 => *b"XTDE1061",
            Code::Xtde1071 => *b"XTDE1071",
            Code::Xtte1100 => *b"XTTE1100",
            Code::Xtte3360 => *b"XTTE3360",
            Code::Xtde3362 => *b"XTDE3362",
            Code::Sxst0001 => *b"SXST0001",
            Code::Sxst0002 => *b"SXST0002",
            Code::Sxst0003 => *b"SXST0003",
            Code::Sxst0004 => *b"SXST0004",
            Code::Sxst0005 => *b"SXST0005",
            Code::Sxde0001 => *b"SXDE0001",
            Code::Sxli0001 => *b"SXLI0001",
            Code::Sxli0002 => *b"SXLI0002",
            Code::Sxli0003 => *b"SXLI0003",
            Code::Sxli0004 => *b"SXLI0004",
        }
    }
}
