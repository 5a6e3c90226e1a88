// What is wrong with a document.
ghost use Rattle.std.specs.Prelude.{◌≡◌};
ghost use Rattle.sx_limits.specs.Faults.{is_limit, fault_name};

use thiserror::Error;

/// What is wrong with a document: what cannot be read, then the limits that it can go beyond.
#[derive(Clone, Copy, Debug, PartialEq, Eq)]
pub enum Which {
    /// A line is not UTF-8, or has a zero byte.
    NotUtf8,
    /// An escape is none.
    BadEscape,
    /// A line is empty, begins with a character that no command has, has a wrong name, or more than it may.
    BadCommand,
    /// The type of an attribute is none, or a namespace declaration is not allowed (Namespaces in XML 1.0, 3).
    BadAttr,
    /// An escape stands for system data.
    Sdata,
    /// A line has an entity, a subdocument, a data or a link attribute.
    Unsupported,
    /// A line behind attribute lines is no start of an element.
    LooseAttr,
    /// An end is not that of the innermost open element, or the document conforms where an element is open.
    EndMismatch,
    /// A line stands behind the end of the root element or of the document.
    AfterRoot,
    /// A text, an end, or the end of the document has no root element before it.
    NoRoot,
    /// The input ends where an element is open.
    Truncated,
    /// Two attributes of an element have one name, or two of its declarations one prefix.
    DoubleAttr,
    /// A prefix is bound to no namespace (Namespaces in XML 1.0, 5).
    UnboundPrefix,
    /// A line has more bytes than the limit.
    Line,
    /// A run of text has more bytes than the limit.
    TextRun,
    /// An element has more attributes than the limit.
    Attrs,
    /// More elements are open than the limit.
    Depth,
    /// A document has more bytes than the limit.
    Bytes,
    /// A document has more nodes than the limit.
    Nodes,
}

impl Which {
    /// Whether the document goes beyond a limit.
    pub fn is_limit(self) -> bool
        ensures { result ≡ is_limit self }
    {
        matches!(
            self,
            Which::Line | Which::TextRun | Which::Attrs | Which::Depth | Which::Bytes | Which::Nodes
        )
    }

    /// The name that diagnostic lines have for it.
    pub fn name(self) -> &'static str
        ensures { result.now ≡ fault_name self }
    {
        match self {
            Which::NotUtf8 => "NotUtf8",
            Which::BadEscape => "BadEscape",
            Which::BadCommand => "BadCommand",
            Which::BadAttr => "BadAttr",
            Which::Sdata => "Sdata",
            Which::Unsupported => "Unsupported",
            Which::LooseAttr => "LooseAttr",
            Which::EndMismatch => "EndMismatch",
            Which::AfterRoot => "AfterRoot",
            Which::NoRoot => "NoRoot",
            Which::Truncated => "Truncated",
            Which::DoubleAttr => "DoubleAttr",
            Which::UnboundPrefix => "UnboundPrefix",
            Which::Line => "Line",
            Which::TextRun => "TextRun",
            Which::Attrs => "Attrs",
            Which::Depth => "Depth",
            Which::Bytes => "Bytes",
            Which::Nodes => "Nodes",
        }
    }
}

/// Where a document is broken off: what is wrong, and the number of the line, counted from 1.
#[derive(Clone, Copy, Debug, PartialEq, Eq, Error)]
#[error("{} on line {line}", .which.name())]
pub struct DocFault {
    /// What is wrong.
    pub which: Which,
    /// The number of the line, from 1; at the end of the input one more than there are lines.
    pub line: u64,
}
