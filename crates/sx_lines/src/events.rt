// The events of a result.
use sqlite_items::Items;
use sx_tree::Chars;

/// A printed attribute: its name as it is printed, and its value.
#[derive(Drop)]
pub struct Pair {
    pub name: Chars,
    pub value: Chars,
}

/// The printed attributes of an element, in the order in which they are printed.
pub type Pairs = Items<Pair>;

/// What a result is built of. Names are as they are printed.
#[derive(Drop)]
pub enum Built {
    /// an element begins
    Start { name: Chars, pairs: Pairs },
    /// the innermost open element, which has this name, ends
    End { name: Chars },
    /// a text
    Text(Chars),
    /// a processing instruction
    Pi { target: Chars, content: Chars },
}

/// What a result is built of, in order.
pub type Builts = Items<Built>;
