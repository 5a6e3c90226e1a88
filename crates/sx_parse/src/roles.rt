// What tokens are in what was read.

/// What a token is in an expression, as far as it can fail.
#[derive(Clone, Copy, Debug, PartialEq, Eq)]
pub enum Role {
    /// anything else
    Plain,
    /// the name of an element, an attribute or a variable
    Name,
    /// `p:*` or `*:n`
    Wild,
    /// the name of a function
    Function,
    /// the name of a type
    Type,
    /// a literal
    Literal,
    /// it opens parentheses, a predicate, an expression that begins with a word, or a further binding of one; how many are
    /// open with it
    Opens(u64),
    /// it closes a call: the place of the function's name, and the number of arguments
    Closes { function: u32, arguments: u64 },
}
