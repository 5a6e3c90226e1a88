// Where selections end.
use sx_atoms::Code;

/// Where the items of a selection end.
#[derive(Clone, Copy, Debug, PartialEq, Eq)]
pub enum SelEnd {
    /// these are all
    Done,
    /// more may come, since something that is looked at is open
    Open,
    /// behind these there is an error
    Code(Code),
}
