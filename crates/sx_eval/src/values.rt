// What expressions give.
use sx_atoms::Code;

/// Why there is no value.
#[derive(Clone, Copy, Debug, PartialEq, Eq)]
pub enum Stop {
    /// an error of the Recommendation's, or a limit that is passed
    Code(Code),
    /// what would be looked at has not come
    Open,
}
