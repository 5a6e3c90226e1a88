// How many arguments a function takes, and what it does with their nodes.
ghost use Rattle.std.specs.Prelude.{◌≡◌};
ghost use Rattle.sx_atoms.specs.Signature as spec;

use crate::Usage;

/// How many arguments a function takes, from `least` to `most`, and what it does with the nodes of the first one and of the
/// others. An argument that is the context item where it is missing counts as not needed.
#[derive(Clone, Copy, Debug, PartialEq, Eq)]
pub struct Signature {
    pub least: u8,
    pub most: u8,
    pub first: Usage,
    pub rest: Usage,
}

impl Signature {
    /// Whether the function takes this many arguments.
    pub fn allows(&self, count: usize) -> bool
        ensures { result ≡ spec.allows self.now count }
    {
        self.least as usize <= count && count <= self.most as usize
    }
}
