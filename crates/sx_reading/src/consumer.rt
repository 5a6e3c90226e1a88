// What the reading loop needs of what it feeds.
ghost use Rattle.std.specs.Prelude.{◌≡◌, List, ℕ, Bool, true, false, ◌++◌, OnOk};
ghost use Rattle.sx_reading.specs.Transforming.{WrittenFor, OutcomeFor, IsMeaning, status_of};

use crate::{Input, Status};
use std::alloc::AllocError;
use sx_atoms::Code;
use sx_limits::DocFault;

/// Where the bytes of a document end.
#[derive(Clone, Copy, Debug, PartialEq, Eq)]
pub enum Outcome {
    /// The whole result was given.
    Done,
    /// An error of the Recommendation's, found while the document was read.
    Dynamic {
        /// That error.
        code: Code,
    },
    /// An input is broken off.
    Broken {
        /// That input.
        input: Input,
        /// What is wrong with it, and where.
        fault: DocFault,
    },
}

impl Outcome {
    /// The status of a call that ends so.
    pub fn status(self) -> Status
        ensures { result ≡ status_of self }
    {
        match self {
            Outcome::Done => Status::Ok,
            Outcome::Dynamic { code } => Status::Dynamic { code },
            Outcome::Broken { input, fault } if fault.which.is_limit() => Status::Limit {
                input,
                fault,
            },
            Outcome::Broken { input, fault } => Status::Malformed { input, fault },
        }
    }
}

/// Takes the bytes of a document as they come, and gives what can be written for them. What its clauses say holds for
/// each meaning of the bytes that it stands for.
pub trait Consumer {
    /// With this meaning of bytes: it was fed these, it was or was not told that the input has ended, and so much of
    /// what can be written was taken from it.
    ghost stands: { Self → WrittenFor → OutcomeFor → List ℕ → Bool → List ℕ → Type 0 };

    /// What no call of it changes.
    ghost keeps: { Self → Self → Type 0 };

    /// Takes the next bytes.
    fn feed(&mut self, piece: &[u8]) -> Result<(), AllocError>
        ensures fed { OnOk result ((written : WrittenFor) (outcome : OutcomeFor) (b w : List ℕ)
            → stands self.old written outcome b false w
            → stands self.new written outcome (b ++ piece.now) false w) }
        ensures keeps { keeps self.old self.new };

    /// Is told that the input has ended.
    fn finish(&mut self) -> Result<(), AllocError>
        ensures ended { OnOk result ((written : WrittenFor) (outcome : OutcomeFor) (b w : List ℕ)
            → stands self.old written outcome b false w
            → stands self.new written outcome b true w) }
        ensures keeps { keeps self.old self.new };

    /// What can be written and was not taken yet.
    fn output(&self) -> &[u8]
        ensures { (written : WrittenFor) (outcome : OutcomeFor) (b w : List ℕ) (ended : Bool)
            → stands self.now written outcome b ended w
            → w ++ result.now ≡ written b ended };

    /// Counts the output as taken.
    fn clear_output(&mut self)
        ensures taken { (written : WrittenFor) (outcome : OutcomeFor) (b w : List ℕ) (ended : Bool)
            → stands self.old written outcome b ended w
            → stands self.new written outcome b ended (written b ended) }
        ensures keeps { keeps self.old self.new };

    /// Where the bytes end, if they do.
    fn outcome(&self) -> Option<Outcome>
        ensures is { (written : WrittenFor) (outcome : OutcomeFor) (b w : List ℕ) (ended : Bool)
            → stands self.now written outcome b ended w
            → result ≡ outcome b ended }
        ensures meaning { (written : WrittenFor) (outcome : OutcomeFor) (b w : List ℕ) (ended : Bool)
            → stands self.now written outcome b ended w
            → IsMeaning written outcome };

    /// It keeps what it has.
    ghost keeps_same: { (c : Self) → keeps c c };

    /// What two calls keep is kept by one behind the other.
    ghost keeps_then: { (a b c : Self) → keeps a b → keeps b c → keeps a c };
}
