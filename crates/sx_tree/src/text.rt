// Text that contracts see as its bytes.
ghost use Rattle.std.specs.Prelude.{◌≡◌, [], ◌++◌, IfOk, OnOk, OnErr};

use std::alloc::{AllocError, Global};
use std::marker::Model;

/// A text of its own. Contracts see the list of its bytes.
#[derive(Drop)]
pub struct Chars {
    inner: String,
}

impl Model for Chars {
    ghost use Rattle.std.specs.Prelude.{List, ℕ, string_bytes};

    ghost Value = { List ℕ };

    ghost view = { λ c. string_bytes c.inner };
}

impl Chars {
    /// The empty text. It takes no memory.
    pub fn new(alloc: Global) -> Chars
        ensures { result ≡ [] }
    {
        Chars {
            inner: String::new(alloc),
        }
    }

    /// A copy of a text.
    pub fn copy(alloc: Global, s: &str) -> Result<Chars, AllocError>
        ensures { IfOk result (λ c. c ≡ s.now) }
    {
        Ok(Chars {
            inner: String::from_str(alloc, s)?,
        })
    }

    /// Puts a text behind this one. After an `AllocError` nothing has changed.
    pub fn push_str(&mut self, more: &str) -> Result<(), AllocError>
        ensures ok { OnOk result (self.new ≡ self.old ++ more.now) }
        ensures err { OnErr result (self.new ≡ self.old) }
    {
        self.inner.push_str(more)
    }

    /// The text.
    pub fn as_str(&self) -> &str
        ensures { result.now ≡ self.now }
    {
        self.inner.as_str()
    }
}
