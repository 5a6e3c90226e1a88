// The run of text that may go on.
ghost use Rattle.std.specs.Prelude.{◌≡◌, [], ◌++◌, length, OnOk, IfOk};
ghost use Rattle.sx_events.specs.Course.{run_in};
ghost use Rattle.sx_events.specs.Pending.{IsRun};

use crate::pending::Waiting;
use std::alloc::{AllocError, Global};
use std::mem;
use sx_tree::{Chars, Event};

/// The text lines that have come one behind the other, as one text, and the number of the last of them.
#[doc(hidden)]
#[derive(Drop)]
pub struct Run {
    text: Chars,
    line: u64,
}

impl Run {
    /// No text.
    pub fn new(alloc: Global) -> Run
        ensures text { result.text ≡ [] }
        ensures line { result.line ≡ 0 }
    {
        Run {
            text: Chars::new(alloc),
            line: 0,
        }
    }

    /// How many bytes the text has.
    pub fn len(&self) -> usize
        ensures { result ≡ length self.now.text }
    {
        self.text.as_str().len()
    }

    /// Puts the text of the line with this number behind it.
    pub fn push(&mut self, text: &str, line: u64) -> Result<(), AllocError>
        ensures text { OnOk result (self.new.text ≡ self.old.text ++ text.now) }
        ensures line { OnOk result (self.new.line ≡ line) }
    {
        self.text.push_str(text)?;
        self.line = line;
        Ok(())
    }

    /// Takes the text as an event, where it is not empty.
    pub fn take(&mut self, alloc: Global) -> Option<Waiting>
        ensures taken { IsRun result (run_in self.old.text self.old.line) }
        ensures text { self.new.text ≡ [] }
        ensures line { self.new.line ≡ 0 }
    {
        let line = self.line;
        self.line = 0;
        if self.text.as_str().is_empty() {
            return None;
        }
        Some(Waiting {
            event: Event::Text(mem::replace(&mut self.text, Chars::new(alloc))),
            line,
        })
    }
}
