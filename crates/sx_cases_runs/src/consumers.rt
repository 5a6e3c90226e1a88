// The reading loop over a consumer that gives bytes back.
ghost use Rattle.std.specs.Prelude.{◌≡◌, []};
ghost use Rattle.sx_desk.specs.Mem.{mem_seen};

use crate::desks::mem_desk;
use crate::endings::ending;
use crate::settings::Settings;
use std::alloc::{AllocError, Global};
use sx_desk::{Desk, MemDesk, Out};
use sx_limits::{DocFault, Which};
use sx_reading::{Consumer, Input, Outcome, Status, transfer};

// Gives each letter back, up to the first byte that is none, and a full stop at the end.
#[derive(Drop)]
struct Echo {
    due: Vec<u8>,
    outcome: Option<Outcome>,
}

impl Consumer for Echo {
    ghost stands = { λ _ _ _ _ _ _. ⊥ };

    ghost keeps = { λ _ _. Unit {0} };

    ghost keeps_same = { λ c. tt };

    ghost keeps_then = { λ a b c p q. tt };

    fn feed(&mut self, piece: &[u8]) -> Result<(), AllocError> {
        for byte in piece {
            if !byte.is_ascii_alphabetic() {
                self.outcome = Some(broken());
                return Ok(());
            }
            self.due.push(*byte)?;
        }
        Ok(())
    }

    fn finish(&mut self) -> Result<(), AllocError> {
        self.due.push(b'.')?;
        self.outcome = Some(Outcome::Done);
        Ok(())
    }

    fn output(&self) -> &[u8] {
        &self.due
    }

    fn clear_output(&mut self) {
        self.due.clear();
    }

    fn outcome(&self) -> Option<Outcome> {
        self.outcome
    }
}

fn broken() -> Outcome {
    Outcome::Broken {
        input: Input::Document,
        fault: DocFault {
            which: Which::BadCommand,
            line: 1,
        },
    }
}

fn echoed(alloc: Global, desk: &mut MemDesk) -> Status
    requires { (mem_seen desk.old).opened ≡ [] }
{
    let mut consumer = Echo {
        due: Vec::new(alloc),
        outcome: None,
    };
    match desk.open_file("doc") {
        Ok(file) => transfer(alloc, file, desk, &mut consumer),
        Err(_) => Status::OpenFault,
    }
}

/// How the loop ends over a text. It writes no diagnostic line: that of its status is shown.
pub fn transferred(alloc: Global, settings: &Settings, text: &str) -> Result<String, AllocError> {
    let mut desk = mem_desk(alloc, settings, "none", text)?;
    let status = echoed(alloc, &mut desk);
    let said = status.diagnostic();
    let result = desk.written(Out::Result);
    ending(alloc, &status, text, result, Some(said.as_slice()))
}
