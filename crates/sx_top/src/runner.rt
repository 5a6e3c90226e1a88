// The runner: events of a document in, the bytes of a stylesheet's result out, and no tree between.
ghost use Rattle.std.specs.Prelude.{◌≡◌, ◌++◌, [], IfOk, OnOk};
ghost use Rattle.sx_kinds.specs.declared.sheets.Sheet.{Sheet as Stylesheet};
ghost use Rattle.sx_lines.specs.Print.{is_text_event, print_all, ends_in_text, ending_of};
ghost use Rattle.sx_machine.specs.Session as machine;
ghost use Rattle.sx_limits.specs.declared.limits.Limits.{Limits as Bounds};
ghost use Rattle.sx_names.specs.Numbering.{NameTable};
ghost use Rattle.sx_top.specs.Runner.{ended_in};

use crate::feeding::EventTaker;
use std::alloc::{AllocError, Global};
use sx_lines::Built;
use sx_machine::{Session, State};
use sx_names::Names;
use sx_reading::{Input, Outcome};
use sx_tree::Event;

/// Runs a stylesheet on a document as its events come.
#[derive(Drop)]
pub(crate) struct Runner {
    session: Session,
    due: Vec<u8>,
    after_text: bool,
}

// Whether a built event is a text.
fn is_text(event: &Built) -> bool
    ensures { result ≡ is_text_event event.now }
{
    match event {
        Built::Text(_) => true,
        _ => false,
    }
}

// Prints events behind what is due, and says whether a text line is unfinished behind them.
fn print(due: &mut Vec<u8>, after_text: bool, events: &[Built]) -> Result<bool, AllocError>
    ensures due { OnOk result (due.new.items ≡ due.old.items ++ print_all after_text events.now) }
    ensures text { IfOk result (λ text. text ≡ ends_in_text after_text events.now) }
{
    let mut text = after_text;
    for event in events {
        sx_lines::append(due, text, event)?;
        text = is_text(event);
    }
    Ok(text)
}

// Prints what ends a whole result.
fn print_ending(due: &mut Vec<u8>, after_text: bool) -> Result<(), AllocError>
    ensures { OnOk result (due.new.items ≡ due.old.items ++ ending_of after_text) }
{
    let ending = sx_lines::ending(after_text);
    due.extend_from_slice(&ending[..sx_lines::ending_len(after_text)])?;
    Ok(())
}

// Where a run ends whose session is in this state.
fn ended_in(state: State) -> Option<Outcome>
    ensures { result ≡ ended_in state }
{
    match state {
        State::Going => None,
        State::Stopped(code) => Some(Outcome::Dynamic { code }),
        State::Closed => Some(Outcome::Done),
        State::Spent => None,
    }
}

impl Runner {
    ghost use Rattle.sx_top.specs.Runner.{run_meaning, Runs};

    /// A runner of which nothing was printed.
    pub fn new(alloc: Global, session: Session) -> Runner
        ensures { (sheet : Stylesheet) (names : NameTable) (limits : Bounds)
            → machine.Stands sheet names limits.invocations session [] 0
            → Runs result (run_meaning sheet names limits) names [] [] }
    {
        Runner {
            session,
            due: Vec::new(alloc),
            after_text: false,
        }
    }
}

impl EventTaker for Runner {
    ghost use Rattle.sx_top.specs.Runner.{Runs};

    ghost stands = { Runs };

    fn input(&self) -> Input {
        Input::Document
    }

    fn take(&mut self, event: Event, _line: u64, names: &mut Names) -> Result<(), AllocError> {
        self.session.feed(event, names)?;
        self.after_text = print(&mut self.due, self.after_text, self.session.output())?;
        self.session.clear_output();
        match self.session.state() {
            State::Closed => print_ending(&mut self.due, self.after_text),
            _ => Ok(()),
        }
    }

    fn ended(&self) -> Option<Outcome> {
        ended_in(self.session.state())
    }

    fn due(&self) -> &[u8] {
        &self.due
    }

    fn clear_due(&mut self) {
        self.due.clear();
    }
}
