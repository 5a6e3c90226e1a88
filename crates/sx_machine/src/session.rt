// The session.
ghost use Rattle.std.specs.Prelude.{◌≡◌, ◌<◌, ◌∷◌, [], ◌++◌, ℕ, List, Bool, true};
ghost use Rattle.std.specs.Prelude.{false, suc, Some, None, length, drop, map, slice_get, IfOk, IfSome};
ghost use Rattle.std.specs.Prelude.{IsErr, OnOk, OnErr};
ghost use Rattle.sx_build.specs.Asked.{asked_at};
ghost use Rattle.sx_kinds.specs.declared.sheets.Sheet.{Sheet as Stylesheet};
ghost use Rattle.sx_machine.specs.declared.plans.Rule.{Rule as RuleOf};
ghost use Rattle.sx_machine.specs.declared.session.Job.TheVariants as job;
ghost use Rattle.sx_machine.specs.declared.session.State.TheVariants as state;
ghost use Rattle.sx_machine.specs.Choice.{chosen_for, built_in_template};
ghost use Rattle.sx_machine.specs.Meaning.{is_copying_first};
ghost use Rattle.sx_machine.specs.Plan.{read_raws, read_plan, plan_of, job_of, after_rule, after_at, task_of};
ghost use Rattle.sx_machine.specs.Plan.{last_job};
ghost use Rattle.sx_machine.specs.Run.{Ending, ending_with};
ghost use Rattle.sx_machine.specs.Session.{root_job, first_state, state_of, is_spent_state};
ghost use Rattle.sx_names.specs.Numbering.{NameTable, KeepsPlaces, IsDistinct};

use crate::plans::{Plan, Rule};
use crate::rule_table::RuleTable;
use crate::writer::Writer;
use sqlite_items::Items;
use std::alloc::{AllocError, Global};
use sx_atoms::Code;
use sx_build::Raw;
use sx_kinds::{Mode, OnNoMatch, Sheet};
use sx_lines::Built;
use sx_names::Names;
use sx_tree::{Attrs, Chars, Event, Label};

/// What the children of an open element are for.
#[derive(Clone, Copy, Debug, PartialEq, Eq)]
pub enum Job {
    /// nothing
    Skip,
    /// templates are applied to them, where so many invocations are left
    Apply(u64),
}

/// What comes behind the children of an open element.
#[derive(Clone, Copy, Debug, PartialEq, Eq)]
pub enum After {
    /// nothing
    Nothing,
    /// what the rule at this place gives behind them
    Rule(usize),
    /// the end of the element's copy
    Copy,
}

/// An open element.
#[derive(Clone, Copy, Debug, PartialEq, Eq)]
pub struct Frame {
    pub job: Job,
    pub after: After,
}

/// Whether a session goes on.
#[derive(Clone, Copy, Debug, PartialEq, Eq)]
pub enum State {
    /// It takes events.
    Going,
    /// There is an error.
    Stopped(Code),
    /// The document was closed.
    Closed,
    /// Memory was wanting.
    Spent,
}

/// What a session answers to an event.
#[derive(Clone, Copy, Debug, PartialEq, Eq)]
pub enum Step {
    /// There is no error.
    Going,
    /// There is an error, which stays the answer.
    Stopped(Code),
}

/// Runs a stylesheet on a document as its events come.
///
/// Contracts say by `Stands` which stylesheet it runs, what happened in the document, and how many built events were taken.
#[derive(Drop)]
pub struct Session {
    alloc: Global,
    rules: RuleTable,
    is_copying: bool,
    root: Job,
    frames: Items<Frame>,
    writer: Writer,
    state: State,
}

// Whether the first of these modes copies nodes that no template matches.
fn copies_unmatched(modes: &[Mode]) -> bool
    ensures { result ≡ is_copying_first modes.now }
{
    match modes.first() {
        Some(mode) => matches!(mode.no_match, OnNoMatch::ShallowCopy),
        None => false,
    }
}

// The work for the children of the document node, where there may be so many invocations, one of them its own.
fn work_at_root(invocations: u64) -> Job
    ensures { result ≡ root_job invocations }
{
    if invocations == 0 {
        return Job::Skip;
    }
    Job::Apply(invocations - 1)
}

// The state before the first event.
fn state_at_start(invocations: u64) -> State
    ensures { result ≡ first_state invocations }
{
    if invocations == 0 {
        return State::Stopped(Code::Sxli0001);
    }
    State::Going
}

// Stopped by this error, or else as it is without an error.
fn state_with(error: Option<Code>, otherwise: State) -> State
    ensures state { (e : Ending) → otherwise ≡ state_of e → result ≡ state_of (ending_with error e) }
    ensures kept { is_spent_state otherwise ≡ false → is_spent_state result ≡ false }
{
    match error {
        Some(code) => State::Stopped(code),
        None => otherwise,
    }
}

// What the rule at a place gives behind the children.
fn behind_in(rules: &[Rule], place: usize) -> &[Raw]
    ensures { (names : NameTable)
        → read_raws names result.now ≡ after_rule names (slice_get rules.now place) }
{
    match rules.get(place) {
        Some(rule) => match &rule.plan.behind {
            Some(after) => after.as_slice(),
            None => &[],
        },
        None => &[],
    }
}

// The work for the children of an element with this plan, where so many invocations are left for them.
fn job_for(plan: &Plan, left: u64) -> Job
    ensures { (names : NameTable) → result ≡ job_of left (read_plan names plan.now) }
{
    if plan.behind.is_some() {
        return Job::Apply(left);
    }
    Job::Skip
}

// The work for the children of the innermost open element, or for those of the document node.
fn job_in(frames: &[Frame], root: Job) -> Job
    ensures { (names : NameTable) (rules : List RuleOf)
        → result ≡ last_job root (map (task_of names rules) frames.now) }
{
    match frames.last() {
        Some(frame) => frame.job,
        None => root,
    }
}

impl Session {
    ghost use Rattle.sx_machine.specs.Growth.{MayCome};
    ghost use Rattle.sx_machine.specs.Meaning.{IsReady, result_for};
    ghost use Rattle.sx_machine.specs.Session.{StandsOn, Stands, Wrote, Advances, AdvancesToClose, IsOutput};
    ghost use Rattle.sx_machine.specs.Session.{AllTaken, step_from, is_spent};
    ghost use Rattle.sx_machine.specs.Steps.{AdvancesBy, AdvancesByClose, AdvancesByEnd, AdvancesByStart};
    ghost use Rattle.sx_machine.specs.Steps.{Enters, Invokes, Copies};
    ghost use Rattle.sx_named.specs.Named.{NamedElement, named_in_tree, name_at, attributes_at, IsKnown};
    ghost use Rattle.sx_tree.specs.Tree.{Document, TreeEvent, push, starts, ends, says, instructs, closes};
    ghost use Rattle.sx_tree.specs.Tree.{has_open};

    /// A session of a stylesheet that was fed nothing, where so many invocations of templates may be open at once, one of
    /// them that at the document node. Where there may be none it has stopped with SXLI0001.
    pub fn start(
        alloc: Global,
        sheet: &Sheet,
        invocations: u64,
        names: &Names,
    ) -> Result<Session, AllocError>
        ensures stands { IfOk result (λ s. IsReady sheet.now names.now → IsDistinct names.now
            → Stands sheet.now names.now invocations s [] 0) }
        ensures spent { IfOk result (λ s. is_spent s ≡ false) }
    {
        Ok(Session {
            alloc,
            rules: RuleTable::new(alloc, sheet.templates.as_slice(), names)?,
            is_copying: copies_unmatched(sheet.modes.as_slice()),
            root: work_at_root(invocations),
            frames: Items::new(alloc),
            writer: Writer::new(alloc),
            state: state_at_start(invocations),
        })
    }

    /// Takes the next event of the document. It answers an error exactly where the result for the events ends in it, and
    /// goes on to answer that. After an `AllocError` the session is spent: each later call that takes an event answers one.
    pub fn feed(&mut self, e: Event, names: &mut Names) -> Result<Step, AllocError>
        ensures stands { OnOk result (Advances self.old self.new names.old e) }
        ensures answer { IfOk result (λ step. step ≡ step_from self.new.state) }
        ensures names { names.new ≡ names.old }
        ensures err { OnErr result (is_spent self.new ≡ true) }
        ensures spent { is_spent self.old ≡ true → IsErr result }
        ensures kept { OnOk result (is_spent self.new ≡ false) }
    {
        match self.state {
            State::Going => {}
            State::Stopped(code) => return Ok(Step::Stopped(code)),
            State::Closed => return Ok(Step::Going),
            State::Spent => return Err(AllocError),
        }
        match self.take(e, names) {
            Ok(()) => Ok(self.step()),
            Err(error) => {
                self.state = State::Spent;
                Err(error)
            }
        }
    }

    /// Is told that the document has ended well: it is fed `Event::Close`.
    pub fn finish(&mut self, names: &mut Names) -> Result<Step, AllocError>
        ensures stands { OnOk result (AdvancesToClose self.old self.new names.old) }
        ensures answer { IfOk result (λ step. step ≡ step_from self.new.state) }
        ensures names { names.new ≡ names.old }
        ensures err { OnErr result (is_spent self.new ≡ true) }
        ensures spent { is_spent self.old ≡ true → IsErr result }
        ensures kept { OnOk result (is_spent self.new ≡ false) }
    {
        self.feed(Event::Close, names)
    }

    /// The built events that are fixed and were not cleared yet, in order.
    pub fn output(&self) -> &[Built]
        ensures { IsOutput self.now result.now }
    {
        self.writer.output()
    }

    /// Drops the built events that are fixed: they were taken. It takes no memory.
    pub fn clear_output(&mut self)
        ensures stands { AllTaken self.old self.new }
        ensures state { self.new.state ≡ self.old.state }
    {
        self.writer.clear_output();
    }

    /// Whether the session goes on, or why not.
    pub fn state(&self) -> State
        ensures { result ≡ self.now.state }
    {
        self.state
    }

    // What is answered in this state.
    fn step(&self) -> Step
        ensures { result ≡ step_from self.now.state }
    {
        match self.state {
            State::Stopped(code) => Step::Stopped(code),
            _ => Step::Going,
        }
    }

    // Takes an event where the session goes on.
    fn take(&mut self, e: Event, names: &Names) -> Result<(), AllocError>
        requires { self.old.state ≡ state.Going }
        ensures stands { OnOk result (Advances self.old self.new names.now e) }
        ensures kept { OnOk result (is_spent self.new ≡ false) }
    {
        match e {
            Event::Start { label, attrs, .. } => self.start_element(label, attrs, names),
            Event::End => self.end_element(names),
            Event::Text(text) => self.say(text, names),
            Event::Pi { target, content } => self.instruct(target, content, names),
            Event::Close => {
                self.close();
                Ok(())
            }
        }
    }

    // The document is closed.
    fn close(&mut self)
        requires { self.old.state ≡ state.Going }
        ensures stands { AdvancesByClose self.old self.new }
        ensures kept { is_spent self.new ≡ false }
    {
        self.writer.finish();
        self.state = State::Closed;
    }

    // An element starts.
    fn start_element(&mut self, label: Label, attrs: Attrs, names: &Names) -> Result<(), AllocError>
        requires { self.old.state ≡ state.Going }
        ensures ok { OnOk result (AdvancesByStart self.old self.new names.now label attrs) }
        ensures kept { OnOk result (is_spent self.new ≡ false) }
    {
        match job_in(self.frames.as_slice(), self.root) {
            Job::Skip => self.frames.push(Frame {
                job: Job::Skip,
                after: After::Nothing,
            }),
            Job::Apply(left) => {
                if left == 0 {
                    self.state = State::Stopped(Code::Sxli0001);
                    return Ok(());
                }
                self.enter(left - 1, label, attrs, names)
            }
        }
    }

    // A template is invoked at an element, where so many invocations are left for its attributes and children.
    fn enter(
        &mut self,
        left: u64,
        label: Label,
        attrs: Attrs,
        names: &Names,
    ) -> Result<(), AllocError>
        requires { self.old.state ≡ state.Going }
        ensures ok { OnOk result (Enters left self.old self.new names.now label attrs) }
        ensures kept { OnOk result (is_spent self.new ≡ false) }
    {
        match self.rules.find(label.number) {
            Some(place) => self.invoke(left, place, names),
            None if self.is_copying => self.copy_element(left, label, attrs, names),
            None => self.frames.push(Frame {
                job: Job::Apply(left),
                after: After::Nothing,
            }),
        }
    }

    // The rule at this place is invoked.
    fn invoke(&mut self, left: u64, place: usize, names: &Names) -> Result<(), AllocError>
        requires going { self.old.state ≡ state.Going }
        requires within { place < length self.old.rules.list }
        ensures ok { OnOk result (Invokes left self.old self.new names.now place) }
        ensures kept { OnOk result (is_spent self.new ≡ false) }
    {
        let plan = &self.rules.as_slice()[place].plan;
        self.writer
            .push_all(self.alloc, plan.before.as_slice(), names)?;
        self.frames.push(Frame {
            job: job_for(plan, left),
            after: After::Rule(place),
        })?;
        self.state = state_with(self.writer.error(), State::Going);
        Ok(())
    }

    // An element that no template matches is copied.
    fn copy_element(
        &mut self,
        left: u64,
        label: Label,
        attrs: Attrs,
        names: &Names,
    ) -> Result<(), AllocError>
        requires { self.old.state ≡ state.Going }
        ensures ok { OnOk result (Copies left self.old self.new names.now label attrs) }
        ensures kept { OnOk result (is_spent self.new ≡ false) }
    {
        self.writer.push(Raw::Start(label), names)?;
        if left == 0 && !attrs.is_empty() {
            self.state = state_with(self.writer.error(), State::Stopped(Code::Sxli0001));
            return Ok(());
        }
        self.writer.push_attributes(self.alloc, attrs, names)?;
        self.frames.push(Frame {
            job: Job::Apply(left),
            after: After::Copy,
        })?;
        self.state = state_with(self.writer.error(), State::Going);
        Ok(())
    }

    // The innermost open element ends, if one is open.
    fn end_element(&mut self, names: &Names) -> Result<(), AllocError>
        requires { self.old.state ≡ state.Going }
        ensures ok { OnOk result (AdvancesByEnd self.old self.new names.now) }
        ensures kept { OnOk result (is_spent self.new ≡ false) }
    {
        match self.frames.pop() {
            Some(frame) => self.leave(frame.after, names),
            None => Ok(()),
        }
    }

    // What comes behind the children of an element is asked for.
    fn leave(&mut self, after: After, names: &Names) -> Result<(), AllocError>
        requires { self.old.state ≡ state.Going }
        ensures ok { OnOk result (Wrote self.old self.new
            (after_at names.now self.old.rules.list after).raw) }
        ensures frames { self.new.frames ≡ self.old.frames }
        ensures kept { OnOk result (is_spent self.new ≡ false) }
    {
        match after {
            After::Nothing => Ok(()),
            After::Rule(place) => {
                let behind = behind_in(self.rules.as_slice(), place);
                self.writer.push_all(self.alloc, behind, names)?;
                self.state = state_with(self.writer.error(), State::Going);
                Ok(())
            }
            After::Copy => self.write(Raw::End, names),
        }
    }

    // One thing is asked for.
    fn write(&mut self, raw: Raw, names: &Names) -> Result<(), AllocError>
        ensures ok { OnOk result (Wrote self.old self.new (asked_at names.now raw ∷ [])) }
        ensures frames { self.new.frames ≡ self.old.frames }
        ensures kept { OnOk result (is_spent self.new ≡ false) }
    {
        self.writer.push(raw, names)?;
        self.state = state_with(self.writer.error(), State::Going);
        Ok(())
    }

    // A text comes: the built-in template copies it.
    fn say(&mut self, text: Chars, names: &Names) -> Result<(), AllocError>
        requires { self.old.state ≡ state.Going }
        ensures ok { OnOk result (AdvancesBy self.old self.new (says text)) }
        ensures kept { OnOk result (is_spent self.new ≡ false) }
    {
        match job_in(self.frames.as_slice(), self.root) {
            Job::Skip => Ok(()),
            Job::Apply(left) => {
                if left == 0 {
                    self.state = State::Stopped(Code::Sxli0001);
                    return Ok(());
                }
                self.write(Raw::Text(text), names)
            }
        }
    }

    // A processing instruction comes: the built-in template copies it, or gives nothing.
    fn instruct(&mut self, target: Chars, content: Chars, names: &Names) -> Result<(), AllocError>
        requires { self.old.state ≡ state.Going }
        ensures ok { OnOk result (AdvancesBy self.old self.new (instructs target content)) }
        ensures kept { OnOk result (is_spent self.new ≡ false) }
    {
        match job_in(self.frames.as_slice(), self.root) {
            Job::Skip => Ok(()),
            Job::Apply(left) => {
                if left == 0 {
                    self.state = State::Stopped(Code::Sxli0001);
                    return Ok(());
                }
                if !self.is_copying {
                    return Ok(());
                }
                self.write(Raw::Pi { target, content }, names)
            }
        }
    }
}
