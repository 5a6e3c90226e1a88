// A reader of thin stylesheets, token by token.
ghost use Rattle.std.specs.Prelude.{◌≡◌, ◌+◌, ◌≤◌, ◌<◌, ◌^◌, List, ℕ, IfOk, IfSome};
ghost use Rattle.std.specs.Prelude.{Option, option_map, reverse};
ghost use Rattle.sx_named.specs.Named.{Name};
ghost use Rattle.sx_names.specs.Numbering.{NameTable, KeepsPlaces};
ghost use Rattle.sx_sheet.specs.Machine as machine;
ghost use Rattle.sx_sheet.specs.Machine.{state_of_reader};
ghost use Rattle.sx_sheet.specs.Numbers as numbers;
ghost use Rattle.sx_sheet.specs.Shown.{shown, IsShown};
ghost use Rattle.sx_sheet.specs.Steps.{StepsTo, StepsAs, StepsAt, StepsWithout};

use crate::stages::{Stage, TemplateStart};
use crate::tokens::Token;
use sqlite_items::Items;
use std::alloc::{AllocError, Global};
use sx_kinds::{
    Body, Construct, ConstructKind, Instr, InstrForm, NamePattern, OnNoMatch, Template, Templates,
};
use sx_names::Names;
use sx_tree::{Chars, Label};

/// An open literal element: the number of its name, its construct, and the body in front of it.
#[derive(Drop)]
pub(crate) struct Frame {
    pub number: u64,
    pub construct: Construct,
    pub before: Body,
}

/// What was read: the open elements with the outermost first, the body of the innermost one so far, and how many constructs
/// have started.
#[derive(Drop)]
pub(crate) struct Reader {
    pub stage: Stage,
    pub no_match: OnNoMatch,
    pub templates: Templates,
    pub outer: Items<Frame>,
    pub body: Body,
    pub constructs: u64,
}

fn literal(alloc: Global, construct: Construct, number: u64, body: Body) -> Instr
    ensures { result ≡ numbers.literal_with construct number body }
{
    Instr {
        construct,
        form: InstrForm::Literal {
            label: Label {
                number,
                prefix: Chars::new(alloc),
            },
        },
        body,
    }
}

fn text(alloc: Global, construct: Construct, text: Chars) -> Instr
    ensures { result ≡ numbers.text_with construct text }
{
    Instr {
        construct,
        form: InstrForm::Text(text),
        body: Items::new(alloc),
    }
}

fn apply(alloc: Global, construct: Construct) -> Instr
    ensures { result ≡ numbers.apply_with construct }
{
    Instr {
        construct,
        form: InstrForm::ApplyTemplates,
        body: Items::new(alloc),
    }
}

fn template(start: TemplateStart, body: Body) -> Template
    ensures { result ≡ numbers.template_with start.construct start.pattern body }
{
    Template {
        construct: start.construct,
        pattern: Some(start.pattern),
        body,
    }
}

// The construct that starts on this line behind so many.
fn next_construct(count: u64, line: u64, kind: ConstructKind) -> Construct
    requires { count < 2 ^ 62 }
    ensures { result ≡ numbers.construct_on line count kind }
{
    Construct {
        number: count + 1,
        line,
        kind,
    }
}

// The template that starts on this line behind so many constructs, and its pattern.
fn template_start(count: u64, line: u64, name: u64) -> TemplateStart
    requires { count < 2 ^ 62 }
    ensures { result ≡ machine.template_start line count name }
{
    TemplateStart {
        construct: next_construct(count, line, ConstructKind::Template),
        pattern: NamePattern {
            construct: Construct {
                number: count + 2,
                line,
                kind: ConstructKind::Pattern,
            },
            name,
        },
    }
}

impl Reader {
    /// A reader that was given no token.
    pub fn new(alloc: Global) -> Reader
        ensures { state_of_reader 0 result ≡ machine.first_state }
    {
        Reader {
            stage: Stage::Sheet,
            no_match: OnNoMatch::TextOnlyCopy,
            templates: Items::new(alloc),
            outer: Items::new(alloc),
            body: Items::new(alloc),
            constructs: 0,
        }
    }

    // The same at another stage, with one instruction more in the body.
    fn with(mut self, stage: Stage, instr: Instr) -> Result<Reader, AllocError>
        ensures step { IfOk result (λ r. StepsTo (λ state. machine.with_instr state stage instr) self r) }
        ensures near { IfOk result (λ r. r.constructs ≡ self.constructs) }
    {
        self.body.push(instr)?;
        Ok(Reader { stage, ..self })
    }

    // A token at a stage that expects but one.
    fn fixed(self, token: Token<'_>) -> Option<Reader>
        ensures step { StepsWithout (machine.fixed self.stage) token.entry self result }
        ensures near { IfSome result (λ r. r.constructs ≤ self.constructs + 2) }
    {
        match (self.stage, token) {
            (Stage::Sheet, Token::StartsSheet) => Some(Reader {
                stage: Stage::Mode,
                ..self
            }),
            (Stage::Mode, Token::StartsMode(no_match)) => Some(Reader {
                stage: Stage::ModeEnd,
                no_match,
                ..self
            }),
            (Stage::ModeEnd, Token::Ends) => Some(Reader {
                stage: Stage::Templates,
                ..self
            }),
            (Stage::TextEnd(template), Token::Ends) => Some(Reader {
                stage: Stage::Body(template),
                ..self
            }),
            (Stage::ApplyEnd(template), Token::Ends) => Some(Reader {
                stage: Stage::Body(template),
                ..self
            }),
            (Stage::Close, Token::Closes) => Some(Reader {
                stage: Stage::End,
                ..self
            }),
            _ => None,
        }
    }

    // A template starts, or the stylesheet ends.
    fn between(
        self,
        names: &mut Names,
        token: Token<'_>,
        line: u64,
    ) -> Result<Option<Reader>, AllocError>
        requires { self.constructs < 2 ^ 62 }
        ensures kept { KeepsPlaces names.old names.new }
        ensures step { IfOk result
            (λ r. StepsAs (λ look state. machine.between look line state (shown names.old token.entry))
            names.new self r) }
        ensures near { IfOk result (λ r. IfSome r (λ n. n.constructs ≤ self.constructs + 2)) }
    {
        match token {
            Token::StartsTemplate(name) => {
                let name = names.intern("", name)?;
                let start = template_start(self.constructs, line, name);
                Ok(Some(Reader {
                    stage: Stage::Body(start),
                    constructs: self.constructs + 2,
                    ..self
                }))
            }
            Token::Ends => Ok(Some(Reader {
                stage: Stage::Close,
                ..self
            })),
            _ => Ok(None),
        }
    }

    fn start_literal(
        self,
        alloc: Global,
        template: TemplateStart,
        number: u64,
        line: u64,
    ) -> Result<Reader, AllocError>
        requires { self.constructs < 2 ^ 62 }
        ensures step { IfOk result
            (λ r. StepsTo (λ state. machine.with_literal line template state number) self r) }
        ensures near { IfOk result (λ r. r.constructs ≤ self.constructs + 2) }
    {
        let mut outer = self.outer;
        outer.push(Frame {
            number,
            construct: next_construct(self.constructs, line, ConstructKind::Literal),
            before: self.body,
        })?;
        Ok(Reader {
            stage: Stage::Body(template),
            no_match: self.no_match,
            templates: self.templates,
            outer,
            body: Items::new(alloc),
            constructs: self.constructs + 1,
        })
    }

    // The innermost literal element ends, or the template where none is open.
    fn end_innermost(
        self,
        alloc: Global,
        template_start: TemplateStart,
    ) -> Result<Reader, AllocError>
        ensures step { IfOk result
            (λ r. StepsTo (λ state. machine.end_innermost template_start state (reverse self.outer)) self
            r) }
        ensures near { IfOk result (λ r. r.constructs ≡ self.constructs) }
    {
        let mut outer = self.outer;
        let mut templates = self.templates;
        match outer.pop() {
            None => {
                templates.push(template(template_start, self.body))?;
                Ok(Reader {
                    stage: Stage::Templates,
                    no_match: self.no_match,
                    templates,
                    outer,
                    body: Items::new(alloc),
                    constructs: self.constructs,
                })
            }
            Some(
                Frame {
                    number,
                    construct,
                    mut before,
                },
            ) => {
                before.push(literal(alloc, construct, number, self.body))?;
                Ok(Reader {
                    stage: Stage::Body(template_start),
                    no_match: self.no_match,
                    templates,
                    outer,
                    body: before,
                    constructs: self.constructs,
                })
            }
        }
    }

    // In a body an instruction starts, or the innermost element ends.
    fn inside(
        self,
        alloc: Global,
        template: TemplateStart,
        token: Token<'_>,
        line: u64,
    ) -> Result<Option<Reader>, AllocError>
        requires { self.constructs < 2 ^ 62 }
        ensures step { IfOk result
            (λ r. StepsAt (λ look state shows. machine.inside_template look line template state shows)
            token.entry
            self r) }
        ensures near { IfOk result (λ r. IfSome r (λ n. n.constructs ≤ self.constructs + 2)) }
    {
        match token {
            Token::StartsLiteral(number) => {
                let next = self.start_literal(alloc, template, number, line)?;
                Ok(Some(next))
            }
            Token::StartsText => {
                let construct = next_construct(self.constructs, line, ConstructKind::Text);
                Ok(Some(Reader {
                    stage: Stage::Text(template, construct),
                    constructs: self.constructs + 1,
                    ..self
                }))
            }
            Token::StartsApply => {
                let next = self.start_apply(alloc, template, line)?;
                Ok(Some(next))
            }
            Token::Ends => {
                let next = self.end_innermost(alloc, template)?;
                Ok(Some(next))
            }
            _ => Ok(None),
        }
    }

    fn start_apply(
        mut self,
        alloc: Global,
        template: TemplateStart,
        line: u64,
    ) -> Result<Reader, AllocError>
        requires { self.constructs < 2 ^ 62 }
        ensures step { IfOk result (λ r. StepsTo (machine.with_apply line template) self r) }
        ensures near { IfOk result (λ r. r.constructs ≤ self.constructs + 2) }
    {
        let construct = next_construct(self.constructs, line, ConstructKind::ApplyTemplates);
        self.body.push(apply(alloc, construct))?;
        Ok(Reader {
            stage: Stage::ApplyEnd(template),
            constructs: self.constructs + 1,
            ..self
        })
    }

    // What this `xsl:text` says, or its end.
    fn in_text(
        self,
        alloc: Global,
        template: TemplateStart,
        construct: Construct,
        token: Token<'_>,
    ) -> Result<Option<Reader>, AllocError>
        ensures step { IfOk result
            (λ r. StepsWithout (machine.in_text template construct) token.entry self r) }
        ensures near { IfOk result (λ r. IfSome r (λ n. n.constructs ≤ self.constructs + 2)) }
    {
        match token {
            Token::Says(said) if !said.is_empty() => {
                let said = Chars::copy(alloc, said)?;
                let next = self.with(Stage::TextEnd(template), text(alloc, construct, said))?;
                Ok(Some(next))
            }
            Token::Ends => {
                let empty = text(alloc, construct, Chars::new(alloc));
                let next = self.with(Stage::Body(template), empty)?;
                Ok(Some(next))
            }
            _ => Ok(None),
        }
    }

    /// Takes one token more, which is on this line, or gives `None` where it may not stand there.
    pub fn step(
        self,
        alloc: Global,
        names: &mut Names,
        token: Token<'_>,
        line: u64,
    ) -> Result<Option<Reader>, AllocError>
        requires small { self.constructs < 2 ^ 62 }
        requires known { IsShown names.old token }
        ensures kept { KeepsPlaces names.old names.new }
        ensures step { IfOk result
            (λ r. StepsAs (λ look state. machine.next_state look line state (shown names.old token.entry))
            names.new self r) }
        ensures near { IfOk result (λ r. IfSome r (λ n. n.constructs ≤ self.constructs + 2)) }
    {
        match self.stage {
            Stage::Templates => self.between(names, token, line),
            Stage::Body(template) => self.inside(alloc, template, token, line),
            Stage::Text(template, construct) => self.in_text(alloc, template, construct, token),
            _ => Ok(self.fixed(token)),
        }
    }
}
