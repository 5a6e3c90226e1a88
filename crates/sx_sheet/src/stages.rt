// What a reader of thin stylesheets expects.
ghost use Rattle.std.specs.Prelude.{◌≡◌};
ghost use Rattle.sx_sheet.specs.Machine as machine;

use sx_kinds::{Construct, NamePattern};

/// A template without its body.
#[derive(Clone, Copy)]
pub(crate) struct TemplateStart {
    pub construct: Construct,
    pub pattern: NamePattern,
}

/// What comes next.
#[derive(Clone, Copy)]
pub(crate) enum Stage {
    /// the start of the stylesheet
    Sheet,
    /// the start of its mode
    Mode,
    ModeEnd,
    /// a template, or the end of the stylesheet
    Templates,
    /// an instruction, or the end of the innermost literal element or of the template
    Body(TemplateStart),
    /// what this `xsl:text` says, or its end
    Text(TemplateStart, Construct),
    TextEnd(TemplateStart),
    ApplyEnd(TemplateStart),
    /// the end of the input
    Close,
    /// nothing
    End,
}

impl Stage {
    /// Whether nothing is left to be read.
    pub fn is_last(self) -> bool
        ensures { result ≡ machine.is_last self }
    {
        matches!(self, Stage::End)
    }
}
