// Thin stylesheets.
ghost use Rattle.std.specs.Prelude.{◌≡◌, ◌∷◌, [], IfOk, IfErr};
ghost use Rattle.sx_atoms.specs.declared.error_codes.Code.TheVariants.{Xtse0010};
ghost use Rattle.sx_names.specs.Numbering.{KeepsPlaces, IsDistinct};
ghost use Rattle.sx_sheet.specs.Numbers as numbers;
ghost use Rattle.sx_sheet.specs.Numbers.{IsSheetOf};
ghost use Rattle.sx_sheet.specs.Syntax.{BreaksOn};
ghost use Rattle.sx_sheet.specs.Tokens.{tokens_of, AreKnownEvents};

use crate::reader::Reader;
use crate::running::run;
use sqlite_items::Items;
use std::alloc::{AllocError, Global};
use sx_atoms::Code;
use sx_kinds::{Mode, Modes, OnNoMatch, Sheet};
use sx_names::Names;
use sx_tree::Event;

/// An event of a stylesheet, and the line on which it begins, counted from 1.
#[derive(Drop)]
pub struct LinedEvent {
    pub event: Event,
    pub line: u64,
}

/// The events of a stylesheet, in document order.
pub type LinedEvents = Items<LinedEvent>;

/// An error of a stylesheet: its code, and the line on which it is met, counted from 1.
#[derive(Clone, Copy, Debug, PartialEq, Eq)]
pub struct StaticFault {
    pub code: Code,
    pub line: u64,
}

fn thin_modes(alloc: Global, no_match: OnNoMatch) -> Result<Modes, AllocError>
    ensures { IfOk result (λ m. m ≡ numbers.thin_mode no_match ∷ []) }
{
    let mut modes = Items::new(alloc);
    modes.push(Mode {
        name: None,
        declared: true,
        streamable: true,
        no_match,
    })?;
    Ok(modes)
}

fn sheet(alloc: Global, reader: Reader) -> Result<Sheet, AllocError>
    ensures { IfOk result (λ s. s
        ≡ numbers.sheet_with reader.no_match reader.templates reader.constructs) }
{
    Ok(Sheet {
        modes: thin_modes(alloc, reader.no_match)?,
        templates: reader.templates,
        constructs: reader.constructs,
    })
}

/// The thin stylesheet whose events these are: an `xsl:stylesheet` with the one attribute `version="3.0"`; in it one
/// `xsl:mode` with `streamable="yes"` and `on-no-match` of `text-only-copy` or `shallow-copy` (XSLT 3.0, 6.6.1), and then
/// templates; in these literal result elements without attributes, `xsl:text` with one text at most, and
/// `xsl:apply-templates` without attributes. The `match` of a template is a name in no namespace; that and the names of
/// literal elements are letters of ASCII without a prefix.
/// Processing instructions and, outside `xsl:text`, texts of white space are skipped (XSLT 3.0, 4.3).
///
/// A fault has the code `XTSE0010` and the line of the first event that no such stylesheet has there, or 0 where only further
/// events are missing. The names in the events must be those of the table. New names of patterns get their numbers in
/// it, and names that were there keep theirs, whatever the answer is.
pub fn read(
    alloc: Global,
    events: &LinedEvents,
    names: &mut Names,
) -> Result<Result<Sheet, StaticFault>, AllocError>
    ensures kept { KeepsPlaces names.old names.new }
    ensures distinct { IsDistinct names.new }
    ensures sheet { IfOk result (λ answer. IfOk answer (λ sheet. AreKnownEvents names.old events.now
        → IsSheetOf (tokens_of names.old events.now) names.new sheet)) }
    ensures fault { IfOk result (λ answer. IfErr answer (λ f. f.code ≡ Xtse0010)) }
    ensures line { IfOk result (λ answer. IfErr answer (λ f. AreKnownEvents names.old events.now
        → BreaksOn (tokens_of names.old events.now) f.line)) }
{
    let read = run(alloc, events, names);
    names.each_once();
    match read? {
        Ok(reader) => {
            let sheet = sheet(alloc, reader)?;
            Ok(Ok(sheet))
        }
        Err(line) => Ok(Err(StaticFault {
            code: Code::Xtse0010,
            line,
        })),
    }
}
