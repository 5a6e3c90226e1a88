// Stylesheets, their modes and their templates.
ghost use Rattle.std.specs.Prelude.{◌≡◌, IfOk};

use crate::constructs::{Body, Construct, NamePattern, copy_body};
use sqlite_items::Items;
use std::alloc::{AllocError, Global};
use sx_tree::Label;

/// A template. Its pattern is `None` where it has no `match` attribute.
#[derive(Drop)]
pub struct Template {
    pub construct: Construct,
    pub pattern: Option<NamePattern>,
    pub body: Body,
}

/// The templates, in document order.
pub type Templates = Items<Template>;

/// What is done with a node that no template matches (XSLT 3.0, 6.7).
#[derive(Clone, Copy, Debug, PartialEq, Eq)]
pub enum OnNoMatch {
    DeepCopy,
    ShallowCopy,
    DeepSkip,
    ShallowSkip,
    TextOnlyCopy,
    Fail,
}

/// A mode. Its name is `None` for the unnamed mode.
#[derive(Drop)]
pub struct Mode {
    pub name: Option<Label>,
    pub declared: bool,
    pub streamable: bool,
    pub no_match: OnNoMatch,
}

/// The modes, in document order.
pub type Modes = Items<Mode>;

/// A stylesheet, with the number of its constructs.
#[derive(Drop)]
pub struct Sheet {
    pub modes: Modes,
    pub templates: Templates,
    pub constructs: u64,
}

impl Template {
    /// A copy of a template.
    pub fn copy(alloc: Global, template: &Template) -> Result<Template, AllocError>
        ensures { IfOk result (λ t. t ≡ template.now) }
    {
        Ok(Template {
            construct: template.construct,
            pattern: template.pattern,
            body: copy_body(alloc, &template.body)?,
        })
    }
}

// A copy of a name, where there is one.
fn copy_name(alloc: Global, name: &Option<Label>) -> Result<Option<Label>, AllocError>
    ensures { IfOk result (λ n. n ≡ name.now) }
{
    match name {
        None => Ok(None),
        Some(label) => Ok(Some(Label::copy(alloc, label)?)),
    }
}

impl Mode {
    /// A copy of a mode.
    pub fn copy(alloc: Global, mode: &Mode) -> Result<Mode, AllocError>
        ensures { IfOk result (λ m. m ≡ mode.now) }
    {
        Ok(Mode {
            name: copy_name(alloc, &mode.name)?,
            declared: mode.declared,
            streamable: mode.streamable,
            no_match: mode.no_match,
        })
    }
}

fn copy_templates(alloc: Global, templates: &Templates) -> Result<Templates, AllocError>
    ensures { IfOk result (λ copy. copy ≡ templates.now) }
{
    let mut copy = Items::new(alloc);
    for template in templates.as_slice() {
        copy.push(Template::copy(alloc, template)?)?;
    }
    Ok(copy)
}

fn copy_modes(alloc: Global, modes: &Modes) -> Result<Modes, AllocError>
    ensures { IfOk result (λ copy. copy ≡ modes.now) }
{
    let mut copy = Items::new(alloc);
    for mode in modes.as_slice() {
        copy.push(Mode::copy(alloc, mode)?)?;
    }
    Ok(copy)
}

impl Sheet {
    /// A copy of a stylesheet.
    pub fn copy(alloc: Global, sheet: &Sheet) -> Result<Sheet, AllocError>
        ensures { IfOk result (λ s. s ≡ sheet.now) }
    {
        Ok(Sheet {
            modes: copy_modes(alloc, &sheet.modes)?,
            templates: copy_templates(alloc, &sheet.templates)?,
            constructs: sheet.constructs,
        })
    }
}
