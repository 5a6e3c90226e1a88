// Which stylesheets can be streamed.
ghost use Rattle.std.specs.Prelude.{◌≡◌, ◌+◌, if◌then◌else◌};
ghost use Rattle.sx_machine.specs.Body.{Body, body_of, instr_in_front, or_else, consumes, consuming_parts};
ghost use Rattle.sx_machine.specs.Body.{culprit_inside, culprit_of, culprit as culprit_line};
ghost use Rattle.sx_tree.specs.declared.events.Label.{Label as NameLabel};

use sx_kinds::{Instr, InstrForm, Sheet};

// The line of the first culprit in an instruction or in an element, and whether templates are applied there.
#[derive(Clone, Copy)]
struct Held {
    culprit: Option<u64>,
    consumes: bool,
}

// What an element holds that starts on a line, itself counted.
#[cycle(judging)]
fn held_by_element(line: u64, content: &[Instr]) -> Held
    ensures culprit { result.culprit ≡ culprit_of line (body_of content.now) }
    ensures consumes { result.consumes ≡ consumes (body_of content.now) }
{
    let mut inside = None;
    let mut consuming: usize = 0;
    for instr in content {
        let held = held_by_instr(instr);
        inside = inside.or(held.culprit);
        consuming += usize::from(held.consumes);
    }
    Held {
        culprit: inside.or((consuming > 1).then_some(line)),
        consumes: consuming > 0,
    }
}

#[cycle(judging)]
fn held_by_instr(instr: &Instr) -> Held
    ensures culprit { (rest : Body NameLabel)
        → culprit_inside (instr_in_front instr.now rest) ≡ or_else result.culprit (culprit_inside rest) }
    ensures parts { (rest : Body NameLabel)
        → consuming_parts (instr_in_front instr.now rest)
        ≡ (if result.consumes then 1 else 0) + consuming_parts rest }
{
    match &instr.form {
        InstrForm::Literal { .. } => {
            held_by_element(instr.construct.line, instr.body.as_slice())
        }
        InstrForm::Text(_) => Held {
            culprit: None,
            consumes: false,
        },
        InstrForm::ApplyTemplates => Held {
            culprit: None,
            consumes: true,
        },
    }
}

/// The line of the first template or literal result element of whose content two parts apply templates, and that holds
/// no other such element, or `None` where the stylesheet can be streamed (XSLT 3.0, 19.8.3, as this program reads it).
pub fn culprit(sheet: &Sheet) -> Option<u64>
    ensures { result ≡ culprit_line sheet.now.templates }
{
    for template in sheet.templates.as_slice() {
        let held = held_by_element(template.construct.line, template.body.as_slice());
        if held.culprit.is_some() {
            return held.culprit;
        }
    }
    None
}
