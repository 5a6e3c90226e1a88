// The plans of templates.
ghost use Rattle.std.specs.Prelude.{◌≡◌, ◌∷◌, [], ℕ, List, OnOk, IfOk};
ghost use Rattle.sx_build.specs.Asked.{asked_at};
ghost use Rattle.sx_machine.specs.Body.{Body, body_of, instr_in_front, written_out};
ghost use Rattle.sx_machine.specs.Plan.{still, looking, then_plan, plan_of, read_plan, pattern_name};
ghost use Rattle.sx_machine.specs.Plan.{IsRuleOf, AreRulesOf};
ghost use Rattle.sx_machine.specs.Run.{gives};
ghost use Rattle.sx_tree.specs.declared.events.Label.{Label as NameLabel};
ghost use Rattle.sx_names.specs.Numbering.{NameTable};

use sqlite_items::Items;
use std::alloc::{AllocError, Global};
use sx_build::{Raw, Raws};
use sx_kinds::{Instr, InstrForm, NamePattern, Template};
use sx_tree::{Chars, Label};

/// How a body is run while the children come: what it gives before them, and, where it asks for them, what it gives behind.
#[derive(Drop)]
pub struct Plan {
    pub before: Raws,
    pub behind: Option<Raws>,
}

/// A template as the session keeps it: the number of the name that it matches, and its plan.
#[derive(Drop)]
pub struct Rule {
    pub name: Option<u64>,
    pub plan: Plan,
}

impl Plan {
    // The plan of an empty body.
    fn new(alloc: Global) -> Plan
        ensures { (names : NameTable) → read_plan names result ≡ still (gives []) }
    {
        Plan {
            before: Items::new(alloc),
            behind: None,
        }
    }

    // This is given behind what the plan has so far.
    fn push(&mut self, raw: Raw) -> Result<(), AllocError>
        ensures { OnOk result ((names : NameTable)
            → read_plan names self.new
            ≡ then_plan (read_plan names self.old) (still (gives (asked_at names raw ∷ [])))) }
    {
        match &mut self.behind {
            Some(after) => after.push(raw),
            None => self.before.push(raw),
        }
    }

    // The children are asked for, if they were not asked for before.
    fn look(&mut self, alloc: Global)
        ensures { (names : NameTable)
            → read_plan names self.new
            ≡ then_plan (read_plan names self.old) (looking (gives []) (gives [])) }
    {
        if self.behind.is_none() {
            self.behind = Some(Items::new(alloc));
        }
    }
}

#[cycle(planning)]
fn plan_instrs(alloc: Global, instrs: &[Instr], plan: &mut Plan) -> Result<(), AllocError>
    ensures { OnOk result ((names : NameTable) (left : ℕ)
        → read_plan names plan.new
        ≡ then_plan (read_plan names plan.old) (plan_of left (written_out names (body_of instrs.now)))) }
{
    for instr in instrs {
        plan_instr(alloc, instr, plan)?;
    }
    Ok(())
}

#[cycle(planning)]
fn plan_instr(alloc: Global, instr: &Instr, plan: &mut Plan) -> Result<(), AllocError>
    ensures { OnOk result ((names : NameTable) (left : ℕ) (rest : Body NameLabel)
        → then_plan (read_plan names plan.new) (plan_of left (written_out names rest))
        ≡ then_plan (read_plan names plan.old)
        (plan_of left (written_out names (instr_in_front instr.now rest)))) }
{
    match &instr.form {
        InstrForm::Literal { label } => {
            plan.push(Raw::Start(Label::copy(alloc, label)?))?;
            plan_instrs(alloc, instr.body.as_slice(), plan)?;
            plan.push(Raw::End)
        }
        InstrForm::Text(text) => plan.push(Raw::Text(Chars::copy(alloc, text.as_str())?)),
        InstrForm::ApplyTemplates => {
            plan.look(alloc);
            Ok(())
        }
    }
}

// The number of the name that a pattern has.
fn name_of(pattern: &Option<NamePattern>) -> Option<u64>
    ensures { result ≡ pattern_name pattern.now }
{
    match pattern {
        None => None,
        Some(pattern) => Some(pattern.name),
    }
}

// A template as the session keeps it.
fn rule_from(alloc: Global, template: &Template) -> Result<Rule, AllocError>
    ensures { IfOk result (λ r. IsRuleOf template.now r) }
{
    let mut plan = Plan::new(alloc);
    plan_instrs(alloc, template.body.as_slice(), &mut plan)?;
    Ok(Rule {
        name: name_of(&template.pattern),
        plan,
    })
}

/// The templates as the session keeps them.
pub(crate) fn rules_from(alloc: Global, templates: &[Template]) -> Result<Items<Rule>, AllocError>
    ensures { IfOk result (λ rules. AreRulesOf templates.now rules) }
{
    let mut rules = Items::new(alloc);
    for template in templates {
        rules.push(rule_from(alloc, template)?)?;
    }
    Ok(rules)
}
