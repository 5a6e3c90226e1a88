// The rules of a stylesheet, found by a number of a name.
ghost use Rattle.std.specs.Prelude.{◌≡◌, ◌<◌, ◌≤◌, ℕ, Some, length, nat_eq};
ghost use Rattle.std.specs.Prelude.{if◌then◌else◌, IfOk, IfSome, OnOk};
ghost use Rattle.sx_machine.specs.Choice.{last_that};
ghost use Rattle.sx_machine.specs.Plan.{AreRulesOf};
ghost use Rattle.sx_machine.specs.Session.{rule_at, place_in, is_rule_for};

use crate::plans::{Rule, rules_from};
use sqlite_items::Items;
use std::alloc::{AllocError, Global};
use sx_kinds::Template;
use sx_names::Names;

/// The rules of a stylesheet, and at the number of each name the place of the last rule for it, so that it is found without
/// a search.
#[derive(Drop)]
pub struct RuleTable {
    pub list: Items<Rule>,
    pub places: Items<Option<usize>>,
}

// At this number stands this place from now on.
fn put(places: &mut Items<Option<usize>>, number: usize, place: usize) -> Result<(), AllocError>
    ensures put { OnOk result ((n : ℕ)
        → place_in places.new n ≡ (if nat_eq number n then Some place else place_in places.old n)) }
    ensures bound { OnOk result ((most : ℕ) → number < most → length places.old ≤ most
        → length places.new ≤ most) }
{
    while places.len() <= number {
        places.push(None)?;
    }
    places.set(number, Some(place));
    Ok(())
}

// At the number in a rule, if it is that of a name, stands the place of the rule from now on.
fn note(
    places: &mut Items<Option<usize>>,
    rule: &Rule,
    place: usize,
    names: &Names,
) -> Result<(), AllocError>
    ensures noted { OnOk result ((n : ℕ) → n < length names.now
        → place_in places.new n
        ≡ (if is_rule_for n rule.now then Some place else place_in places.old n)) }
    ensures bound { OnOk result (length places.old ≤ length names.now
        → length places.new ≤ length names.now) }
{
    match rule.name {
        Some(number) if names.has(number) => put(places, number as usize, place),
        _ => Ok(()),
    }
}

// At the number of each name the place of the last rule for it; numbers that no name has are left out.
fn places_from(
    alloc: Global,
    rules: &[Rule],
    names: &Names,
) -> Result<Items<Option<usize>>, AllocError>
    ensures found { IfOk result (λ places. (n : ℕ) → n < length names.now
        → rule_at rules.now (place_in places n) ≡ last_that (is_rule_for n) rules.now) }
    ensures bound { IfOk result (λ places. length places ≤ length names.now) }
{
    let mut places = Items::new(alloc);
    for place in 0..rules.len() {
        note(&mut places, &rules[place], place, names)?;
    }
    Ok(places)
}

impl RuleTable {
    /// The rules of these templates, where names have these numbers.
    pub(crate) fn new(
        alloc: Global,
        templates: &[Template],
        names: &Names,
    ) -> Result<RuleTable, AllocError>
        ensures rules { IfOk result (λ table. AreRulesOf templates.now table.list) }
        ensures found { IfOk result (λ table. (n : ℕ) → n < length names.now
            → rule_at table.list (place_in table.places n) ≡ last_that (is_rule_for n) table.list) }
        ensures bound { IfOk result (λ table. length table.places ≤ length names.now) }
    {
        let list = rules_from(alloc, templates)?;
        let places = places_from(alloc, list.as_slice(), names)?;
        Ok(RuleTable { list, places })
    }

    /// The place of the rule that stands at this number, if there is one.
    pub(crate) fn find(&self, number: u64) -> Option<usize>
        ensures found { rule_at self.now.list result
            ≡ rule_at self.now.list (place_in self.now.places number) }
        ensures within { IfSome result (λ place. place < length self.now.list) }
    {
        match self.places.as_slice().get(number as usize) {
            Some(Some(place)) if *place < self.list.len() => Some(*place),
            _ => None,
        }
    }

    /// The rules, each at its place.
    pub(crate) fn as_slice(&self) -> &[Rule]
        ensures { result.now ≡ self.now.list }
    {
        self.list.as_slice()
    }
}
