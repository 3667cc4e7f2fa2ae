// Rows of the row table.
ghost use Rattle.std.specs.Prelude.{◌≡◌, not, Some as Held, None as NoRule, MatchOption};
ghost use Rattle.notes.specs.Notes.{rule_note, rule_value, plain_note, plain_value};
ghost use Rattle.admission.specs.Views.{rule_in};
ghost use Rattle.register.specs.Entries.{entry_of, is_named, is_used, hits, freed};

use super::rule_name::RuleName;
use admission::RuleView;
use notes::{PlainRule, Rule, Side};

// A rule under its name.
#[derive(Clone, Copy)]
pub(super) struct HeldRule {
    name: RuleName,
    rule: PlainRule,
}

impl HeldRule {
    pub(super) fn new(name: RuleName, rule: &Rule) -> HeldRule
        ensures name { result.name ≡ name }
        ensures note { plain_note result.rule ≡ rule_note rule.now }
        ensures value { plain_value result.rule ≡ rule_value rule.now }
    {
        HeldRule {
            name,
            rule: rule.plain(),
        }
    }

    pub(super) fn name(&self) -> RuleName
        ensures { result ≡ self.now.name }
    {
        self.name
    }

    pub(super) fn side(&self) -> Side
        ensures { result ≡ (entry_of self.now).rule.side }
    {
        self.rule.parts().side()
    }

    // The rule itself.
    pub(super) fn view(&self) -> RuleView<'_>
        ensures { rule_in result ≡ (entry_of self.now).rule }
    {
        RuleView {
            note: self.rule.note(),
            parts: self.rule.parts(),
        }
    }

    fn is_named(&self, name: RuleName) -> bool
        ensures { result ≡ is_named name.policy name.number (entry_of self.now) }
    {
        self.name == name
    }
}

// A plain record: a row is free, or it holds a rule under its name.
#[derive(Clone, Copy)]
pub struct RuleRow {
    held: Option<HeldRule>,
}

impl RuleRow {
    pub fn free() -> RuleRow
        ensures { result.held ≡ NoRule }
    {
        RuleRow { held: None }
    }

    pub(super) fn holding(rule: HeldRule) -> RuleRow
        ensures { result ≡ record { held = Held rule } }
    {
        RuleRow { held: Some(rule) }
    }

    pub(super) fn held(&self) -> Option<&HeldRule>
        ensures { MatchOption result (self.now.held ≡ NoRule) (λ h. self.now.held ≡ Held h.now) }
    {
        self.held.as_ref()
    }

    pub(super) fn is_free(&self) -> bool
        ensures { result ≡ not (is_used self.now) }
    {
        self.held.is_none()
    }

    // Whether the row holds the rule of this name.
    pub(super) fn is_named(&self, name: RuleName) -> bool
        ensures { result ≡ hits (is_named name.policy name.number) self.now }
    {
        self.held.as_ref().is_some_and(|rule| rule.is_named(name))
    }

    // A row that is free is not written again: it is large.
    pub(super) fn mark_free(&mut self)
        ensures { self.new ≡ freed self.old }
    {
        if self.held.is_some() {
            self.held = None;
        }
    }
}
