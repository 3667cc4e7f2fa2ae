// Which rules a rule covers.
ghost use Rattle.std.specs.Prelude.{◌≡◌};
ghost use Rattle.std.specs.List.{list_any};
ghost use Rattle.texts.specs.TextValues.{text_of};
ghost use Rattle.admission.specs.Covering.{originator_covers, originators_cover, lists_cover, rule_covers};
ghost use Rattle.admission.specs.Laws.{RulesSound};
ghost use Rattle.admission.specs.Views.{rule_in, entry_in};

use super::view::{EntryView, RuleView};
use notes::{EntryKind, list_covers};
use texts::{Domain, domain_covers, pattern_covers, same_text};

impl EntryView<'_> {
    // Whether the entry covers the other, at this home domain.
    fn covers(&self, home: &Domain, other: &EntryView<'_>) -> bool
        ensures { result ≡ originator_covers (text_of home.now) (entry_in self.now) (entry_in other.now) }
    {
        match (self.kind, other.kind) {
            (EntryKind::All, _) => true,
            (EntryKind::Pattern, EntryKind::Pattern) => pattern_covers(home, self.text, other.text),
            (EntryKind::Domain, EntryKind::Pattern) => domain_covers(home, self.text, other.text),
            (EntryKind::Domain, EntryKind::Domain) => same_text(self.text, other.text),
            (EntryKind::Standing, EntryKind::Standing) => same_text(self.text, other.text),
            _ => false,
        }
    }
}

impl RuleView<'_> {
    // Whether the rule covers the other, at this home domain. What covers another admits at least as much.
    #[tactic(auto, using(crate::proofs::Sound::rules_sound, notes::proofs::Sides::side_eq), unfolding(crate::specs::Covering::rule_covers))]
    pub fn covers(&self, home: &Domain, other: &RuleView<'_>) -> bool
        ensures answer { result ≡ rule_covers (text_of home.now) (rule_in self.now) (rule_in other.now) }
        ensures law { RulesSound }
    {
        self.parts.side() == other.parts.side()
            && (!self.parts.authenticated() || other.parts.authenticated())
            && self.parts.has_operations_of(other.parts)
            && self.originators_cover(home, other)
            && self.lists_cover(other)
    }

    // Whether one of the originator entries covers the other rule's entry.
    fn covers_entry(&self, home: &Domain, other: &EntryView<'_>) -> bool
        ensures { result ≡ list_any (λ o. originator_covers (text_of home.now) o (entry_in other.now)) (rule_in self.now).originators }
    {
        self.parts
            .originators()
            .iter()
            .any(|entry| self.entry(entry).covers(home, other))
    }

    // Whether each originator entry of the other rule is covered.
    fn originators_cover(&self, home: &Domain, other: &RuleView<'_>) -> bool
        ensures { result ≡ originators_cover (text_of home.now) (rule_in self.now).originators (rule_in other.now).originators }
    {
        other
            .parts
            .originators()
            .iter()
            .all(|entry| self.covers_entry(home, &other.entry(entry)))
    }

    // Whether the other rule's child types and contexts are covered.
    fn lists_cover(&self, other: &RuleView<'_>) -> bool
        ensures { result ≡ lists_cover (rule_in self.now) (rule_in other.now) }
    {
        list_covers(self.parts.child_types(), other.parts.child_types())
            && list_covers(self.parts.contexts(), other.parts.contexts())
    }
}
