// What holds of admitting and covering, stated as theorems.
ghost use Rattle.admission.specs.Examples.{Midnight, BlockExample, MatchingExample};
ghost use Rattle.admission.specs.Laws.{EntriesSound, RulesSound};
ghost use Rattle.admission.specs.Misreadings.{DayAndWeekday, MayDay, OneContext, TwoContexts};

// An entry or a rule that covers another admits at least as much, also with a larger member list.
pub fn covering_is_sound()
    ensures entries { EntriesSound }
    ensures rules { RulesSound }
{}

// Day and weekday are not alternatives: a window admits an instant only where both the day of the month and the weekday
// lie in their sets.
pub fn day_and_weekday_both_count()
    ensures every { DayAndWeekday }
    ensures example { MayDay }
{}

// A time of one context is never joined to an address or a country of another: one context admits all of them.
pub fn contexts_are_not_mixed()
    ensures every { OneContext }
    ensures example { TwoContexts }
{}

// Worked examples: windows over midnight, a block, and patterns at a home domain.
pub fn examples_hold()
    ensures midnight { Midnight }
    ensures block { BlockExample }
    ensures patterns { MatchingExample }
{}
