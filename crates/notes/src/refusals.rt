// What a refusal tells, stated as a theorem.
ghost use Rattle.notes.specs.Refusals.{FirstBroken};

// A refusal names the first field that breaks its rule: cut just before the place of the fault, the bits are refused
// with fault 1 at that same place.
pub fn refusals_name_the_first_field()
    ensures { FirstBroken }
{}
