// What holds of notes and rules, stated as theorems.
ghost use Rattle.notes.specs.Examples.{Examples};
ghost use Rattle.notes.specs.Notes.{WrittenBack, ReadBack, NoteDecides};

// A note reads as at most one rule, and that rule is written as the same note; every lawful rule has a note of at most
// 615 bytes, which reads as that rule; and rules with equal notes are equal.
pub fn notes_round_trip()
    ensures written { WrittenBack }
    ensures read { ReadBack }
    ensures decides { NoteDecides }
{}

// Worked notes, and notes with a fault.
pub fn examples_hold()
    ensures { Examples }
{}
