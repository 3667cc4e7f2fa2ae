// What is stated besides the functions' own contracts.
ghost use Rattle.addresses.specs.Examples.{Written, Refused};

// Words that write an address, and words that write none, as a theorem.
pub fn examples_hold()
    ensures written { Written }
    ensures refused { Refused }
{}
