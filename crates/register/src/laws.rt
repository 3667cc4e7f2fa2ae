// A worked decision, stated as a theorem.
ghost use Rattle.register.specs.Examples.{TwoPolicies};

// Where rule 9 of policy 1 and rule 5 of policy 3 admit, the answer is policy 1, rule 9, number 2.
pub fn example_holds()
    ensures { TwoPolicies }
{}
