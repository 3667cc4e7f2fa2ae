// Constraints: packed items that admit values. What holds of lists of them is said and proved once, for every kind.
ghost use Rattle.std.specs.Prelude.{◌≡◌, Bool, true, List, Option};
ghost use Rattle.std.specs.List.{list_any, list_all};
ghost use Rattle.std.specs.Option.{option_copied};
ghost use Rattle.notes.specs.Constraints.{offered, list_admits, list_admits_option, list_covers};

use super::packed::Packed;

pub trait Constraint: Packed {
    // What is tested.
    type Value;

    ghost admitted: { Self → Self.Value → Bool };

    ghost covered: { Self → Self → Bool };

    fn admits(&self, v: &Self::Value) -> bool
        ensures { result ≡ admitted self.now v.now };

    fn covers(&self, other: &Self) -> bool
        ensures { result ≡ covered self.now other.now };

    // What covers another admits each value that the other admits.
    ghost sound: { (a b : Self) (v : Self.Value) → covered a b ≡ true → admitted b v ≡ true → admitted a v ≡ true };
}

fn one_admits<C: Constraint>(items: &[C], v: &C::Value) -> bool
    ensures { result ≡ list_any (λ x. C.admitted x v.now) items.now }
{
    items.iter().any(|x| x.admits(v))
}

// Whether a list admits a value, which a request may lack.
pub fn list_admits<C: Constraint>(items: &[C], v: Option<&C::Value>) -> bool
    ensures offered { result ≡ list_admits_option C.admitted items.now (option_copied v.entry) }
    ensures marked { (there : Bool) (x : C.Value) → option_copied v.entry ≡ offered there x → result ≡ list_admits C.admitted items.now there x }
{
    match v {
        Some(v) => items.is_empty() | one_admits(items, v),
        None => items.is_empty(),
    }
}

fn one_covers<C: Constraint>(items: &[C], other: &C) -> bool
    ensures { result ≡ list_any (λ x. C.covered x other.now) items.now }
{
    items.iter().any(|x| x.covers(other))
}

fn each_covered<C: Constraint>(items: &[C], others: &[C]) -> bool
    ensures { result ≡ list_all (λ y. list_any (λ x. C.covered x y) items.now) others.now }
{
    others.iter().all(|y| one_covers(items, y))
}

// Whether a list covers another.
pub fn list_covers<C: Constraint>(items: &[C], others: &[C]) -> bool
    ensures { result ≡ list_covers C.covered items.now others.now }
{
    items.is_empty() | (!others.is_empty() & each_covered(items, others))
}

// What covers another admits what that admits, of every kind of constraint.
pub fn constraints_sound<C: Constraint>()
    ensures { (a b : C) (v : C.Value) → C.covered a b ≡ true → C.admitted b v ≡ true → C.admitted a v ≡ true }
{}

// What covers a list admits what that admits: one argument for every kind of constraint.
pub fn lists_sound<C: Constraint>()
    ensures marked { (xs ys : List C) (there : Bool) (v : C.Value) → list_covers C.covered xs ys ≡ true → list_admits C.admitted ys there v ≡ true → list_admits C.admitted xs there v ≡ true }
    ensures offered { (xs ys : List C) (v : Option C.Value) → list_covers C.covered xs ys ≡ true → list_admits_option C.admitted ys v ≡ true → list_admits_option C.admitted xs v ≡ true }
{}
