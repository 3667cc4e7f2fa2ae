// Equal texts.
ghost use Rattle.std.specs.Prelude.{◌≡◌, ℕ, List, Decides};
ghost use Rattle.texts.specs.Same.{same};

// A function, since its contract gives callers the test by which definitions compare texts; `==` alone gives that of slices.
pub fn same_text(a: &[u8], b: &[u8]) -> bool
    ensures { result ≡ same a.now b.now }
{
    a == b
}

// The test of texts says yes of exactly the equal ones.
pub fn same_decides()
    ensures { (a b : List ℕ) → Decides (same a b) (a ≡ b) }
{}
