// Kinds of text.
ghost use Rattle.std.specs.Prelude.{◌≡◌, ℕ, Bool, List};

// What a kind of text allows, whatever its length. It is `Copy` as the texts of the kind are.
pub trait Grammar: Copy {
    ghost allowed: { List ℕ → Bool };

    fn allows(text: &[u8]) -> bool
        ensures { result ≡ allowed text.now };
}
