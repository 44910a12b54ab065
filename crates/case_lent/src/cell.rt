// What stands in a place that a call may be lent.
ghost use Rattle.std.specs.Prelude.{◌≡◌, ℕ, List, [], ◌∷◌, codes, refl};

// A number of some size, of which a vector lends a list.
pub trait Cell: Copy {
    // The number.
    ghost number: { Self → ℕ };

    // Those of a list.
    ghost numbers: { List Self → List ℕ };

    // What such a number is called in a line.
    ghost kind: { List ℕ };

    fn kind() -> &'static str
        ensures { result.now ≡ kind };

    fn number(self) -> u64
        ensures { result ≡ number self };

    ghost none: { numbers [] ≡ [] };

    ghost more: { (x : Self) (xs : List Self) → numbers (x ∷ xs) ≡ number x ∷ numbers xs };
}

impl Cell for u32 {
    ghost number = { λ n. n };

    ghost numbers = { λ list. list };

    ghost kind = { codes "work number" };

    fn kind() -> &'static str {
        "work number"
    }

    fn number(self) -> u64 {
        u64::from(self)
    }

    ghost none = { refl };

    ghost more = { λ x xs. refl };
}

impl Cell for u8 {
    ghost number = { λ n. n };

    ghost numbers = { λ list. list };

    ghost kind = { codes "byte" };

    fn kind() -> &'static str {
        "byte"
    }

    fn number(self) -> u64 {
        u64::from(self)
    }

    ghost none = { refl };

    ghost more = { λ x xs. refl };
}
