// The types of a case's numbers: a number above the largest of its type is held there. (An impl for each, by hand: no macro may write one,
// and the clause of `TryFrom` says nothing at a type parameter.)
ghost use Rattle.std.specs.Prelude.{◌≡◌, min, ℕ};
ghost use Rattle.cases.specs.Limits.{most_32, most_16, most_8};

pub trait Number: Copy {
    ghost number: { Self → ℕ };

    ghost most: { ℕ };

    fn held(value: u64) -> Self
        ensures { number result ≡ min value most };
}

impl Number for u8 {
    ghost number = { λ n. n };

    ghost most = { most_8 };

    fn held(value: u64) -> u8 {
        u8::try_from(value).unwrap_or(u8::MAX)
    }
}

impl Number for u16 {
    ghost number = { λ n. n };

    ghost most = { most_16 };

    fn held(value: u64) -> u16 {
        u16::try_from(value).unwrap_or(u16::MAX)
    }
}

impl Number for u32 {
    ghost number = { λ n. n };

    ghost most = { most_32 };

    fn held(value: u64) -> u32 {
        u32::try_from(value).unwrap_or(u32::MAX)
    }
}
