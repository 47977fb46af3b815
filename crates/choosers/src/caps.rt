// What the choosers count with: a sum and a power of two that never wrap, each held at the cap.
ghost use Rattle.std.specs.Prelude.{◌≡◌, ◌+◌, ◌^◌};
ghost use Rattle.strides.specs.Recurrence.{at_cap};

// a + b, held at the cap.
pub(crate) fn capped_sum(a: u64, b: u64, cap: u64) -> u64
    ensures { result ≡ at_cap cap (a + b) }
{
    if cap <= a {
        return cap;
    }
    if cap - a <= b {
        return cap;
    }
    a + b
}

// 2 ^ s, held at the cap.
pub(crate) fn capped_power(s: u64, cap: u64) -> u64
    ensures { result ≡ at_cap cap (2 ^ s) }
{
    if 64 <= s {
        return cap;
    }
    let p = 1u64 << s;
    if cap <= p {
        return cap;
    }
    p
}
