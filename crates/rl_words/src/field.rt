ghost use Rattle.std.specs.Prelude.{◌≡◌, ◌+◌, ◌*◌, ◌^◌, ◌<◌};
ghost use Rattle.rl_base.specs.Numbers.{IsU32};
ghost use Rattle.rl_words.specs.Fields.{field};

/// What the `bits` bits of `x` from bit `at` on say.
pub(crate) fn field(x: u32, at: u32, bits: u32) -> u32
    requires at { at < 32 }
    requires bits { bits < 32 }
    ensures { result ≡ field x at bits }
{
    (x >> at) & ((1 << bits) - 1)
}

/// The number `x` with `value` in the bits from bit `at` on, which are still 0.
pub(crate) fn with_bits(x: u32, at: u32, value: u32) -> u32
    requires at { at < 32 }
    requires below { x < 2 ^ at }
    requires fits { IsU32 (value * 2 ^ at) }
    ensures { result ≡ x + value * 2 ^ at }
{
    x | value << at
}
