ghost use Rattle.std.specs.Prelude.{◌≡◌, ◌<◌, ◌^◌, ℕ, length, IsTrue, IfSome, decimal};
ghost use Rattle.std.specs.Char.{is_ascii_digit};
ghost use Rattle.std.specs.List.{list_all};
ghost use Rattle.std.specs.Option.{SomeIff};
ghost use Rattle.std.specs.Str.Parse.{digits_value};
ghost use Rattle.rl_text.specs.Number.{has_leading_zero, number_of};

fn are_digits(t: &[u8]) -> bool
    ensures { result ≡ list_all is_ascii_digit t.now }
{
    t.iter().all(|b| b.is_ascii_digit())
}

/// Whether a 0 stands before another byte.
fn has_leading_zero(t: &[u8]) -> bool
    ensures { result ≡ has_leading_zero t.now }
{
    t.len() > 1 && t[0] == b'0'
}

/// The number that the digits write. `None` where there are none, and above the greatest u64.
fn number_of_digits(t: &[u8]) -> Option<u64>
    requires { IsTrue (list_all is_ascii_digit t.now) }
    ensures { SomeIff result ((0 < length t.now) × (digits_value 10 t.now < 2 ^ 64)) (digits_value 10 t.now) }
{
    match str::from_utf8(t) {
        Ok(digits) => digits.parse().ok(),
        Err(_) => None,
    }
}

/// The number that the text writes in decimal, without sign and without leading zeros. `None` for any
/// other text, and for a number above the greatest u64.
pub fn read_number(t: &[u8]) -> Option<u64>
    ensures value { result ≡ number_of t.now }
    ensures printed { IfSome result (λ n. t.now ≡ decimal n) }
    ensures complete { (n : ℕ) → n < 2 ^ 64 → t.now ≡ decimal n → result ≡ Some n }
{
    if !are_digits(t) || has_leading_zero(t) {
        return None;
    }
    number_of_digits(t)
}
