ghost use Rattle.std.specs.Prelude.{◌≡◌, ℕ, ◌+◌, ◌-◌, ◌*◌, ◌^◌, ◌<◌, ◌≤◌, ◌&&◌, ◌↔◌, Bool, List, IsTrue, IsSome, IfSome, decimal, min};
ghost use Rattle.std.specs.List.{list_all};
ghost use Rattle.vx_names.specs.Number.{is_digit, is_numeral, is_number, digits_value};

/// The number that the word spells: decimal digits without a leading zero, below 2^40.
pub fn read_number(word: &[u8]) -> Option<u64>
    ensures form { IsSome result ↔ IsTrue (is_number word.now) }
    ensures spelled { IfSome result (λ n. word.now ≡ decimal n) }
    ensures below { IfSome result (λ n. n < 2 ^ 40) }
{
    if !is_numeral(word) {
        return None;
    }
    let value = capped_value(word);
    if value < CAP { Some(value) } else { None }
}

/// The first number that is too large to be a length.
pub(crate) const CAP: u64 = 1 << 40;

/// What the digits say, or the cap where they say more.
pub(crate) fn capped_value(digits: &[u8]) -> u64
    requires { IsTrue (list_all is_digit digits.now) }
    ensures { result ≡ min (digits_value digits.now) (2 ^ 40 + 1) }
{
    let mut value = 0;
    for digit in digits {
        value = next_value(value, *digit);
    }
    value
}

fn next_value(value: u64, digit: u8) -> u64
    requires small { value ≤ 2 ^ 40 + 1 }
    requires digit { IsTrue (is_digit digit) }
    ensures { result ≡ min (10 * value + (digit - 48)) (2 ^ 40 + 1) }
{
    (10 * value + (digit - b'0') as u64).min(CAP + 1)
}

pub(crate) fn is_numeral(word: &[u8]) -> bool
    ensures { result ≡ is_numeral word.now }
{
    match word {
        [] => false,
        [first, rest @ ..] => is_digit(*first)
            && all_digits(rest)
            && (rest.is_empty() || *first != b'0'),
    }
}

fn all_digits(word: &[u8]) -> bool
    ensures { result ≡ list_all is_digit word.now }
{
    word.iter().all(|b| is_digit(*b))
}

pub(crate) fn is_digit(byte: u8) -> bool
    ensures { result ≡ is_digit byte }
{
    byte.is_ascii_digit()
}
