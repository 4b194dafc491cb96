//! Numbers that are read as decimal text.
ghost use Rattle.std.specs.Prelude.{◌≡◌, ◌<◌, ◌^◌, ◌≤◌, length, ◌≤ℤ◌, IfSome};
ghost use Rattle.std.specs.List.{list_all};
ghost use Rattle.std.specs.Str.Parse.{AllDigits, digits_value, starts_with_minus, without_leading_sign};
ghost use Rattle.gic_text.specs.Decimal.{is_digit, natural_of, whole_of, decimal_in, read_decimal, read_wide};

fn is_digit(byte: u8) -> bool
    ensures { result ≡ is_digit byte }
{
    byte.is_ascii_digit()
}

fn are_digits(text: &[u8]) -> bool
    ensures { result ≡ list_all is_digit text.now }
{
    text.iter().all(|byte| is_digit(*byte))
}

/// The number that at most 38 digits write.
fn value_of(text: &[u8]) -> u128
    requires digits { AllDigits 10 text.now }
    requires few { length text.now ≤ 38 }
    ensures value { result ≡ digits_value 10 text.now }
    ensures small { result < 10 ^ 38 }
{
    let mut value = 0u128;
    for byte in text {
        value = value * 10 + u128::from(*byte - b'0');
    }
    value
}

/// The number that 1 to `most` digits write.
#[tactic(auto, using(crate::proofs::Digits::all_digits), unfolding(crate::specs::Decimal::natural_of))]
fn natural_of(text: &[u8], most: usize) -> Option<u128>
    requires { most ≤ 38 }
    ensures value { result ≡ natural_of most text.now }
    ensures small { IfSome result (λ n. n < 10 ^ 38) }
{
    let len = text.len();
    if 1 <= len && len <= most && are_digits(text) {
        Some(value_of(text))
    } else {
        None
    }
}

fn starts_with_minus(text: &[u8]) -> bool
    ensures { result ≡ starts_with_minus text.now }
{
    match text {
        [first, ..] => *first == b'-',
        [] => false,
    }
}

fn without_leading_sign(text: &[u8]) -> &[u8]
    ensures { result.now ≡ without_leading_sign text.now }
{
    match text {
        [b'-' | b'+', rest @ ..] => rest,
        _ => text,
    }
}

/// The number that a sign or none and 1 to `most` digits write.
#[tactic(auto, unfolding(crate::specs::Decimal::natural_of, crate::specs::Decimal::whole_of))]
fn whole_of(text: &[u8], most: usize) -> Option<i128>
    requires { most ≤ 38 }
    ensures { result ≡ whole_of most text.now }
{
    let number = natural_of(without_leading_sign(text), most)?;
    if starts_with_minus(text) {
        Some(-(number as i128))
    } else {
        Some(number as i128)
    }
}

/// The number of a sign or none and 1 to `digits` digits, where it lies from `least` to `most`.
fn decimal_in(text: &[u8], digits: usize, least: i128, most: i128) -> Option<i128>
    requires { digits ≤ 38 }
    ensures value { result ≡ decimal_in digits text.now least most }
    ensures within { IfSome result (λ n. (least ≤ℤ n) × (n ≤ℤ most)) }
{
    let number = whole_of(text, digits)?;
    if least <= number && number <= most {
        Some(number)
    } else {
        None
    }
}

/// The number that a text writes: an optional `-` or `+`, then 1 to 18 ASCII digits, leading zeros allowed, and nothing
/// else. None where the text isn't that, or the number lies outside `least` to `most`.
#[tactic(auto, unfolding(crate::specs::Decimal::read_decimal))]
pub fn read_decimal(text: &[u8], least: i64, most: i64) -> Option<i64>
    ensures value { result ≡ read_decimal text.now least most }
    ensures within { IfSome result (λ n. (least ≤ℤ n) × (n ≤ℤ most)) }
{
    let number = decimal_in(text, 18, i128::from(least), i128::from(most))?;
    Some(number as i64)
}

/// The same as [`read_decimal`] for 1 to 38 digits.
#[tactic(auto, unfolding(crate::specs::Decimal::read_wide))]
pub fn read_wide(text: &[u8], least: i128, most: i128) -> Option<i128>
    ensures value { result ≡ read_wide text.now least most }
    ensures within { IfSome result (λ n. (least ≤ℤ n) × (n ≤ℤ most)) }
{
    decimal_in(text, 38, least, most)
}
