//! Numbers in canonical decimal.

ghost use Rattle.std.specs.Prelude.{◌≡◌, ◌≢◌, ◌<◌, ◌≤◌, ◌^◌, ℤ, ◌≤ℤ◌, ◌++◌, ◌∷◌, ◌↔◌, length, FitsSigned, Some, IfSome, IfNone, IsTrue, decimal, slice_index, is_ok, if◌then◌else◌};
ghost use Rattle.std.specs.Int.{w64};
ghost use Rattle.std.specs.Fmt.{signed_decimal};
ghost use Rattle.std.specs.Str.Parse.{IsNumeral, digits_value};
ghost use Rattle.line_forms.specs.Texts.{number_of};
ghost use Rattle.plain_io.specs.Canonical.{IsPlain};

use itoa::Buffer;
use std::alloc::Global;
use tgap_model::{Memory, Text};

/// So many digits always fit 64 bits with a sign.
const MOST_DIGITS: usize = 18;

/// The number that a word spells in canonical decimal: with no plus sign, no leading zero and no `-0`. None where it
/// spells none from `least` to `most`.
pub fn read_number(word: &[u8], least: i64, most: i64) -> Option<i64>
    ensures exact { result ≡ number_of least most word.now }
    ensures spelled { IfSome result (λ n. (word.now ≡ signed_decimal n) × (least ≤ℤ n) × (n ≤ℤ most)) }
    ensures none { IfNone result ((n : ℤ) → least ≤ℤ n → n ≤ℤ most → word.now ≢ signed_decimal n) }
{
    let number = canonical_number(word)?;
    if is_between(least, number, most) {
        Some(number)
    } else {
        None
    }
}

/// Whether a number is from `least` to `most`.
fn is_between(least: i64, number: i64, most: i64) -> bool
    ensures { IsTrue result ↔ ((least ≤ℤ number) × (number ≤ℤ most)) }
{
    least <= number && number <= most
}

/// The number of 64 bits that a word spells in canonical decimal, which is told by how it begins.
fn canonical_number(word: &[u8]) -> Option<i64>
    ensures spelled { IfSome result (λ n. (word.now ≡ signed_decimal n) × FitsSigned w64 n) }
    ensures none { IfNone result ((n : ℤ) → FitsSigned w64 n → word.now ≢ signed_decimal n) }
{
    if !is_plain(word) {
        None
    } else if word.len() <= MOST_DIGITS {
        short_number(word)
    } else {
        parse(word)
    }
}

/// Whether a word has no plus sign in front, no zero before another byte, and no zero behind a minus.
fn is_plain(word: &[u8]) -> bool
    ensures { IsTrue result ↔ IsPlain word.now }
{
    match byte_at(word, 0) {
        b'+' => false,
        b'-' => byte_at(word, 1) != b'0',
        b'0' => word.len() <= 1,
        _ => true,
    }
}

/// The byte at a place, or 0 behind the last one.
fn byte_at(word: &[u8], place: usize) -> u8
    ensures { result ≡ slice_index word.now place }
{
    word.get(place).copied().unwrap_or(0)
}

/// The number that a word of few bytes spells, where it begins as canonical decimal does.
fn short_number(word: &[u8]) -> Option<i64>
    requires plain { IsPlain word.now }
    requires short { length word.now ≤ MOST_DIGITS }
    ensures spelled { IfSome result (λ n. (word.now ≡ signed_decimal n) × FitsSigned w64 n) }
    ensures none { IfNone result ((n : ℤ) → FitsSigned w64 n → word.now ≢ signed_decimal n) }
{
    if byte_at(word, 0) == b'-' {
        let size = value_of(&word[1..])?;
        Some(-(size as i64))
    } else {
        let size = value_of(word)?;
        Some(size as i64)
    }
}

/// The value of decimal digits. None where there are none, or where another byte is among them.
fn value_of(digits: &[u8]) -> Option<u64>
    requires { length digits.now ≤ MOST_DIGITS }
    ensures value { IfSome result (λ n. IsNumeral 10 digits.now × (n ≡ digits_value 10 digits.now)) }
    ensures size { IfSome result (λ n. n < 10 ^ MOST_DIGITS) }
    ensures none { IfNone result (¬ (IsNumeral 10 digits.now)) }
{
    if digits.is_empty() {
        return None;
    }
    let mut value = 0;
    for byte in digits {
        if !byte.is_ascii_digit() {
            return None;
        }
        value = 10 * value + u64::from(*byte - b'0');
    }
    Some(value)
}

/// The number of 64 bits that a word is parsed as, in canonical decimal or not.
fn parse(word: &[u8]) -> Option<i64>
    ensures fits { IfSome result (FitsSigned w64) }
    ensures complete { (n : ℤ) → FitsSigned w64 n → word.now ≡ signed_decimal n → result ≡ Some n }
    ensures plain { IfSome result (λ n. IsPlain word.now → word.now ≡ signed_decimal n) }
{
    let text = str::from_utf8(word).ok()?;
    text.parse().ok()
}

/// Appends a number in canonical decimal. On want of memory the text is as before.
pub fn put_number(_alloc: Global, out: &mut Text, n: i128) -> Result<(), Memory>
    ensures { out.new ≡ (if is_ok result then out.old ++ signed_decimal n else out.old) }
{
    let mut buffer = Buffer::new();
    out.push_slice(buffer.format(n).as_bytes())
}

/// Appends a space and a number. On want of memory the text is as before.
pub fn put_field(alloc: Global, out: &mut Text, n: i128) -> Result<(), Memory>
    ensures { out.new ≡ (if is_ok result then out.old ++ 32 ∷ signed_decimal n else out.old) }
{
    let before = out.len();
    out.push_slice(b" ")?;
    let put = put_number(alloc, out, n);
    if put.is_err() {
        out.truncate(before);
    }
    put
}

/// Appends a space and a count. On want of memory the text is as before.
pub fn put_count(alloc: Global, out: &mut Text, n: u32) -> Result<(), Memory>
    ensures { out.new ≡ (if is_ok result then out.old ++ 32 ∷ decimal n else out.old) }
{
    put_field(alloc, out, i128::from(n))
}

/// Appends a space and the size of a list, or a place in it. On want of memory the text is as before.
pub fn put_size(alloc: Global, out: &mut Text, n: usize) -> Result<(), Memory>
    ensures { out.new ≡ (if is_ok result then out.old ++ 32 ∷ decimal n else out.old) }
{
    put_field(alloc, out, n as i128)
}
