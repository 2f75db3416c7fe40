//! The words of a line, one after another. A step that finds nothing of its form takes nothing.

ghost use Rattle.std.specs.Prelude.{◌≡◌, ◌≤◌, ◌≤ℤ◌, IfSome};
ghost use Rattle.line_forms.specs.Words.{after_word, number_at, natural_at, count_at, after_count, ended};
ghost use Rattle.plain_io.specs.Taking.{Takes, Skips};

use super::number::read_number;
use super::pieces::Pieces;

/// The next word, a number from `least` to `most`.
pub fn number_at(words: &mut Pieces, least: i64, most: i64) -> Option<i64>
    ensures taken { Takes result words.old words.new (number_at least most words.old) }
    ensures range { IfSome result (λ n. (least ≤ℤ n) × (n ≤ℤ most)) }
{
    let mut ahead = words.copy();
    let word = ahead.next_piece()?;
    let number = read_number(word, least, most)?;
    *words = ahead;
    Some(number)
}

/// The next word, a number from `least` to `most` without a sign.
pub fn natural_at(words: &mut Pieces, least: u32, most: u32) -> Option<u32>
    ensures taken { Takes result words.old words.new (natural_at least most words.old) }
    ensures range { IfSome result (λ n. (least ≤ n) × (n ≤ most)) }
{
    let number = number_at(words, i64::from(least), i64::from(most))?;
    Some(number as u32)
}

/// The next word, a number of 32 bits without a sign.
pub fn count_at(words: &mut Pieces) -> Option<u32>
    ensures { Takes result words.old words.new (count_at words.old) }
{
    natural_at(words, 0, u32::MAX)
}

/// Passes over the next word, which is this one.
pub fn after_word(words: &mut Pieces, word: &[u8]) -> Option<()>
    ensures { Skips result words.old words.new (after_word word.now words.old) }
{
    let mut ahead = words.copy();
    if ahead.next_piece()? != word {
        return None;
    }
    *words = ahead;
    Some(())
}

/// Passes over the next word, which is this number.
pub fn after_count(words: &mut Pieces, count: u32) -> Option<()>
    ensures { Skips result words.old words.new (after_count count words.old) }
{
    let mut ahead = words.copy();
    if count_at(&mut ahead)? != count {
        return None;
    }
    *words = ahead;
    Some(())
}

/// The value, where no word is left.
pub fn ended<T: Drop>(words: &Pieces, value: T) -> Option<T>
    ensures { result ≡ ended value words.now }
{
    words.is_done().then_some(value)
}
