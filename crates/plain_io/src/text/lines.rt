//! The lines of a text, one after another.

ghost use Rattle.std.specs.Prelude.{◌≡◌};
ghost use Rattle.line_forms.specs.Lines.{all_lines, line_at, is_over};
ghost use Rattle.plain_io.specs.Taking.{Takes};

use super::pieces::Pieces;
use std::marker::Model;

/// The lines of a text, from the front. Contracts see those that are left, with the number of the next one.
#[derive(Drop)]
pub struct Lines<'a> {
    pieces: Pieces<'a>,
    number: u32,
}

impl<'a> Model for Lines<'a> {
    ghost use Rattle.line_forms.specs.Lines.{Lines as LinesLeft};
    ghost use Rattle.plain_io.specs.Taking.{rows};

    ghost Value = { LinesLeft };

    ghost view = { λ l. record { number = l.number; rows = rows l.pieces } };
}

impl<'a> Lines<'a> {
    /// All lines of a text. They are numbered from 1.
    pub fn of(bytes: &'a [u8]) -> Self
        ensures { result ≡ all_lines bytes.entry.now }
    {
        Lines {
            pieces: Pieces::lines(bytes),
            number: 1,
        }
    }

    /// The number of the next line; from 4,294,967,295 on it stays.
    pub fn number(&self) -> u32
        ensures { result ≡ self.now.number }
    {
        self.number
    }

    /// Takes the next line, as its words. None exactly where none is left that ends with a line feed; then all stays.
    pub fn next_line(&mut self) -> Option<Pieces<'a>>
        ensures { Takes result self.old self.new (line_at self.old) }
    {
        let line = self.pieces.next_ended()?;
        self.number = self.number.saturating_add(1);
        Some(Pieces::words(line))
    }

    /// Whether nothing stands after the last line feed.
    pub fn is_over(&self) -> bool
        ensures { result ≡ is_over self.now.rows }
    {
        self.pieces.is_one_empty()
    }
}
