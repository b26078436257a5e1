//! The words of a line of a script.
ghost use Rattle.std.specs.Prelude.{◌≡◌, ◌∷◌, [], MatchOption};
ghost use Rattle.lt_text.specs.Words.{IsFirst};
ghost use Rattle.lt_script.specs.Lines.{words_of};

use lt_text::words::Words;
use std::marker::Model;

/// The remaining words of a line. Words are separated by one or more spaces.
#[derive(Drop)]
pub(crate) struct SpacedWords<'a> {
    pieces: Words<'a>,
}

impl<'a> Model for SpacedWords<'a> {
    ghost use Rattle.std.specs.Prelude.{ℕ, List, filter};
    ghost use Rattle.lt_script.specs.Lines.{is_word};

    ghost Value = { List (List ℕ) };

    ghost view = { λ w. filter is_word w.pieces };
}

impl<'a> SpacedWords<'a> {
    pub fn new(line: &'a [u8]) -> Self
        ensures { result ≡ words_of line.now }
    {
        SpacedWords {
            pieces: Words::new(line),
        }
    }

    /// The next word, which stays unread.
    pub fn peek(&mut self) -> Option<&'a [u8]>
        ensures same { self.new ≡ self.old }
        ensures word { MatchOption result (self.old ≡ []) (λ word. IsFirst word.now self.old) }
    {
        while let Some(piece) = self.pieces.peek() {
            if !piece.is_empty() {
                return Some(piece);
            }
            let _ = self.pieces.next();
        }
        None
    }

    /// Reads the next word.
    pub fn next(&mut self) -> Option<&'a [u8]>
        ensures { MatchOption result ((self.old ≡ []) × (self.new ≡ [])) (λ word. self.old ≡ word.now ∷ self.new) }
    {
        while let Some(piece) = self.pieces.next() {
            if !piece.is_empty() {
                return Some(piece);
            }
        }
        None
    }
}
