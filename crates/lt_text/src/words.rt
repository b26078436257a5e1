//! Splits a line into its words, which single spaces separate.
ghost use Rattle.std.specs.Prelude.{◌≡◌, ◌==◌, ◌∷◌, [], List, ℕ, MatchOption, None, position};
ghost use Rattle.std.specs.List.{slice_split};
ghost use Rattle.std.specs.Str.{bytes_eq};
ghost use Rattle.lt_text.specs.Words.{cut_of, words_left, IsCut, IsFirst};
ghost use Rattle.std.specs.Option.{option_copied};

use memchr::memchr;
use std::marker::Model;

fn position_of(bytes: &[u8], at: u8) -> Option<usize>
    ensures { result ≡ position (λ b. b == at) bytes.now }
{
    bytes.iter().position(|b| *b == at)
}

/// The bytes before and after the first byte that equals `at`, or `None` if there is no such byte.
#[tactic(auto, using(crate::proofs::Cuts::cut_of_none, crate::proofs::Cuts::cut_of_at))]
pub fn cut(bytes: &[u8], at: u8) -> Option<(&[u8], &[u8])>
    ensures { MatchOption result (cut_of at bytes.now ≡ None) (λ parts. IsCut at bytes.now parts.0.now parts.1.now) }
{
    match position_of(bytes, at) {
        None => None,
        Some(place) => {
            let (before, _) = bytes.split_at(place);
            let (_, after) = bytes.split_at(place + 1);
            Some((before, after))
        }
    }
}

/// The index of the first line end. It tests many bytes at once.
fn line_end(bytes: &[u8]) -> Option<usize>
    ensures { result ≡ position (λ b. b == 10) bytes.now }
{
    memchr(b'\n', bytes)
}

/// The bytes before and after the first line end, or `None` if there is none. It does what [`cut`] does, and is faster
/// if the line has more than a few bytes.
#[inline(always)]
#[tactic(auto, using(crate::proofs::Cuts::cut_of_none, crate::proofs::Cuts::cut_of_at))]
pub fn cut_line(bytes: &[u8]) -> Option<(&[u8], &[u8])>
    ensures { MatchOption result (cut_of 10 bytes.now ≡ None) (λ parts. IsCut 10 bytes.now parts.0.now parts.1.now) }
{
    match line_end(bytes) {
        None => None,
        Some(place) => {
            let (before, _) = bytes.split_at(place);
            let (_, after) = bytes.split_at(place + 1);
            Some((before, after))
        }
    }
}

/// Whether the word is this name. It is inlined, so that a constant name costs a test of the length and of each byte.
#[inline(always)]
pub fn is_name(word: &[u8], name: &[u8]) -> bool
    ensures { result ≡ bytes_eq word.now name.now }
{
    if word.len() != name.len() {
        return false;
    }
    for i in 0..name.len() {
        if word[i] != name[i] {
            return false;
        }
    }
    true
}

/// The first word, and the rest of the line after the word and its space.
#[tactic(auto, using(crate::proofs::Cuts::slice_split_cut, crate::proofs::Cuts::slice_split_uncut))]
fn first_word(line: &[u8]) -> (&[u8], Option<&[u8]>)
    ensures { slice_split (λ b. b == 32) line.now ≡ result.0.now ∷ words_left (option_copied result.1) }
{
    match cut(line, b' ') {
        None => (line, None),
        Some((word, rest)) => (word, Some(rest)),
    }
}

/// The remaining words of a line.
#[derive(Drop)]
pub struct Words<'a> {
    rest: Option<&'a [u8]>,
}

impl<'a> Model for Words<'a> {
    ghost use Rattle.std.specs.Prelude.{ℕ, List};
    ghost use Rattle.std.specs.Option.{option_copied};
    ghost use Rattle.lt_text.specs.Words.{words_left};

    ghost Value = { List (List ℕ) };

    ghost view = { λ w. words_left (option_copied w.rest) };
}

impl<'a> Words<'a> {
    /// The words of the line, which is given without its line end. An empty line has one word, which is empty.
    pub fn new(line: &'a [u8]) -> Self
        ensures { result ≡ slice_split (λ b. b == 32) line.now }
    {
        Words { rest: Some(line) }
    }

    /// The next word, which remains; `None` after the last.
    pub fn peek(&self) -> Option<&'a [u8]>
        ensures { MatchOption result (self.now ≡ []) (λ word. IsFirst word.now self.now) }
    {
        let (word, _) = first_word(self.rest?);
        Some(word)
    }

    /// The next word, which is consumed; `None` after the last.
    #[inline(always)]
    pub fn next(&mut self) -> Option<&'a [u8]>
        ensures { MatchOption result ((self.old ≡ []) × (self.new ≡ [])) (λ word. self.old ≡ word.now ∷ self.new) }
    {
        let bytes = self.rest?;
        let (word, rest) = first_word(bytes);
        self.rest = rest;
        Some(word)
    }
}
