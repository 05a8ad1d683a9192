// Reading a line: its words, apart by one space, and what they are.
ghost use Rattle.std.specs.Prelude.{◌≡◌, ◌⊎◌, ◌≤◌, ℕ, List, [], ◌∷◌, Ok, IfOk, IfErr, OnOk, OnErr, IsOk};
ghost use Rattle.std.specs.Option.{option_copied};
ghost use Rattle.wording.specs.Numbers.{AreBytesOf};
ghost use Rattle.wording.specs.WordsOf.{words_of, words_left};
ghost use Rattle.wording.specs.declared.text.LineError.TheVariants.{Unreadable};

use crate::text;
use crate::text::LineError;
use std::alloc::Global;
use std::marker::Model;
use std::str::FromStr;

/// The words of a line that are still to be read. A word that could not be read is gone.
#[derive(Drop)]
pub struct Words<'a> {
    rest: Option<&'a str>,
}

impl<'a> Model for Words<'a> {
    ghost Value = { List (List ℕ) };

    ghost view = { λ w. words_left (option_copied w.rest) };
}

impl<'a> Words<'a> {
    pub fn new(line: &'a str) -> Words<'a>
        ensures { result ≡ words_of line.now }
    {
        Words { rest: Some(line) }
    }

    /// The next word.
    pub fn word(&mut self) -> Result<&'a str, LineError>
        ensures ok { IfOk result (λ w. self.old ≡ w.now ∷ self.new) }
        ensures ended { IfErr result (λ e. (e ≡ Unreadable) × (self.old ≡ [])) }
        ensures err { OnErr result (self.new ≡ []) }
    {
        let text = self.rest.ok_or(LineError::Unreadable)?;
        match text.split_once(' ') {
            Some((word, rest)) => {
                self.rest = Some(rest);
                Ok(word)
            }
            None => {
                self.rest = None;
                Ok(text)
            }
        }
    }

    /// The next word as a number or a handle.
    pub fn parse<T: FromStr + Drop>(&mut self) -> Result<T, LineError>
    where
        T::Err: Drop,
        ensures ok { IfOk result (λ n. (w : List ℕ) × (self.old ≡ w ∷ self.new) × T.from_str_gives w (Ok n)) }
        ensures err { IfErr result (λ e. e ≡ Unreadable) }
    {
        text::parse(self.word()?)
    }

    /// The next word as a number up to `most`.
    pub fn up_to(&mut self, most: usize) -> Result<usize, LineError>
        ensures at_most { IfOk result (λ n. n ≤ most) }
        ensures err { IfErr result (λ e. e ≡ Unreadable) }
    {
        let n: usize = self.parse()?;
        if n <= most {
            Ok(n)
        } else {
            Err(LineError::Unreadable)
        }
    }

    /// The next word as bytes.
    pub fn bytes(&mut self, alloc: Global) -> Result<Vec<u8>, LineError>
        ensures ok { IfOk result (λ v. (w : List ℕ) × (self.old ≡ w ∷ self.new) × AreBytesOf w v.items) }
    {
        text::bytes(alloc, self.word()?)
    }

    /// No word is left, but for one space at the end.
    pub fn end(&self) -> Result<(), LineError>
        ensures ok { OnOk result ((self.now ≡ []) ⊎ (self.now ≡ [] ∷ [])) }
        ensures ended { self.now ≡ [] → IsOk result }
        ensures err { IfErr result (λ e. e ≡ Unreadable) }
    {
        match self.rest {
            None | Some("") => Ok(()),
            Some(_) => Err(LineError::Unreadable),
        }
    }
}
