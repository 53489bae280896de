//! A cursor over the words and lines of an input.
ghost use Rattle.std.specs.Prelude.{◌≡◌, ◌↔◌, ◌<◌, ◌≤◌, [], length, IsTrue, Ok};
ghost use Rattle.std.specs.Bool.{OnTrue, OnFalse};
ghost use Rattle.text_definitions.specs.declared.LexKind.TheVariants.{BadWord, NumberTooWide};
ghost use Rattle.text_definitions.specs.Reading.{Gives, Moves, start_of, need_line_at, word_at, number_at, signed_at, end_line_at, word_fault, fault_at, number_up_to, magnitude, is_negative};
ghost use Rattle.text_definitions.specs.Signed.{signed_bound};
ghost use Rattle.text_definitions.specs.Text.{max_text, decimal_value};
ghost use Rattle.text_io.specs.LineEnd.{GivesOrEnds};

use crate::decimals::{is_decimal_word, short_value, value_up_to};
use crate::front::{Front, front_of};
use crate::lines::{FoundLine, end_place, first_line};
use std::marker::Model;
use text_definitions::{LexFault, LexKind, Place};

/// A cursor over the bytes of an input. Contracts see what is left to read: the words left on the current line, the
/// lines after it, the place after the last byte, and the place of the word read last. After an error nothing is stated
/// about its position. Invariant: no number of a line or a column exceeds its type.
#[derive(Drop)]
pub struct Lexer<'a> {
    // the current line: its number, and what is left of it without its end, with the column at which that begins
    number: u32,
    line: &'a [u8],
    column: u32,
    // what follows the end of the current line
    later: &'a [u8],
    // the place after the last byte of the input
    end: Place,
    // the place of the word read last
    taken: Place,
}

impl<'a> Model for Lexer<'a> {
    ghost use Rattle.text_definitions.specs.Reading.{Reading};

    ghost Value = { Reading };

    ghost use Rattle.text_io.specs.Lexer.{left_to_read, Fits};

    ghost view = { left_to_read };

    ghost invariant = { Fits };
}

impl<'a> Lexer<'a> {
    /// A cursor before the first line of `bytes`.
    pub fn new(bytes: &'a [u8]) -> Lexer<'a>
        requires { length bytes.now ≤ max_text }
        ensures { result ≡ start_of bytes.now }
    {
        Lexer {
            number: 0,
            line: &[],
            column: 1,
            later: bytes,
            end: end_place(bytes),
            taken: Place { line: 0, column: 0 },
        }
    }

    /// Moves to the next line that is neither blank nor a comment, and returns whether there is one. If not, the cursor
    /// stays.
    #[tactic(auto, unfolding(text_definitions::specs::Reading::need_line_at))]
    pub fn next_line(&mut self) -> bool
        ensures found { OnTrue result (need_line_at self.old ≡ Ok self.new) }
        ensures none { OnFalse result ((self.old.later ≡ []) × (self.new ≡ self.old)) }
    {
        let Some(found) = first_line(self.later, self.number) else {
            return false;
        };
        let FoundLine {
            number,
            line,
            later,
        } = found;
        self.number = number;
        self.line = line;
        self.column = 1;
        self.later = later;
        true
    }

    /// Moves to the next line that is neither blank nor a comment. Fails with `MissingWord`, at the end of the input,
    /// if there is none.
    #[tactic(auto, unfolding(text_definitions::specs::Reading::need_line_at))]
    pub fn need_line(&mut self) -> Result<(), LexFault>
        ensures { Moves result self.new (need_line_at self.old) }
    {
        if self.next_line() {
            return Ok(());
        }
        Err(LexFault {
            place: self.end,
            kind: LexKind::MissingWord,
        })
    }

    /// Reads the next word of the line, as a slice of the input. Fails with `MissingWord` at the end of the line, or
    /// with `BadByte` at a byte that no word contains.
    pub fn word(&mut self) -> Result<&'a [u8], LexFault>
        ensures { Gives (λ w. w.now) result self.new (word_at self.old) }
    {
        match self.word_or_end()? {
            Some(word) => Ok(word),
            None => Err(self.fault(self.line_end(), LexKind::MissingWord)),
        }
    }

    /// Reads the next word of the line as a decimal. Fails as `word`; then with `BadWord` if the word is no decimal, or
    /// with `NumberTooWide` if its value exceeds `max`.
    #[tactic(auto, unfolding(text_definitions::specs::Reading::number_at))]
    pub fn number(&mut self, max: u128) -> Result<u128, LexFault>
        ensures { Gives (λ n. n) result self.new (number_at max self.old) }
    {
        let word = self.word()?;
        self.value_of(word, max)
    }

    /// Reads the next word of the line as a decimal of at most `max`. If only spaces and tabs are left, returns `None`,
    /// and the cursor stays. Otherwise fails as `number`.
    #[tactic(auto, unfolding(text_definitions::specs::Reading::number_at))]
    pub fn number_or_end(&mut self, max: u128) -> Result<Option<u128>, LexFault>
        ensures { GivesOrEnds (λ n. n) result self.old self.new (number_at max self.old) }
    {
        let Some(word) = self.word_or_end()? else {
            return Ok(None);
        };
        let value = self.value_of(word, max)?;
        Ok(Some(value))
    }

    /// Reads the next word of the line as a decimal with or without one `-` before it. Fails as `word`; then with
    /// `BadWord` if the word has another form, or with `NumberTooWide` if its magnitude exceeds `max`.
    #[tactic(auto, unfolding(text_definitions::specs::Reading::signed_at))]
    pub fn signed(&mut self, max: u32) -> Result<i32, LexFault>
        requires { max < signed_bound }
        ensures { Gives (λ n. n) result self.new (signed_at max self.old) }
    {
        let word = self.word()?;
        let (negative, digits) = split_sign(word);
        let value = self.value_of(digits, u128::from(max))?;
        if negative {
            return Ok(-(value as i32));
        }
        Ok(value as i32)
    }

    /// Checks that no word is left on the line. Fails with `BadByte` at a byte that no word contains, or with
    /// `ExtraWord` at a word.
    pub fn end_line(&mut self) -> Result<(), LexFault>
        ensures { Moves result self.new (end_line_at self.old) }
    {
        let (column, front) = front_of(self.line, self.column);
        match front {
            Front::End => Ok(()),
            Front::Stray => Err(self.fault(column, LexKind::BadByte)),
            Front::Word(..) => Err(self.fault(column, LexKind::ExtraWord)),
        }
    }

    /// Whether only spaces and tabs are left on the line.
    pub fn at_end(&self) -> bool
        ensures { IsTrue result ↔ (self.now.current.tokens ≡ []) }
    {
        let (_, front) = front_of(self.line, self.column);
        matches!(&front, Front::End)
    }

    /// The error `BadWord` at the word read last: it does not have the expected form.
    pub fn bad_word(&self) -> LexFault
        ensures { result ≡ word_fault self.now BadWord }
    {
        LexFault {
            place: self.taken,
            kind: LexKind::BadWord,
        }
    }

    /// Reads the next word of the line, as a slice of the input. If only spaces and tabs are left, returns `None`, and
    /// the cursor stays. Fails with `BadByte` at a byte that no word contains.
    fn word_or_end(&mut self) -> Result<Option<&'a [u8]>, LexFault>
        ensures { GivesOrEnds (λ w. w.now) result self.old self.new (word_at self.old) }
    {
        let (column, front) = front_of(self.line, self.column);
        match front {
            Front::End => Ok(None),
            Front::Stray => Err(self.fault(column, LexKind::BadByte)),
            Front::Word(word, after) => {
                self.line = after;
                self.column = column + word.len() as u32;
                self.taken = Place {
                    line: self.number,
                    column,
                };
                Ok(Some(word))
            }
        }
    }

    /// The column after the last byte of the current line.
    fn line_end(&self) -> u32
        ensures { result ≡ self.now.current.end }
    {
        self.column + self.line.len() as u32
    }

    /// An error of kind `kind` in column `column` of the current line.
    fn fault(&self, column: u32, kind: LexKind) -> LexFault
        ensures { result ≡ fault_at self.now column kind }
    {
        let line = self.number;
        let place = Place { line, column };
        LexFault { place, kind }
    }

    /// The value of `digits`, a part of the word read last. Fails with `BadWord` if it is no decimal, or with
    /// `NumberTooWide` if the value exceeds `max`.
    fn value_of(&self, digits: &[u8], max: u128) -> Result<u128, LexFault>
        ensures { Gives (λ n. n) result self.now (number_up_to max (decimal_value digits.now) self.now) }
    {
        let Some(value) = short_value(digits) else {
            return self.any_value_of(digits, max);
        };
        let value = u128::from(value);
        if value > max {
            return Err(self.too_wide());
        }
        Ok(value)
    }

    /// As `value_of`, without the fast way for short decimals.
    fn any_value_of(&self, digits: &[u8], max: u128) -> Result<u128, LexFault>
        ensures { Gives (λ n. n) result self.now (number_up_to max (decimal_value digits.now) self.now) }
    {
        if !is_decimal_word(digits) {
            return Err(self.bad_word());
        }
        value_up_to(digits, max).ok_or(self.too_wide())
    }

    /// The error `NumberTooWide` at the word read last: its value exceeds the maximum.
    fn too_wide(&self) -> LexFault
        ensures { result ≡ word_fault self.now NumberTooWide }
    {
        LexFault {
            place: self.taken,
            kind: LexKind::NumberTooWide,
        }
    }
}

/// Whether `word` begins with `-`, and the bytes after it, or all of `word` if it does not.
fn split_sign(word: &[u8]) -> (bool, &[u8])
    ensures negative { result.0 ≡ is_negative word.now }
    ensures digits { result.1.now ≡ magnitude word.now }
{
    if let [b'-', digits @ ..] = word {
        return (true, digits);
    }
    (false, word)
}
