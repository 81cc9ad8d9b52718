//! A text that is read byte by byte.

ghost use Rattle.std.specs.Prelude.{◌≡◌, ◌<◌, ◌+◌, ◌^◌, length, MatchOption, slice_get, IsTrue};
ghost use Rattle.std.specs.List.{list_all, prefix_len};
ghost use Rattle.fy_base.specs.Places.{first_place};
ghost use Rattle.fy_types.specs.Words.{is_digit, is_letter, is_name_byte};
ghost use Rattle.fy_lexer.specs.Pieces.{is_blank};
ghost use Rattle.fy_lexer.specs.Reading.{passes};
ghost use Rattle.fy_lexer.specs.Spot.{IsSpent, Moved, Spot, TakesByte};

use fy_base::Place;
use std::marker::Model;

/// Whether a byte is a blank: tab, line feed, carriage return or space.
pub(crate) fn is_blank(byte: u8) -> bool
    ensures { result ≡ is_blank byte }
{
    matches!(byte, b'\t' | b'\n' | b'\r' | b' ')
}

/// Whether a byte is a letter, A to Z or a to z.
pub(crate) fn is_letter(byte: u8) -> bool
    ensures { result ≡ is_letter byte }
{
    matches!(byte, b'A'..=b'Z' | b'a'..=b'z')
}

/// Whether a byte is a digit, 0 to 9.
pub(crate) fn is_digit(byte: u8) -> bool
    ensures { result ≡ is_digit byte }
{
    matches!(byte, b'0'..=b'9')
}

fn is_name_byte(byte: u8) -> bool
    ensures { result ≡ is_name_byte byte }
{
    is_letter(byte) || is_digit(byte) || byte == b'_'
}

/// Bytes that are taken in a run.
#[derive(Clone, Copy, Debug)]
pub(crate) enum Class {
    /// Letters, digits and `_`.
    Name,
    /// Digits.
    Digit,
    /// What stands inside a comment: all but `}`.
    Inside,
}

impl Class {
    fn passes(self, byte: u8) -> bool
        ensures { result ≡ passes self byte }
    {
        match self {
            Class::Name => is_name_byte(byte),
            Class::Digit => is_digit(byte),
            Class::Inside => byte != b'}',
        }
    }
}

/// What is left of a text, and the place of its first byte.
#[derive(Debug, Drop)]
pub(crate) struct Reader<'a> {
    rest: &'a [u8],
    place: Place,
}

impl<'a> Model for Reader<'a> {
    ghost use Rattle.std.specs.Prelude.{ℕ, ◌<◌, ◌+◌, ◌^◌, length};
    ghost use Rattle.fy_lexer.specs.Spot.{Spot};

    ghost Value = { Spot };

    ghost view = { λ reader. record { rest = reader.rest.now; place = reader.place } };

    // A step that makes the line or the column greater leaves one byte fewer.
    ghost invariant = { λ reader. reader.place.line + reader.place.col + length reader.rest.now < 2 ^ 32 };
}

impl<'a> Reader<'a> {
    /// A reader at the beginning of a text.
    pub fn new(text: &'a [u8]) -> Reader<'a>
        requires { length text.now < 2 ^ 31 }
        ensures { result ≡ record { rest = text.now; place = first_place } }
    {
        Reader {
            rest: text,
            place: Place::first(),
        }
    }

    /// The place of the next byte.
    pub fn place(&self) -> Place
        ensures { result ≡ self.now.place }
    {
        self.place
    }

    /// The next byte, which stays.
    pub fn peek(&self) -> Option<u8>
        ensures { result ≡ slice_get self.now.rest 0 }
    {
        self.rest.first().copied()
    }

    /// Takes the next byte.
    pub fn next(&mut self) -> Option<u8>
        ensures { MatchOption result (IsSpent self.old self.new) (λ b. TakesByte self.old b self.new) }
    {
        let byte = *self.rest.first()?;
        self.rest = &self.rest[1..];
        self.place = if byte == b'\n' {
            self.place.next_line()
        } else {
            self.place.columns_on(1)
        };
        Some(byte)
    }

    /// Takes the bytes of a class, up to the first that isn't of it.
    pub fn run(&mut self, class: Class) -> &'a [u8]
        ensures moved { Moved self.old result.now self.new }
        ensures passing { IsTrue (list_all (passes class) result.now) }
        ensures stopped { prefix_len (passes class) self.new.rest ≡ 0 }
    {
        let text = self.rest;
        let mut len = 0;
        while let Some(byte) = self.peek() {
            if !class.passes(byte) {
                break;
            }
            self.next();
            len += 1;
        }
        &text[..len]
    }
}
