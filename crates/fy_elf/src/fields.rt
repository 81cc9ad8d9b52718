//! Bytes that are taken field by field.

ghost use Rattle.std.specs.Prelude.{◌≡◌, ◌*◌, ◌^◌, [], All, ◌<◌, ◌≤◌, length, IfOk, IfErr, OnOk, MatchOption, MatchResult, None, Some, false};
ghost use Rattle.std.specs.List.{flat_map};
ghost use Rattle.fy_image.specs.Form.{PlaceFits, word, double, place_bytes};
ghost use Rattle.fy_image.specs.declared.version.Version.TheVariants.{One};
ghost use Rattle.fy_elf.specs.Elf.{number_bytes, numbers_bytes};
ghost use Rattle.fy_elf.specs.Reading.{IsTaken, Judges, JudgesBy};
ghost use Rattle.fy_elf.specs.Refusals.{any, ended, exact, exacts, is_size, nonzero, nonzeros, size_of, sized};
ghost use Rattle.fy_elf.specs.declared.error.ElfError.TheVariants as errors;

use crate::counted::Counted;
use crate::error::ElfError;
use crate::number::Number;
use fy_base::{DoubleList, Place, PlaceList, WordList};
use fy_image::double_of;
use std::alloc::Global;
use std::marker::Model;

/// The bytes that are left of a file of at most 33,554,432, and their offset in it.
#[derive(Drop)]
pub struct Fields<'a> {
    offset: u64,
    rest: &'a [u8],
}

impl<'a> Model for Fields<'a> {
    ghost use Rattle.std.specs.Prelude.{ℕ, ◌+◌, ◌≤◌, length};
    ghost use Rattle.fy_elf.specs.Refusals.{Rest};

    ghost Value = { Rest };

    ghost view = { λ fields. record { offset = fields.offset; bytes = fields.rest.now } };

    ghost invariant = { λ fields. fields.offset + length fields.rest.now ≤ 33554432 };
}

impl<'a> Fields<'a> {
    /// All of a file.
    pub fn new(bytes: &'a [u8]) -> Fields<'a>
        requires { length bytes.now ≤ 33554432 }
        ensures { result ≡ record { offset = 0; bytes = bytes.now } }
    {
        Fields {
            offset: 0,
            rest: bytes,
        }
    }

    // Where what is left begins.
    fn offset(&self) -> u64
        ensures { result ≡ self.now.offset }
    {
        self.offset
    }

    // Takes so many bytes, if they are all there.
    fn take(&mut self, count: usize) -> Result<&'a [u8], ElfError>
        ensures taken { IfOk result (λ part. IsTaken part.now self.old self.new) }
        ensures size { IfOk result (λ part. length part.now ≡ count) }
        ensures cut { IfErr result (λ e. (e ≡ errors.Truncated) × (length self.old.bytes < count)) }
    {
        if self.rest.len() < count {
            return Err(ElfError::Truncated);
        }
        let (part, rest) = self.rest.split_at(count);
        self.rest = rest;
        self.offset += count as u64;
        Ok(part)
    }

    /// Takes just these bytes.
    pub fn exact(&mut self, bytes: &[u8]) -> Result<(), ElfError>
        ensures taken { OnOk result (IsTaken bytes.now self.old self.new) }
        ensures judged { Judges result (exact bytes.now) self.old self.new }
    {
        let offset = self.offset();
        let part = self.take(bytes.len())?;
        if part == bytes {
            Ok(())
        } else {
            Err(ElfError::Bad(offset))
        }
    }

    // Takes just this number.
    #[tactic(auto, unfolding(crate::specs::Elf::number_bytes))]
    fn number(&mut self, number: Number) -> Result<(), ElfError>
        ensures taken { OnOk result (IsTaken (number_bytes number) self.old self.new) }
        ensures judged { Judges result (exact (number_bytes number)) self.old self.new }
    {
        match number {
            Number::Half(n) => self.exact(&n.to_le_bytes()),
            Number::Word(n) => self.exact(&n.to_le_bytes()),
            Number::Double(n) => self.exact(&n.to_le_bytes()),
        }
    }

    /// Takes just these numbers.
    pub fn exacts(&mut self, numbers: &[Number]) -> Result<(), ElfError>
        ensures taken { OnOk result (IsTaken (numbers_bytes numbers.now) self.old self.new) }
        ensures judged { Judges result (exacts numbers.now) self.old self.new }
    {
        for number in numbers {
            self.number(*number)?;
        }
        Ok(())
    }

    // Takes a number of four bytes.
    fn word(&mut self) -> Result<u32, ElfError>
        ensures taken { IfOk result (λ n. IsTaken (word n) self.old self.new) }
        ensures fits { IfOk result (λ n. n < 2 ^ 32) }
        ensures cut { IfErr result (λ e. (e ≡ errors.Truncated) × (length self.old.bytes < 4)) }
    {
        match self.take(4)? {
            [a, b, c, d] => Ok(u32::from_le_bytes([*a, *b, *c, *d])),
            _ => unreachable!(),
        }
    }

    // Takes a number of eight bytes.
    fn double(&mut self) -> Result<u64, ElfError>
        ensures taken { IfOk result (λ n. IsTaken (double n) self.old self.new) }
        ensures fits { IfOk result (λ n. n < 2 ^ 64) }
        ensures cut { IfErr result (λ e. (e ≡ errors.Truncated) × (length self.old.bytes < 8)) }
    {
        Ok(double_of(self.take(8)?))
    }

    // Takes a number of four bytes that isn't 0.
    fn nonzero(&mut self) -> Result<u32, ElfError>
        ensures taken { IfOk result (λ n. IsTaken (word n) self.old self.new) }
        ensures some { IfOk result (λ n. 0 < n) }
        ensures fits { IfOk result (λ n. n < 2 ^ 32) }
        ensures judged { Judges result nonzero self.old self.new }
    {
        let offset = self.offset();
        let n = self.word()?;
        if n == 0 {
            return Err(ElfError::Bad(offset));
        }
        Ok(n)
    }

    /// Takes the size of so many parts.
    pub fn sized(&mut self, counted: &Counted) -> Result<u32, ElfError>
        requires { 0 < counted.now.unit }
        ensures taken { IfOk result (λ n. IsTaken (double (size_of counted.now n)) self.old self.new) }
        ensures range { IfOk result (λ n. (counted.now.least ≤ n) × (n ≤ counted.now.most)) }
        ensures judged { JudgesBy result (sized counted.now) self.old self.new }
    {
        let offset = self.offset();
        let size = self.double()?;
        match count_in(counted, size) {
            Some(count) => Ok(count),
            None => Err(ElfError::Bad(offset)),
        }
    }

    /// Takes so many words of four bytes.
    pub fn words(&mut self, alloc: Global, count: u32) -> Result<WordList, ElfError>
        ensures taken { IfOk result (λ words. IsTaken (flat_map word words) self.old self.new) }
        ensures count { IfOk result (λ words. length words ≡ count) }
        ensures fit { IfOk result (λ words. All (λ n. n < 2 ^ 32) words) }
        ensures judged { Judges result (any (4 * count)) self.old self.new }
    {
        let mut words = WordList::new(alloc);
        for _ in 0..count {
            words.push(self.word()?)?;
        }
        Ok(words)
    }

    /// Takes so many words of eight bytes.
    pub fn doubles(&mut self, alloc: Global, count: u32) -> Result<DoubleList, ElfError>
        ensures taken { IfOk result (λ doubles. IsTaken (flat_map double doubles) self.old self.new) }
        ensures count { IfOk result (λ doubles. length doubles ≡ count) }
        ensures fit { IfOk result (λ doubles. All (λ n. n < 2 ^ 64) doubles) }
        ensures judged { Judges result (any (8 * count)) self.old self.new }
    {
        let mut doubles = DoubleList::new(alloc);
        for _ in 0..count {
            doubles.push(self.double()?)?;
        }
        Ok(doubles)
    }

    /// Takes so many places, each its line and then its column.
    pub fn places(&mut self, alloc: Global, count: u32) -> Result<PlaceList, ElfError>
        ensures taken { IfOk result (λ places. IsTaken (flat_map (place_bytes One) places) self.old self.new) }
        ensures count { IfOk result (λ places. length places ≡ count) }
        ensures fit { IfOk result (λ places. All PlaceFits places) }
        ensures judged { Judges result (nonzeros (2 * count)) self.old self.new }
    {
        let mut places = PlaceList::new(alloc);
        for _ in 0..count {
            let line = self.nonzero()?;
            let col = self.nonzero()?;
            places.push(Place { line, col })?;
        }
        Ok(places)
    }

    /// Whether nothing is left.
    pub fn end(&self) -> Result<(), ElfError>
        ensures done { OnOk result (self.now.bytes ≡ []) }
        ensures judged { MatchResult result
            (λ _. ended self.now ≡ None)
            (λ e. ended self.now ≡ Some e) }
    {
        if self.rest.is_empty() {
            Ok(())
        } else {
            Err(ElfError::Trailing(self.rest.len() as u64))
        }
    }
}

// How many parts the size is of, where it is one.
fn count_in(counted: &Counted, size: u64) -> Option<u32>
    requires { 0 < counted.now.unit }
    ensures { MatchOption result
        (is_size counted.now size ≡ false)
        (λ n. (size_of counted.now n ≡ size) × (counted.now.least ≤ n) × (n ≤ counted.now.most)) }
{
    let base = u64::from(counted.base);
    let unit = u64::from(counted.unit);
    if size < base || (size - base) % unit != 0 {
        return None;
    }
    let count = (size - base) / unit;
    if count < u64::from(counted.least) || u64::from(counted.most) < count {
        return None;
    }
    Some(count as u32)
}
