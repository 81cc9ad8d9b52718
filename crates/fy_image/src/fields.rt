//! Bytes that are taken field by field.

ghost use Rattle.std.specs.Prelude.{◌≡◌, ◌*◌, ◌%◌, ◌^◌, [], ◌++◌, All, ◌<◌, ◌≤◌, length, List, IfOk, IfErr, OnOk, MatchOption, MatchResult, None, Some, false};
ghost use Rattle.std.specs.List.{flat_map};
ghost use Rattle.fy_base.specs.Outside.{Bytes};
ghost use Rattle.fy_image.specs.Form.{PlaceFits, magic, word, double, short, place_bytes, most_stack};
ghost use Rattle.fy_image.specs.Reading.{Judges, JudgesAll, is_place};
ghost use Rattle.fy_image.specs.Refusals.{any_bytes, first_refusal, magic_refusal, number_in, place_fields, place_list, short_number};
ghost use Rattle.fy_image.specs.declared.error.ImageError.TheVariants as errors;

use crate::error::ImageError;
use crate::short::{short_of, short_size};
use crate::version::Version;
use fy_base::{DoubleList, Place, PlaceList, WordList};
use std::alloc::Global;
use std::marker::Model;

/// How an image begins.
pub const MAGIC: [u8; 8] = *b"FORSYF64";

/// The bytes that are left.
#[derive(Drop)]
pub struct Fields<'a> {
    rest: &'a [u8],
}

impl<'a> Model for Fields<'a> {
    ghost use Rattle.std.specs.Prelude.{List, ℕ};

    ghost Value = { List ℕ };

    ghost view = { λ fields. fields.rest.now };
}

impl<'a> Fields<'a> {
    pub fn new(bytes: &'a [u8]) -> Fields<'a>
        ensures { result ≡ bytes.now }
    {
        Fields { rest: bytes }
    }

    /// Takes so many bytes, if they are all there.
    fn take(&mut self, count: usize) -> Result<&'a [u8], ImageError>
        ensures part { IfOk result (λ part. self.old ≡ part.now ++ self.new) }
        ensures size { IfOk result (λ part. length part.now ≡ count) }
        ensures cut { IfErr result (λ e. (e ≡ errors.Truncated) × (length self.old < count)) }
    {
        if self.rest.len() < count {
            return Err(ImageError::Truncated);
        }
        let (part, rest) = self.rest.split_at(count);
        self.rest = rest;
        Ok(part)
    }

    /// Takes the magic.
    pub fn magic(&mut self) -> Result<(), ImageError>
        ensures taken { OnOk result (self.old ≡ magic ++ self.new) }
        ensures judged { MatchResult result (λ _. magic_refusal self.old ≡ None) (λ e. magic_refusal self.old ≡ Some e) }
    {
        let (start, rest) = self.rest.split_at(self.rest.len().min(8));
        if !MAGIC.starts_with(start) {
            return Err(ImageError::BadMagic);
        }
        if start.len() < 8 {
            return Err(ImageError::Truncated);
        }
        self.rest = rest;
        Ok(())
    }

    /// Takes a number of four bytes.
    pub fn number(&mut self) -> Result<u32, ImageError>
        ensures taken { IfOk result (λ n. self.old ≡ word n ++ self.new) }
        ensures fits { IfOk result (λ n. n < 2 ^ 32) }
        ensures cut { IfErr result (λ e. (e ≡ errors.Truncated) × (length self.old < 4)) }
    {
        match self.take(4)? {
            [a, b, c, d] => Ok(u32::from_le_bytes([*a, *b, *c, *d])),
            _ => unreachable!(),
        }
    }

    /// Takes a number of eight bytes.
    fn double(&mut self) -> Result<u64, ImageError>
        ensures taken { IfOk result (λ n. self.old ≡ double n ++ self.new) }
        ensures fits { IfOk result (λ n. n < 2 ^ 64) }
        ensures cut { IfErr result (λ e. (e ≡ errors.Truncated) × (length self.old < 8)) }
    {
        Ok(double_of(self.take(8)?))
    }

    /// Takes two numbers of four bytes.
    fn two_numbers(&mut self) -> Result<(u32, u32), ImageError>
        ensures taken { IfOk result (λ two. self.old ≡ (word two.0 ++ word two.1) ++ self.new) }
        ensures fit { IfOk result (λ two. (two.0 < 2 ^ 32) × (two.1 < 2 ^ 32)) }
        ensures cut { IfErr result (λ e. (e ≡ errors.Truncated) × (length self.old < 8)) }
    {
        let first = self.number()?;
        let second = self.number()?;
        Ok((first, second))
    }

    /// Takes a number of four bytes, which has to be in a range.
    pub fn number_in(&mut self, least: u32, most: u32, field: u8) -> Result<u32, ImageError>
        ensures taken { IfOk result (λ n. self.old ≡ word n ++ self.new) }
        ensures range { IfOk result (λ n. (least ≤ n) × (n ≤ most)) }
        ensures fits { IfOk result (λ n. n < 2 ^ 32) }
        ensures judged { Judges result (number_in least most field) self.old self.new }
    {
        let n = self.number()?;
        if n < least || most < n {
            return Err(ImageError::BadField(field));
        }
        Ok(n)
    }

    /// Takes the words of stack, as many as a version has.
    pub fn stack_words(&mut self, version: Version) -> Result<u32, ImageError>
        ensures taken { IfOk result (λ n. self.old ≡ word n ++ self.new) }
        ensures range { IfOk result (λ n. (1024 ≤ n) × (n ≤ most_stack version)) }
        ensures fits { IfOk result (λ n. n < 2 ^ 32) }
        ensures judged { Judges result (number_in 1024 (most_stack version) 1) self.old self.new }
    {
        match version {
            Version::One => self.number_in(1024, 16_777_216, 1),
            Version::Two => self.number_in(1024, 67_108_864, 1),
        }
    }

    /// Takes a short number.
    fn short(&mut self, field: u8) -> Result<u32, ImageError>
        ensures taken { IfOk result (λ n. self.old ≡ short n ++ self.new) }
        ensures some { IfOk result (λ n. 0 < n) }
        ensures fits { IfOk result (λ n. n < 2 ^ 32) }
        ensures judged { Judges result (short_number field) self.old self.new }
    {
        let size = short_size(self.rest);
        let bytes = self.take(size)?;
        match short_of(bytes) {
            Some(n) => Ok(n),
            None => Err(ImageError::BadField(field)),
        }
    }

    /// Takes so many words of four bytes.
    pub fn words(&mut self, alloc: Global, count: u32) -> Result<WordList, ImageError>
        ensures taken { IfOk result (λ words. self.old ≡ flat_map word words ++ self.new) }
        ensures count { IfOk result (λ words. length words ≡ count) }
        ensures fit { IfOk result (λ words. All (λ n. n < 2 ^ 32) words) }
        ensures judged { Judges result (any_bytes (4 * count)) self.old self.new }
    {
        let mut words = WordList::new(alloc);
        for _ in 0..count {
            words.push(self.number()?)?;
        }
        Ok(words)
    }

    /// Takes so many words of eight bytes.
    pub fn doubles(&mut self, alloc: Global, count: u32) -> Result<DoubleList, ImageError>
        ensures taken { IfOk result (λ doubles. self.old ≡ flat_map double doubles ++ self.new) }
        ensures count { IfOk result (λ doubles. length doubles ≡ count) }
        ensures fit { IfOk result (λ doubles. All (λ n. n < 2 ^ 64) doubles) }
        ensures judged { Judges result (any_bytes (8 * count)) self.old self.new }
    {
        let mut doubles = DoubleList::new(alloc);
        for _ in 0..count {
            doubles.push(self.double()?)?;
        }
        Ok(doubles)
    }

    /// Takes so many places, each its line and then its column.
    pub fn places(
        &mut self,
        alloc: Global,
        version: Version,
        count: u32,
        field: u8,
    ) -> Result<PlaceList, ImageError>
        ensures taken { IfOk result (λ places. self.old ≡ flat_map (place_bytes version) places ++ self.new) }
        ensures count { IfOk result (λ places. length places ≡ count) }
        ensures fit { IfOk result (λ places. All PlaceFits places) }
        ensures judged { JudgesAll result (place_fields version count field) self.old self.new }
    {
        match version {
            Version::One => self.word_places(alloc, count, field),
            Version::Two => self.short_places(alloc, count, field),
        }
    }

    /// Takes so many places of eight bytes. Where bytes are wanting for them no place is judged.
    fn word_places(&mut self, alloc: Global, count: u32, field: u8) -> Result<PlaceList, ImageError>
        ensures taken { IfOk result (λ places. self.old ≡ flat_map (place_bytes Version.One) places ++ self.new) }
        ensures count { IfOk result (λ places. length places ≡ count) }
        ensures fit { IfOk result (λ places. All PlaceFits places) }
        ensures judged { Judges result (place_list count field) self.old self.new }
    {
        if self.rest.len() < 8 * count as usize {
            return Err(ImageError::Truncated);
        }
        let mut places = PlaceList::new(alloc);
        for _ in 0..count {
            let (line, col) = self.two_numbers()?;
            match place_in(line, col) {
                Some(place) => places.push(place)?,
                None => return Err(ImageError::BadField(field)),
            }
        }
        Ok(places)
    }

    /// Takes so many places of two short numbers.
    fn short_places(
        &mut self,
        alloc: Global,
        count: u32,
        field: u8,
    ) -> Result<PlaceList, ImageError>
        ensures taken { IfOk result (λ places. self.old ≡ flat_map (place_bytes Version.Two) places ++ self.new) }
        ensures count { IfOk result (λ places. length places ≡ count) }
        ensures fit { IfOk result (λ places. All PlaceFits places) }
        ensures judged { JudgesAll result (place_fields Version.Two count field) self.old self.new }
    {
        let mut places = PlaceList::new(alloc);
        for _ in 0..count {
            let line = self.short(field)?;
            let col = self.short(field)?;
            places.push(Place { line, col })?;
        }
        Ok(places)
    }

    /// Whether nothing is left.
    pub fn end(&self) -> Result<(), ImageError>
        ensures done { OnOk result (self.now ≡ []) }
        ensures judged { MatchResult result
            (λ _. first_refusal [] self.now ≡ None)
            (λ e. first_refusal [] self.now ≡ Some e) }
    {
        if self.rest.is_empty() {
            Ok(())
        } else {
            Err(ImageError::Trailing(self.rest.len() as u64))
        }
    }
}

/// The number of eight bytes.
pub fn double_of(bytes: &[u8]) -> u64
    requires { length bytes.now ≡ 8 }
    ensures { double result ≡ bytes.now }
{
    let mut eight = [0; 8];
    eight.copy_from_slice(bytes);
    u64::from_le_bytes(eight)
}

// The place in a line and a column, unless one of them is 0.
fn place_in(line: u32, col: u32) -> Option<Place>
    ensures { MatchOption result (is_place line col ≡ false) (λ place. (place.line ≡ line) × (place.col ≡ col)) }
{
    if line == 0 || col == 0 {
        return None;
    }
    Some(Place { line, col })
}
