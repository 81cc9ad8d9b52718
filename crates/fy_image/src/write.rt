//! Writing an image.

ghost use Rattle.std.specs.Prelude.{◌≡◌, ◌++◌, ◌<◌, ◌^◌, All, IfOk, OnOk};
ghost use Rattle.std.specs.List.{flat_map};
ghost use Rattle.fy_image.specs.Form.{IsImageBytes, IsSpelled, PlaceFits, word, double, short, place_bytes};
ghost use Rattle.fy_image.specs.Ranges.{IsImage};

use crate::fields::MAGIC;
use crate::image::Image;
use crate::version::Version;
use fy_base::{OutOfMemory, Place};
use std::alloc::Global;

// Writes a number of four bytes.
fn put_number(bytes: &mut Vec<u8>, n: u32) -> Result<(), OutOfMemory>
    ensures { OnOk result (bytes.new.items ≡ bytes.old.items ++ word n) }
{
    bytes.extend_from_slice(&n.to_le_bytes())?;
    Ok(())
}

/// Writes words of four bytes.
pub fn put_words(bytes: &mut Vec<u8>, words: &[u32]) -> Result<(), OutOfMemory>
    ensures put { OnOk result (bytes.new.items ≡ bytes.old.items ++ flat_map word words.now) }
    ensures fit { All (λ n. n < 2 ^ 32) words.now }
{
    for word in words {
        put_number(bytes, *word)?;
    }
    Ok(())
}

/// Writes words of eight bytes.
pub fn put_doubles(bytes: &mut Vec<u8>, doubles: &[u64]) -> Result<(), OutOfMemory>
    ensures put { OnOk result (bytes.new.items ≡ bytes.old.items ++ flat_map double doubles.now) }
    ensures fit { All (λ n. n < 2 ^ 64) doubles.now }
{
    for double in doubles {
        bytes.extend_from_slice(&double.to_le_bytes())?;
    }
    Ok(())
}

// Writes a short number.
fn put_short(bytes: &mut Vec<u8>, n: u32) -> Result<(), OutOfMemory>
    requires { 0 < n }
    ensures { OnOk result (bytes.new.items ≡ bytes.old.items ++ short n) }
{
    let mut left = n;
    while left >= 128 {
        bytes.push((128 + left % 128) as u8)?;
        left /= 128;
    }
    bytes.push(left as u8)?;
    Ok(())
}

// Writes a place: its line, then its column.
fn put_place(bytes: &mut Vec<u8>, place: &Place) -> Result<(), OutOfMemory>
    ensures put { OnOk result (bytes.new.items ≡ bytes.old.items ++ place_bytes Version.Two place.now) }
    ensures fits { PlaceFits place.now }
{
    let Place { line, col } = *place;
    put_short(bytes, line)?;
    put_short(bytes, col)
}

// Writes places.
fn put_places(bytes: &mut Vec<u8>, places: &[Place]) -> Result<(), OutOfMemory>
    ensures put { OnOk result (bytes.new.items ≡ bytes.old.items ++ flat_map (place_bytes Version.Two) places.now) }
    ensures fit { OnOk result (All PlaceFits places.now) }
{
    for place in places {
        put_place(bytes, place)?;
    }
    Ok(())
}

/// The bytes of an image, in version 2.
pub fn write_image(alloc: Global, image: &Image) -> Result<Vec<u8>, OutOfMemory>
    requires { IsImage image.now }
    ensures image_bytes { IfOk result (λ bytes. IsImageBytes image.now bytes.items) }
    ensures version_2 { IfOk result (λ bytes. IsSpelled Version.Two image.now bytes.items) }
{
    let size = 32 + 4 * image.code.len() + 8 * image.table.len() + 10 * image.places.len();
    let mut bytes = Vec::with_capacity(alloc, size)?;
    bytes.extend_from_slice(&MAGIC)?;
    put_number(&mut bytes, 2)?;
    put_number(&mut bytes, image.stack_words)?;
    put_number(&mut bytes, image.code.len() as u32)?;
    put_number(&mut bytes, image.table.len() as u32)?;
    put_number(&mut bytes, image.places.len() as u32)?;
    put_number(&mut bytes, 0)?;
    put_words(&mut bytes, image.code.as_slice())?;
    put_doubles(&mut bytes, image.table.as_slice())?;
    put_places(&mut bytes, image.places.as_slice())?;
    Ok(bytes)
}
