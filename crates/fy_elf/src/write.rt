//! Writing an ELF file.

ghost use Rattle.std.specs.Prelude.{◌≡◌, ◌++◌, All, IfOk, OnOk};
ghost use Rattle.std.specs.List.{flat_map};
ghost use Rattle.fy_image.specs.Form.{PlaceFits, place_bytes};
ghost use Rattle.fy_image.specs.Ranges.{IsImage};
ghost use Rattle.fy_image.specs.declared.version.Version.TheVariants.{One};
ghost use Rattle.fy_elf.specs.Elf.{IsElfBytes, headers, number_bytes, numbers_bytes, program_header};
ghost use Rattle.fy_elf.specs.Memory.{LoadsAsStart};

use crate::headers::{
    Segment, Sizes, code_segment, file_header, note_header, note_segment, padding, segment_end,
    segment_start, stack_segment, table_segment,
};
use crate::number::Number;
use fy_base::{OutOfMemory, Place};
use fy_image::{Image, put_doubles, put_words};
use std::alloc::Global;

// Writes a number.
#[tactic(auto, unfolding(crate::specs::Elf::number_bytes))]
fn put_number(bytes: &mut Vec<u8>, number: Number) -> Result<(), OutOfMemory>
    ensures { OnOk result (bytes.new.items ≡ bytes.old.items ++ number_bytes number) }
{
    match number {
        Number::Half(n) => bytes.extend_from_slice(&n.to_le_bytes())?,
        Number::Word(n) => bytes.extend_from_slice(&n.to_le_bytes())?,
        Number::Double(n) => bytes.extend_from_slice(&n.to_le_bytes())?,
    }
    Ok(())
}

// Writes numbers.
#[tactic(auto, unfolding(crate::specs::Elf::numbers_bytes))]
fn put_numbers(bytes: &mut Vec<u8>, numbers: &[Number]) -> Result<(), OutOfMemory>
    ensures { OnOk result (bytes.new.items ≡ bytes.old.items ++ numbers_bytes numbers.now) }
{
    for number in numbers {
        put_number(bytes, *number)?;
    }
    Ok(())
}

// Writes a program header.
#[tactic(auto, unfolding(crate::specs::Elf::numbers_bytes, crate::specs::Elf::program_header))]
fn put_segment(
    bytes: &mut Vec<u8>,
    segment: &Segment,
    file_size: u64,
    memory_size: u64,
) -> Result<(), OutOfMemory>
    ensures { OnOk result (bytes.new.items ≡ bytes.old.items ++ numbers_bytes (program_header segment.now file_size memory_size)) }
{
    put_numbers(bytes, &segment_start(segment))?;
    put_numbers(bytes, &segment_end(segment, file_size, memory_size))
}

// Writes the headers.
fn put_headers(bytes: &mut Vec<u8>, sizes: &Sizes) -> Result<(), OutOfMemory>
    ensures { OnOk result (bytes.new.items ≡ bytes.old.items ++ numbers_bytes (headers sizes.now)) }
{
    let code = 4 * sizes.code_words as u64;
    let table = 8 * sizes.table_words as u64;
    let stack = 8 * sizes.stack_words as u64;
    let note = 16 + 8 * sizes.places as u64;
    put_numbers(bytes, &file_header())?;
    put_segment(bytes, &code_segment(), code, code)?;
    put_segment(bytes, &table_segment(sizes.code_words), table, table)?;
    put_segment(bytes, &stack_segment(), 0, stack)?;
    put_segment(
        bytes,
        &note_segment(sizes.code_words, sizes.table_words),
        note,
        note,
    )?;
    Ok(())
}

// Writes a place: its line, then its column.
fn put_place(bytes: &mut Vec<u8>, place: &Place) -> Result<(), OutOfMemory>
    ensures put { OnOk result (bytes.new.items ≡ bytes.old.items ++ place_bytes One place.now) }
    ensures fits { PlaceFits place.now }
{
    let Place { line, col } = *place;
    bytes.extend_from_slice(&line.to_le_bytes())?;
    bytes.extend_from_slice(&col.to_le_bytes())?;
    Ok(())
}

// Writes places.
fn put_places(bytes: &mut Vec<u8>, places: &[Place]) -> Result<(), OutOfMemory>
    ensures put { OnOk result (bytes.new.items ≡ bytes.old.items ++ flat_map (place_bytes One) places.now) }
    ensures fit { OnOk result (All PlaceFits places.now) }
{
    for place in places {
        put_place(bytes, place)?;
    }
    Ok(())
}

/// The bytes of the ELF file of an image. A loader makes of them the memory that the image's machine starts with.
pub fn write_elf(alloc: Global, image: &Image) -> Result<Vec<u8>, OutOfMemory>
    requires { IsImage image.now }
    ensures elf { IfOk result (λ bytes. IsElfBytes image.now bytes.items) }
    ensures loads { IfOk result (λ bytes. LoadsAsStart image.now bytes.items) }
{
    let sizes = Sizes {
        code_words: image.code.len() as u32,
        table_words: image.table.len() as u32,
        stack_words: image.stack_words,
        places: image.places.len() as u32,
    };
    let size = 312 + 4 * image.code.len() + 8 * image.table.len() + 8 * image.places.len();
    let mut bytes = Vec::with_capacity(alloc, size)?;
    put_headers(&mut bytes, &sizes)?;
    put_words(&mut bytes, image.code.as_slice())?;
    bytes.extend_from_slice(padding(sizes.code_words))?;
    put_doubles(&mut bytes, image.table.as_slice())?;
    put_numbers(&mut bytes, &note_header(sizes.places))?;
    put_places(&mut bytes, image.places.as_slice())?;
    Ok(bytes)
}
