//! Reading an ELF file.

ghost use Rattle.std.specs.Prelude.{◌≡◌, ◌+◌, ◌*◌, ◌≤◌, ◌<◌, IfOk, MatchResult};
ghost use Rattle.fy_elf.specs.Elf.{IsElfBytes, code_segment, headers, note_segment, numbers_bytes, program_header, stack_segment, table_segment};
ghost use Rattle.fy_elf.specs.Memory.{LoadsAsStart};
ghost use Rattle.fy_elf.specs.Reading.{IsContents, IsJudged, IsTaken, JudgesBy, SizesFit};
ghost use Rattle.fy_elf.specs.Refusals.{code_counted, content_fields, header_fields, places_counted, refusal_of, segment_fields, size_of, stack_fields, table_counted};
ghost use Rattle.fy_elf.specs.declared.error.ElfError.TheVariants as errors;
ghost use Rattle.fy_image.specs.declared.image.Image.{Image};

use crate::counted::{Counted, code_counted, places_counted, stack_counted, table_counted};
use crate::error::ElfError;
use crate::fields::Fields;
use crate::headers::{
    Segment, Sizes, code_segment, file_header, note_header, note_segment, padding, segment_start,
    stack_segment, table_segment,
};
use crate::number::Number;
use fy_image::Image;
use std::alloc::Global;

/// The longest file, in bytes.
const MOST_BYTES: usize = 33_554_432;

// A program header whose two sizes are the same.
fn segment(fields: &mut Fields, segment: &Segment, counted: &Counted) -> Result<u32, ElfError>
    requires { 0 < counted.now.unit }
    ensures taken { IfOk result (λ n. IsTaken (numbers_bytes (program_header segment.now (size_of counted.now n) (size_of counted.now n))) fields.old fields.new) }
    ensures range { IfOk result (λ n. (counted.now.least ≤ n) × (n ≤ counted.now.most)) }
    ensures judged { JudgesBy result (segment_fields segment.now counted.now) fields.old fields.new }
{
    fields.exacts(&segment_start(segment))?;
    let count = fields.sized(counted)?;
    let size = counted.base as u64 + counted.unit as u64 * count as u64;
    fields.exacts(&[Number::Double(size), Number::Double(segment.alignment)])?;
    Ok(count)
}

// The program header of the code.
fn code(fields: &mut Fields) -> Result<u32, ElfError>
    ensures taken { IfOk result (λ n. IsTaken (numbers_bytes (program_header code_segment (4 * n) (4 * n))) fields.old fields.new) }
    ensures range { IfOk result (λ n. (1 ≤ n) × (n ≤ 4194304)) }
    ensures judged { JudgesBy result (segment_fields code_segment code_counted) fields.old fields.new }
{
    segment(fields, &code_segment(), &code_counted())
}

// The program header of the table behind so many words of code.
fn table(fields: &mut Fields, code_words: u32) -> Result<u32, ElfError>
    ensures taken { IfOk result (λ n. IsTaken (numbers_bytes (program_header (table_segment code_words) (8 * n) (8 * n))) fields.old fields.new) }
    ensures range { IfOk result (λ n. (0 ≤ n) × (n ≤ 1048576)) }
    ensures judged { JudgesBy result (segment_fields (table_segment code_words) table_counted) fields.old fields.new }
{
    segment(fields, &table_segment(code_words), &table_counted())
}

// The program header of the note behind so many words of code and of the table.
fn note(fields: &mut Fields, code_words: u32, table_words: u32) -> Result<u32, ElfError>
    ensures taken { IfOk result (λ n. IsTaken (numbers_bytes (program_header (note_segment code_words table_words) (16 + 8 * n) (16 + 8 * n))) fields.old fields.new) }
    ensures range { IfOk result (λ n. (0 ≤ n) × (n ≤ 524288)) }
    ensures judged { JudgesBy result (segment_fields (note_segment code_words table_words) places_counted) fields.old fields.new }
{
    segment(
        fields,
        &note_segment(code_words, table_words),
        &places_counted(),
    )
}

// The program header of the stack.
fn stack(fields: &mut Fields) -> Result<u32, ElfError>
    ensures taken { IfOk result (λ n. IsTaken (numbers_bytes (program_header stack_segment 0 (8 * n))) fields.old fields.new) }
    ensures range { IfOk result (λ n. (1024 ≤ n) × (n ≤ 67108864)) }
    ensures judged { JudgesBy result stack_fields fields.old fields.new }
{
    let stack = stack_segment();
    fields.exacts(&segment_start(&stack))?;
    fields.exacts(&[Number::Double(0)])?;
    let count = fields.sized(&stack_counted())?;
    fields.exacts(&[Number::Double(stack.alignment)])?;
    Ok(count)
}

// The headers.
fn read_headers(fields: &mut Fields) -> Result<Sizes, ElfError>
    ensures taken { IfOk result (λ sizes. IsTaken (numbers_bytes (headers sizes)) fields.old fields.new) }
    ensures ranges { IfOk result (λ sizes. SizesFit sizes) }
    ensures judged { JudgesBy result header_fields fields.old fields.new }
{
    fields.exacts(&file_header())?;
    let code_words = code(fields)?;
    let table_words = table(fields, code_words)?;
    let stack_words = stack(fields)?;
    let places = note(fields, code_words, table_words)?;
    Ok(Sizes {
        code_words,
        table_words,
        stack_words,
        places,
    })
}

// What stands behind the headers.
fn read_contents(alloc: Global, sizes: &Sizes, fields: &mut Fields) -> Result<Image, ElfError>
    requires { SizesFit sizes.now }
    ensures found { IfOk result (λ image. IsContents sizes.now image fields.old) }
    ensures judged { IsJudged result (content_fields sizes.now fields.old) }
{
    let code = fields.words(alloc, sizes.code_words)?;
    fields.exact(padding(sizes.code_words))?;
    let table = fields.doubles(alloc, sizes.table_words)?;
    fields.exacts(&note_header(sizes.places))?;
    let places = fields.places(alloc, sizes.places)?;
    fields.end()?;
    Ok(Image {
        stack_words: sizes.stack_words,
        code,
        table,
        places,
    })
}

// All fields.
fn read(alloc: Global, bytes: &[u8]) -> Result<Image, ElfError>
    ensures found { IfOk result (λ image. IsElfBytes image bytes.now) }
    ensures judged { IsJudged result (refusal_of bytes.now) }
{
    if bytes.len() > MOST_BYTES {
        return Err(ElfError::TooLarge);
    }
    let mut fields = Fields::new(bytes);
    let sizes = read_headers(&mut fields)?;
    read_contents(alloc, &sizes, &mut fields)
}

/// The image whose ELF file the bytes are. A loader makes of them the memory that the image's machine starts with.
///
/// # Errors
///
/// The first field that isn't as it has to be, in the order of the offsets: `TooLarge` before all else, then
/// `Truncated` for a field that the bytes don't hold whole, `Bad` for one that is another, and
/// `Trailing` for bytes after the last place. There is one exactly where the bytes are no
/// image's ELF file, but for `OutOfMemory`.
pub fn read_elf(alloc: Global, bytes: &[u8]) -> Result<Image, ElfError>
    ensures found { IfOk result (λ image. IsElfBytes image bytes.now) }
    ensures only { (image : Image) → IsElfBytes image bytes.now
        → MatchResult result (λ read. read ≡ image) (λ e. e ≡ errors.OutOfMemory) }
    ensures judged { IsJudged result (refusal_of bytes.now) }
    ensures loads { IfOk result (λ image. LoadsAsStart image bytes.now) }
{
    read(alloc, bytes)
}
