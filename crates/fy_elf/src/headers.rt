//! The headers of a file, as numbers.

ghost use Rattle.std.specs.Prelude.{◌≡◌, ◌≤◌, ◌*◌};
ghost use Rattle.fy_elf.specs.Elf.{code_segment, file_header, note_header, note_offset, note_segment, padding, segment_end, segment_start, stack_segment, table_offset, table_segment};

use crate::number::Number;

/// What the file says of a segment, but for its sizes.
#[derive(Clone, Copy)]
pub struct Segment {
    /// 1 where it is loaded, 4 for a note.
    pub kind: u32,
    /// 1 to execute, 2 to write, 4 to read.
    pub flags: u32,
    /// Where it is in the file.
    pub offset: u64,
    /// Where it is in memory.
    pub address: u64,
    /// What both are multiples of.
    pub alignment: u64,
}

/// How much there is of each part of an image.
#[derive(Clone, Copy)]
pub struct Sizes {
    /// The words of the code.
    pub code_words: u32,
    /// The words of the table.
    pub table_words: u32,
    /// The words of the stack.
    pub stack_words: u32,
    /// The places.
    pub places: u32,
}

// 7f "ELF", 64 bits, little-endian, version 1.
const IDENTIFICATION: u64 = 0x0001_0102_464c_457f;
// "F64"
const NOTE_NAME: u32 = 0x0034_3646;

/// The header of the file.
#[tactic(auto, unfolding(crate::specs::Elf::file_header, crate::specs::Elf::identification))]
pub fn file_header() -> [Number; 15]
    ensures { result ≡ file_header }
{
    [
        Number::Double(IDENTIFICATION),
        Number::Double(0),
        Number::Half(2),
        Number::Half(243),
        Number::Word(1),
        Number::Double(65536),
        Number::Double(64),
        Number::Double(0),
        Number::Word(0),
        Number::Half(64),
        Number::Half(56),
        Number::Half(4),
        Number::Half(0),
        Number::Half(0),
        Number::Half(0),
    ]
}

/// A program header up to the sizes.
#[tactic(auto, unfolding(crate::specs::Elf::segment_start))]
pub fn segment_start(segment: &Segment) -> [Number; 5]
    ensures { result ≡ segment_start segment.now }
{
    [
        Number::Word(segment.kind),
        Number::Word(segment.flags),
        Number::Double(segment.offset),
        Number::Double(segment.address),
        Number::Double(segment.address),
    ]
}

/// A program header from the sizes on.
#[tactic(auto, unfolding(crate::specs::Elf::segment_end))]
pub fn segment_end(segment: &Segment, file_size: u64, memory_size: u64) -> [Number; 3]
    ensures { result ≡ segment_end segment.now file_size memory_size }
{
    [
        Number::Double(file_size),
        Number::Double(memory_size),
        Number::Double(segment.alignment),
    ]
}

// Where the table is in the file.
#[tactic(auto, unfolding(crate::specs::Elf::table_offset))]
fn table_offset(code_words: u32) -> u64
    ensures { result ≡ table_offset code_words }
{
    (288 + 4 * code_words as u64).next_multiple_of(8)
}

// Where the note is in the file.
#[tactic(auto, unfolding(crate::specs::Elf::note_offset))]
fn note_offset(code_words: u32, table_words: u32) -> u64
    ensures { result ≡ note_offset code_words table_words }
{
    table_offset(code_words) + 8 * table_words as u64
}

/// The code.
#[tactic(auto, unfolding(crate::specs::Elf::code_segment))]
pub fn code_segment() -> Segment
    ensures { result ≡ code_segment }
{
    Segment {
        kind: 1,
        flags: 5,
        offset: 288,
        address: 65536,
        alignment: 8,
    }
}

/// The table behind so many words of code.
#[tactic(auto, unfolding(crate::specs::Elf::table_segment))]
pub fn table_segment(code_words: u32) -> Segment
    ensures { result ≡ table_segment code_words }
{
    Segment {
        kind: 1,
        flags: 4,
        offset: table_offset(code_words),
        address: 536_870_912,
        alignment: 8,
    }
}

/// The stack.
#[tactic(auto, unfolding(crate::specs::Elf::stack_segment))]
pub fn stack_segment() -> Segment
    ensures { result ≡ stack_segment }
{
    Segment {
        kind: 1,
        flags: 6,
        offset: 0,
        address: 1_073_741_824,
        alignment: 8,
    }
}

/// The note behind so many words of code and of the table.
#[tactic(auto, unfolding(crate::specs::Elf::note_segment))]
pub fn note_segment(code_words: u32, table_words: u32) -> Segment
    ensures { result ≡ note_segment code_words table_words }
{
    Segment {
        kind: 4,
        flags: 4,
        offset: note_offset(code_words, table_words),
        address: 0,
        alignment: 4,
    }
}

/// How a note of so many places begins.
#[tactic(auto, unfolding(crate::specs::Elf::note_header))]
pub fn note_header(places: u32) -> [Number; 4]
    requires { places ≤ 524288 }
    ensures { result ≡ note_header places }
{
    [
        Number::Word(4),
        Number::Word(8 * places),
        Number::Word(1),
        Number::Word(NOTE_NAME),
    ]
}

/// The zeros between so many words of code and the table.
#[tactic(auto, unfolding(crate::specs::Elf::padding))]
pub fn padding(code_words: u32) -> &'static [u8]
    ensures { result.now ≡ padding code_words }
{
    if code_words % 2 == 0 { b"" } else { &[0; 4] }
}
