//! How much there is of each part of a file, and what its headers say.

/// How much there is of each part.
#[derive(Clone, Copy)]
pub struct Layout {
    /// The words of the code, the stubs among them.
    pub code_words: u32,
    /// The doublewords of the table, the notes among them.
    pub table_words: u32,
    /// The words of the image's stack.
    pub stack_words: u32,
    /// The places.
    pub places: u32,
    /// The symbols, that of no name among them.
    pub symbols: u32,
    /// The bytes of their names.
    pub name_bytes: u32,
}

/// What the file says of a segment.
#[derive(Clone, Copy)]
pub struct Segment {
    /// 1 where it is loaded, 4 for a note.
    pub kind: u32,
    /// 1 to execute, 2 to write, 4 to read.
    pub flags: u32,
    /// Where it is in the file.
    pub offset: u64,
    /// Where it is in memory.
    pub address: u64,
    /// How many bytes of it are in the file.
    pub file_size: u64,
    /// How many bytes it has in memory.
    pub memory_size: u64,
    /// What both places are multiples of.
    pub alignment: u64,
}

/// What the file says of a section.
#[derive(Clone, Copy)]
pub struct Section {
    /// Where its name is among those of the sections.
    pub name: u32,
    /// 1 for code and data, 2 for symbols, 3 for strings, 7 for a note, 8 for zeros.
    pub kind: u32,
    /// 1 to write, 2 to be in memory, 4 to execute.
    pub flags: u64,
    /// Where it is in memory.
    pub address: u64,
    /// Where it is in the file.
    pub offset: u64,
    /// Its bytes.
    pub size: u64,
    /// The section that it names: of symbols, that of their strings.
    pub link: u32,
    /// Of symbols, how many are local.
    pub info: u32,
    /// What its address is a multiple of.
    pub alignment: u64,
    /// Of symbols, the bytes of one.
    pub entry_size: u64,
}
