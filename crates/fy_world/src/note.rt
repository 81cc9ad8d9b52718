//! The notes of a call, a line each.

ghost use Rattle.std.specs.Prelude.{◌≡◌, ◌≤◌, ◌+◌, [], ◌∷◌, ◌++◌, codes, length};
ghost use Rattle.std.specs.Fmt.{decimal};
ghost use Rattle.fy_world.specs.Note.{note_text, place_text, maybe_decimal, maybe_place_text, fault_name, trap_name, refusal_note, elf_note, read_note};

use crate::refusal::{refusal_place, refusal_word};
use crate::unlinked::Unlinked;
use arrayvec::ArrayString;
use fy_base::{FaultKind, Place, TrapKind};
use fy_elf::ElfError;
use fy_front::Refusal;
use fy_image::ImageError;
use fy_read::ReadError;

/// A note.
#[derive(Clone, Copy, PartialEq, Eq, Debug)]
pub enum Note {
    /// The program faulted.
    Fault { kind: FaultKind, place: Place },
    /// The stack was exhausted.
    StackExhausted,
    /// All the instructions, or steps of the copy rule, that were allowed are spent.
    StepsSpent,
    /// The next focus of the copy rule would be too large to hold.
    CopyLimit,
    /// The machine trapped.
    Trapped(TrapKind),
    /// The text is refused.
    Refused(Refusal),
    /// No derivation's text begins with the bytes of a named one up to and with the one at that
    /// offset, or the text ends too early, and this is its length.
    DerivationText(u64),
    /// The derivation that is named has too many nodes.
    DerivationSize,
    /// The derivation that is named, or a type in it, nests too deep.
    DerivationDeep,
    /// There are more bytes than a derivation's text has.
    DerivationLength,
    /// The derivation that is named doesn't show that the phrase is a command: judging stops at the
    /// node with this number.
    DerivationNode(u32),
    /// The words are no command.
    Usage,
    OutsideFiles,
    OutsideInput,
    OutsideOutput,
    Memory,
    /// How many instructions a run executed.
    Instructions(u64),
    /// How many steps a run of the copy rule made, and the greatest load.
    Copied { steps: u64, peak: u64 },
    /// The bytes don't begin as those of an image.
    ImageMagic,
    /// The image has another version.
    ImageVersion(u32),
    /// The image ends within a field.
    ImageTruncated,
    /// So many bytes stand behind the image.
    ImageTrailing(u64),
    /// The image's field with this number is out of its range.
    ImageField(u8),
    /// There are more bytes than an image has.
    ImageLength,
    /// The ELF file's field at this offset isn't as in one of an image.
    ImageElf(u64),
    /// The image isn't guarded at the word with this number.
    Audit(u32),
    /// The units on a list aren't linked.
    Link(Unlinked),
}

/// A line of text with its end.
pub type Line = ArrayString<96>;

fn begun(words: &str) -> Line
    requires { length words.now ≤ 20 }
    ensures { result.bytes ≡ words.now }
{
    let mut line = ArrayString::new();
    line.push_str(words);
    line
}

fn push_number(line: &mut Line, number: u64)
    requires { length line.old.bytes ≤ 60 }
    ensures text { line.new.bytes ≡ line.old.bytes ++ decimal number }
    ensures length { length line.new.bytes ≤ length line.old.bytes + 20 }
{
    line.push_str(itoa::Buffer::new().format(number));
}

fn push_place(line: &mut Line, place: Place)
    requires { length line.old.bytes ≤ 20 }
    ensures text { line.new.bytes ≡ line.old.bytes ++ place_text place }
    ensures length { length line.new.bytes ≤ length line.old.bytes + 41 }
{
    push_number(line, place.line.into());
    line.push_str(":");
    push_number(line, place.col.into());
}

fn push_run(line: &mut Line, steps: u64, peak: u64)
    requires { length line.old.bytes ≤ 20 }
    ensures text { line.new.bytes ≡ line.old.bytes ++ decimal steps ++ codes " peak " ++ decimal peak }
    ensures length { length line.new.bytes ≤ length line.old.bytes + 46 }
{
    push_number(line, steps);
    line.push_str(" peak ");
    push_number(line, peak);
}

fn push_maybe_place(line: &mut Line, place: Option<Place>)
    requires { length line.old.bytes ≤ 20 }
    ensures text { line.new.bytes ≡ line.old.bytes ++ maybe_place_text place }
    ensures length { length line.new.bytes ≤ length line.old.bytes + 41 }
{
    if let Some(place) = place {
        push_place(line, place);
    }
}

fn push_maybe_number(line: &mut Line, number: Option<u32>)
    requires { length line.old.bytes ≤ 20 }
    ensures text { line.new.bytes ≡ line.old.bytes ++ maybe_decimal number }
    ensures length { length line.new.bytes ≤ length line.old.bytes + 20 }
{
    if let Some(number) = number {
        push_number(line, number.into());
    }
}

fn fault_name(kind: FaultKind) -> &'static str
    ensures name { result.now ≡ fault_name kind }
    ensures length { length result.now ≤ 20 }
{
    match kind {
        FaultKind::Overflow => "fault overflow ",
        FaultKind::Zero => "fault zero ",
        FaultKind::Range => "fault range ",
    }
}

fn trap_name(kind: TrapKind) -> &'static str
    ensures name { result.now ≡ trap_name kind }
    ensures length { length result.now ≤ 20 }
{
    match kind {
        TrapKind::Illegal => "trap illegal",
        TrapKind::FetchAlign => "trap fetch-align",
        TrapKind::FetchRange => "trap fetch-range",
        TrapKind::LoadAlign => "trap load-align",
        TrapKind::LoadRange => "trap load-range",
        TrapKind::StoreAlign => "trap store-align",
        TrapKind::StoreRange => "trap store-range",
        TrapKind::Service => "trap service",
    }
}

/// The text of a note and byte 10.
pub fn line_of(note: Note) -> Line
    ensures { result.bytes ≡ note_text note ++ 10 ∷ [] }
{
    let mut line = match note {
        Note::Fault { kind, .. } => begun(fault_name(kind)),
        Note::StackExhausted => begun("stack exhausted"),
        Note::StepsSpent => begun("steps spent"),
        Note::CopyLimit => begun("copy limit"),
        Note::Trapped(kind) => begun(trap_name(kind)),
        Note::Refused(why) => begun(refusal_word(why)),
        Note::DerivationText(_) => begun("derivation text "),
        Note::DerivationSize => begun("derivation size"),
        Note::DerivationDeep => begun("derivation deep"),
        Note::DerivationLength => begun("derivation length"),
        Note::DerivationNode(_) => begun("derivation node "),
        Note::Usage => begun("usage"),
        Note::OutsideFiles => begun("outside files"),
        Note::OutsideInput => begun("outside input"),
        Note::OutsideOutput => begun("outside output"),
        Note::Memory => begun("memory"),
        Note::Instructions(_) => begun("instructions "),
        Note::Copied { .. } => begun("steps "),
        Note::ImageMagic => begun("image magic"),
        Note::ImageVersion(_) => begun("image version "),
        Note::ImageTruncated => begun("image truncated"),
        Note::ImageTrailing(_) => begun("image trailing "),
        Note::ImageField(_) => begun("image field "),
        Note::ImageLength => begun("image length"),
        Note::ImageElf(_) => begun("image elf "),
        Note::Audit(_) => begun("audit word "),
        Note::Link(why) => begun(why.word()),
    };
    match note {
        Note::Fault { place, .. } => push_place(&mut line, place),
        Note::Refused(why) => push_maybe_place(&mut line, refusal_place(why)),
        Note::Link(why) => push_maybe_number(&mut line, why.unit()),
        Note::Instructions(count) | Note::ImageTrailing(count) | Note::DerivationText(count) => {
            push_number(&mut line, count)
        }
        Note::ImageElf(offset) => push_number(&mut line, offset),
        Note::Copied { steps, peak } => push_run(&mut line, steps, peak),
        Note::ImageVersion(version) => push_number(&mut line, version.into()),
        Note::ImageField(field) => push_number(&mut line, field.into()),
        Note::Audit(word) | Note::DerivationNode(word) => push_number(&mut line, word.into()),
        _ => {}
    }
    line.push_str("\n");
    line
}

/// The note of an image that is refused, or `None` where memory was wanting.
pub fn refusal_note(error: ImageError) -> Option<Note>
    ensures { result ≡ refusal_note error }
{
    match error {
        ImageError::BadMagic => Some(Note::ImageMagic),
        ImageError::BadVersion(version) => Some(Note::ImageVersion(version)),
        ImageError::Truncated => Some(Note::ImageTruncated),
        ImageError::Trailing(count) => Some(Note::ImageTrailing(count)),
        ImageError::BadField(field) => Some(Note::ImageField(field)),
        ImageError::TooLarge => Some(Note::ImageLength),
        ImageError::OutOfMemory => None,
    }
}

/// The note of an ELF file that is refused, or `None` where memory was wanting.
pub fn elf_note(error: ElfError) -> Option<Note>
    ensures { result ≡ elf_note error }
{
    match error {
        ElfError::Bad(offset) => Some(Note::ImageElf(offset)),
        ElfError::Truncated => Some(Note::ImageTruncated),
        ElfError::Trailing(count) => Some(Note::ImageTrailing(count)),
        ElfError::TooLarge => Some(Note::ImageLength),
        ElfError::OutOfMemory => None,
    }
}

/// The note of a derivation's text that is refused, or `None` where memory was wanting.
pub fn read_note(error: ReadError) -> Option<Note>
    ensures { result ≡ read_note error }
{
    match error {
        ReadError::BadText(offset) => Some(Note::DerivationText(offset)),
        ReadError::TooLarge => Some(Note::DerivationSize),
        ReadError::TooDeep => Some(Note::DerivationDeep),
        ReadError::OutOfMemory => None,
    }
}
