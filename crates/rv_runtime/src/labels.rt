//! The labels of the blocks to which routines go and that go to routines.

/// The caller's block where a datum or a finished command meets the newest context.
pub const MEET: u32 = 0;
/// The caller's block that goes on at the entry in `Datum`.
pub const GO: u32 = 1;
/// Tells that the stack is exhausted.
pub const EXHAUSTED: u32 = 2;
/// Puts `true`, and goes to `MEET`.
pub const PUT_TRUE: u32 = 3;
/// Puts `false`, and goes to `MEET`.
pub const PUT_FALSE: u32 = 4;
/// Puts the integer in `Datum` in decimal, and goes to `MEET`.
pub const PUT_INT: u32 = 5;
/// Puts the number in `Datum`, which has no sign, in decimal, and goes to `MEET`.
pub const PUT_MAGNITUDE: u32 = 6;
/// Finds the greatest power of ten that isn't above `Datum`, and puts its digits.
pub const FIND_POWER: u32 = 7;
/// Puts the digits of `Datum` from that of the power of ten in `First` on.
pub const PUT_DIGITS: u32 = 8;
/// Makes the frame that begins at `Top`, inside the frame in `Frame`, and goes to `GO`. Its first three words stand, and
/// `Third` has its size in bytes.
pub const MAKE_FRAME: u32 = 9;
/// Copies words from `Third` on to those from `Top` up to the address in `Second`, eight at a time, and goes to `GO`.
pub const COPY_DISPLAY: u32 = 10;
/// Copies the last four words.
pub const COPY_FEW: u32 = 11;
/// The first label that no routine has.
pub const FIRST_FREE: u32 = 12;
