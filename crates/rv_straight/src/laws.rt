//! Laws of straight code, each the contract of a function that does nothing.

ghost use Rattle.rv_straight.specs.Laws.{FaultsAreDisciplined, StraightCodeIsDisciplined, StraightCodeIsShort, StraightCodeWorks};

/// Straight code comes to the datum that its run leaves, or to the block of its fault, at a cost of at most 18
/// instructions a part. Nothing else changes but the registers of data, and where no value is defined nothing is said.
pub fn straight_code_works()
    ensures { StraightCodeWorks }
{}

/// It is disciplined before whatever is so, with the blocks of its faults, where its cells are near.
pub fn straight_code_is_disciplined()
    ensures code { StraightCodeIsDisciplined }
    ensures faults { FaultsAreDisciplined }
{}

/// A part takes at most 23 words with its faults, of which there are at most two.
pub fn straight_code_is_short()
    ensures { StraightCodeIsShort }
{}
