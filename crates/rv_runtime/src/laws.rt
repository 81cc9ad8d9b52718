//! Laws of the routines, each the contract of a function that does nothing.

ghost use Rattle.rv_runtime.specs.Laws.{DisplaysAreCopied, ExhaustionIsTold, FaultsAreTold, FramesAreMade, IntsArePut, RoutinesAreDisciplined, RoutinesAreFew, RoutinesAreUniform, TruthsArePut};

/// Code that holds the routines puts an integer as its text, in decimal, at a cost of at most 600
/// instructions: any integer of 64 bits, the least among them.
pub fn ints_are_put()
    ensures { IntsArePut }
{}

/// It puts a truth value as its text, at a cost of at most 100 instructions.
pub fn truths_are_put()
    ensures { TruthsArePut }
{}

/// It ends as exhausted from the block that tells so.
pub fn exhaustion_is_told()
    ensures { ExhaustionIsTold }
{}

/// Code ends with a fault, of the kind and at the place that its block names.
pub fn faults_are_told()
    ensures { FaultsAreTold }
{}

/// Code that holds the routines copies words to others behind them, and changes no other, at a cost
/// of at most 16 instructions a word.
pub fn displays_are_copied()
    ensures { DisplaysAreCopied }
{}

/// It makes a frame inside another: the display is the address of the frame around it and then that
/// frame's display, at a cost of at most 100 instructions and 16 for each frame around it.
pub fn frames_are_made()
    ensures { FramesAreMade }
{}

/// The routines are disciplined code wherever all their labels are those of blocks.
pub fn routines_are_disciplined()
    ensures { RoutinesAreDisciplined }
{}

/// The routines have all labels between the caller's and the first free one, and at most 4,096 words.
pub fn routines_are_few()
    ensures { RoutinesAreFew }
{}

/// The items of the routines, and of the block of a fault, depend on no number of entries or of
/// words of the table.
pub fn routines_are_uniform()
    ensures { RoutinesAreUniform }
{}
