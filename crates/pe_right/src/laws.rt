//! What right code does.

ghost use Rattle.pe_right.specs.Ahead.{DirectKeepsAhead};
ghost use Rattle.pe_right.specs.Follows.{RightCodeFollows};

/// Code that is right for a phrase and the table of an accepted derivation does what the copy rule does, and no step of it is undefined or looks for a frame that
/// is gone. It does nothing: its contract is the law.
pub fn right_code_follows_the_copy_rule()
    ensures { RightCodeFollows }
{}

/// Code that hands constants as data is as far as the code that hands thunks after the same steps, and makes no more frames than that does in 16 times as many.
/// It does nothing: its contract is the law.
pub fn direct_code_keeps_ahead()
    ensures { DirectKeepsAhead }
{}
