//! What laid out code is. Each law is the contract of a function that does nothing.

ghost use Rattle.pe_gen.specs.OneCode.{LaidOutCodeIsOne, StraightenedCodeIsOne};

/// Code that is right for a phrase and the table of an accepted derivation, valid and laid out is one: whoever makes it makes the same. So `generate` gives a
/// function of its phrase and its table, and `direct` one of what that gives. It does nothing: its contract is the law.
pub fn laid_out_code_is_one()
    ensures { LaidOutCodeIsOne }
{}

/// Of laid out code there is one code in which the greatest nodes that can be are evaluated in one step: so `straighten` gives a function of its phrase and the code
/// that it is given. It does nothing: its contract is the law.
pub fn straightened_code_is_one()
    ensures { StraightenedCodeIsOne }
{}
