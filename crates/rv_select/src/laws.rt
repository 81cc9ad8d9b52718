//! Laws of the code that is selected. Each is the contract of a function that does nothing, and calls the laws that it stands on.

ghost use Rattle.rv_select.specs.Images.{SelectionsFollow};
ghost use Rattle.rv_select.specs.Laws.{BindingsAreReached, RunsFollow, RunsReach, SelectionIsDisciplined, SelectionIsShort};
ghost use Rattle.rv_select.specs.Sizes.{SelectionIsCounted};

use rv_operators::{
    binary_operators_work, operators_are_disciplined, results_fit, unary_operators_work,
};
use rv_runtime::{
    exhaustion_is_told, frames_are_made, ints_are_put, routines_are_disciplined, truths_are_put,
};
use rv_straight::straight_code_works;
use rv_word::word_output_grows;

/// What k steps of the machine of items come to, the selected code comes to within
/// 250 * (k + 1) * (d + 4) instructions, where d is the greatest depth of a frame, unless its stack runs
/// out, which comes only where items don't fit the stack.
pub fn runs_reach()
    ensures { RunsReach }
{
    exhaustion_is_told();
    ints_are_put();
    truths_are_put();
    frames_are_made();
    unary_operators_work();
    binary_operators_work();
    results_fit();
    straight_code_works();
    word_output_grows();
}

/// What the selected code has done in n steps, the machine of items has done in n.
pub fn runs_follow()
    ensures { RunsFollow }
{
    exhaustion_is_told();
    ints_are_put();
    truths_are_put();
    frames_are_made();
    unary_operators_work();
    binary_operators_work();
    results_fit();
    straight_code_works();
    word_output_grows();
}

/// The image of a selection of valid code that is never stuck and never misses a frame, whose data are in
/// range and which has at most 1,048,576 thunk nodes, does what the push-enter code does on every input of
/// bytes, both ways, runs out only where a load passes its stack, and never traps.
pub fn selections_follow()
    ensures { SelectionsFollow }
{
    runs_reach();
    runs_follow();
}

/// The code selected for valid code, whose data are in range and which has at most 1,048,576 thunk
/// nodes, is disciplined: it never goes wrong.
pub fn selection_is_disciplined()
    ensures { SelectionIsDisciplined }
{
    routines_are_disciplined();
    operators_are_disciplined();
}

/// It takes at most 60 words for each item and 4,096 beside, with two for each entry; its table has
/// at most 1,048,576 words, all of 64 bits, and it has a place for each item.
pub fn selection_is_short()
    ensures { SelectionIsShort }
{}

/// A variable's binding is reached, behind the check of the frame in use, by at most four plain
/// instructions, none of which branches or jumps, however many frames are between.
pub fn bindings_are_reached()
    ensures { BindingsAreReached }
{}

/// It has at most 4,194,304 items, as an assembler asks, of which the first is the far jump to its
/// start; and its table has a row for each shape, of a word for each thunk node and four others.
pub fn selection_is_counted()
    ensures { SelectionIsCounted }
{}
