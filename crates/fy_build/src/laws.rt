//! Laws of images, each the contract of a function that does nothing but call the laws that it stands
//! on.

ghost use Rattle.fy_build.specs.Agreement.{ImagesAgree};
ghost use Rattle.fy_build.specs.Laws.{CodeRunsAsCopyRule};
ghost use Rattle.fy_build.specs.Selecting.{SelectionsCanBeAssembled, SelectionsBecomeImages};
ghost use Rattle.fy_build.specs.Shown.{RunsShowCopyRule};

use rv_flow::{code_can_be_assembled, code_is_short};
use rv_insn::{ended_runs_stay, output_grows, runs_split};
use rv_select::{
    selection_is_counted, selection_is_disciplined, selection_is_short, selections_follow,
};

/// The image of code that follows the copy rule of a phrase, and makes its frames no deeper than the
/// phrase's binders, runs as the copy rule.
pub fn code_runs_as_copy_rule()
    ensures { CodeRunsAsCopyRule }
{
    runs_split();
    output_grows();
    ended_runs_stay();
    selections_follow();
}

/// Images of one phrase agree, whatever derivations they were made from: where its stack suffices, one
/// puts what the other puts and ends as the other ends.
pub fn images_agree()
    ensures { ImagesAgree }
{}

/// What a run, on an input of bytes, of an image that runs as the copy rule of a phrase shows of the copy
/// rule, by its end: the phrase's end or fault and all of its output; a load past the stack and a
/// beginning of its output; or, where it still goes on, that the phrase goes on too, for each count of
/// steps whose bound was reached, and has put no more. The phrase is one that is never stuck.
pub fn runs_show_copy_rule()
    ensures { RunsShowCopyRule }
{
    runs_split();
    output_grows();
    ended_runs_stay();
}

/// What is selected for code can be assembled.
pub(crate) fn selections_can_be_assembled()
    ensures { SelectionsCanBeAssembled }
{
    selection_is_disciplined();
    selection_is_short();
    selection_is_counted();
    code_can_be_assembled();
}

/// An image with the assembled words of what is selected for code is an image of the selection.
pub(crate) fn selections_become_images()
    ensures { SelectionsBecomeImages }
{
    selection_is_disciplined();
    selection_is_short();
    selection_is_counted();
    code_is_short();
}
