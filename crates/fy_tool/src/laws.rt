//! Laws of completeness, each the contract of a function that does nothing.

ghost use Rattle.fy_tool.specs.Complete.{AcceptedTextIsNeverRefused, AcceptedWhereLimitsHold, ImageIsRun, NamedDerivationIsAccepted, RunCompletes, TextIsRefusedOneWay};

/// A text whose phrase is a command, and whose types and demand shapes keep their limits, is turned down
/// by no command for which no derivation is named.
pub fn texts_within_limits_are_accepted()
    ensures { AcceptedWhereLimitsHold }
{}

/// A text that one command accepts is refused by none, where no derivation is named.
pub fn accepted_texts_are_never_refused()
    ensures { AcceptedTextIsNeverRefused }
{}

/// All commands refuse a text in one way where no derivation is named.
pub fn texts_are_refused_one_way()
    ensures { TextIsRefusedOneWay }
{}

/// A text is turned down by no command for which a derivation is named that shows its phrase to be a
/// command, where the derivation's text and its demand shapes keep their limits.
pub fn named_derivations_are_accepted()
    ensures { NamedDerivationIsAccepted }
{}

/// A run of a text's image comes to the end of the phrase's run by the copy rule, where the greatest load
/// of that is within the stack and the bound on its instructions within those that are allowed.
pub fn runs_complete()
    ensures { RunCompletes }
{}

/// The bytes of an image are refused by no command.
pub fn images_are_accepted()
    ensures { ImageIsRun }
{}
