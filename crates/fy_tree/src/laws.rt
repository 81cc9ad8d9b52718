//! Laws of the tree that is shown.

ghost use Rattle.fy_tree.specs.Laws.{ConclusionsAreShown};

/// Of a derivation that is accepted, each node is shown with what judging concludes there, and so the root with what the
/// derivation concludes. It does nothing: its contract is the law.
pub fn conclusions_are_shown()
    ensures { ConclusionsAreShown }
{}
