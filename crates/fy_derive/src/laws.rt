//! Laws of judging, and type safety.

ghost use Rattle.fy_derive.specs.Laws.{ConcludedIsTyped, TypedIsConcluded, BelowIsSubtype};
ghost use Rattle.fy_derive.specs.Safety.{TypedIsNeverStuck, ConcludedIsNeverStuck, AcceptedIsNeverStuck};

/// Judging is typing: what a derivation concludes for a phrase is one of its types, each of its
/// types is concluded by some derivation, and the test of subsumption is subtyping. It does
/// nothing: its contract is the law.
pub fn judging_is_typing()
    ensures sound { ConcludedIsTyped }
    ensures complete { TypedIsConcluded }
    ensures subsumption { BelowIsSubtype }
{}

/// Type safety: what has the type of a command, with no variable in scope, is never stuck, whatever
/// its input is: type soundness in Milner's sense ("A Theory of Type Polymorphism in Programming", 1978)
/// for the copy rule. It does nothing: its contract is the law.
pub fn typed_programs_are_never_stuck()
    ensures { TypedIsNeverStuck }
{}

/// A phrase for which a derivation concludes `comm` is never stuck, and so neither is one whose
/// derivation [`check`](crate::check) accepts. It does nothing: its contract is the law.
pub fn judged_programs_are_never_stuck()
    ensures concluded { ConcludedIsNeverStuck }
    ensures accepted { AcceptedIsNeverStuck }
{}
