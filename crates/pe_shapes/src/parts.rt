//! The parts of phrases.

ghost use Rattle.std.specs.Prelude.{◌≡◌, IfOk, map};
ghost use Rattle.fy_phrase.specs.Premises.{premise_shown};
ghost use Rattle.fy_phrase.specs.Reads.{reads};
ghost use Rattle.pe_shapes.specs.Parts.{bound_parts};

use fy_base::OutOfMemory;
use fy_phrase::{Phrase, Premise, premises_of};
use std::alloc::Global;

/// The direct parts, in order, each with what its premise binds.
pub fn parts<'a>(alloc: Global, p: &'a Phrase) -> Result<Vec<Premise<'a>>, OutOfMemory>
    ensures { IfOk result (λ v. map premise_shown v.items ≡ bound_parts (reads p.now)) }
{
    match p {
        Phrase::Lam(_, _, body, _) => Ok(Vec::from_array(alloc, [Premise::plain(body)])?),
        Phrase::Merge(left, right, _) => {
            Ok(Vec::from_array(alloc, [Premise::plain(left), Premise::plain(right)])?)
        }
        _ => match premises_of(alloc, p)? {
            Some(all) => Ok(all),
            None => Ok(Vec::new(alloc)),
        },
    }
}
