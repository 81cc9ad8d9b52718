//! How large the parts of a phrase are, and how many of them are thunks.

ghost use Rattle.std.specs.Prelude.{◌≡◌, ◌+◌, ◌^◌, ◌<◌, ◌∷◌, [], OnOk, length};
ghost use Rattle.fy_phrase.specs.Reads.{reads, reads_parts};
ghost use Rattle.fy_phrase.specs.Sizes.{nodes, greatest_u32};
ghost use Rattle.fy_derive.specs.Shapes.{thunks, all_thunks};
ghost use Rattle.pe_shapes.specs.Parts.{AreSizes, Keeps};

use crate::parts::parts;
use fy_base::OutOfMemory;
use fy_phrase::{Parts, Phrase};
use std::alloc::Global;

/// Adds the number of nodes of each part of the phrase, by the parts' preorder numbers: that of the
/// phrase itself is the list's length.
pub fn add_sizes(alloc: Global, sizes: &mut Vec<usize>, p: &Phrase) -> Result<(), OutOfMemory>
    ensures kept { OnOk result (Keeps sizes.old.items sizes.new.items) }
    ensures length { OnOk result (length sizes.new.items ≡ length sizes.old.items + nodes (reads p.now)) }
    ensures sizes { OnOk result (AreSizes sizes.new.items (length sizes.old.items) (reads p.now ∷ [])) }
{
    let at = sizes.len();
    sizes.push(0)?;
    let all = parts(alloc, p)?;
    for part in &all {
        add_sizes(alloc, sizes, part.part)?;
    }
    let count = sizes.len() - at;
    sizes[at] = count;
    Ok(())
}

/// The number of arguments, definitions and recursions, or 4294967295 where it is greater. It takes no
/// memory.
#[cycle(thunks)]
pub fn thunks_of(p: &Phrase) -> u32
    ensures { result ≡ greatest_u32 (thunks (reads p.now)) }
{
    match p {
        Phrase::Var(..) | Phrase::Lit(..) | Phrase::Skip(_) | Phrase::Mark(..) => 0,
        Phrase::Unary(_, p, _)
        | Phrase::Lam(_, _, p, _)
        | Phrase::Field(_, p, _)
        | Phrase::Sel(p, _, _)
        | Phrase::Forever(p, _)
        | Phrase::Escape(_, p, _)
        | Phrase::Accept(_, _, p, _)
        | Phrase::Put(_, p, _)
        | Phrase::Read(p, _) => thunks_of(p),
        Phrase::Rec(_, _, p, _) => thunks_of(p).saturating_add(1),
        Phrase::Binary(_, p, q, _)
        | Phrase::Merge(p, q, _)
        | Phrase::Seq(p, q, _)
        | Phrase::Assign(p, q, _)
        | Phrase::WhileDo(p, q, _)
        | Phrase::New(_, _, p, q, _)
        | Phrase::Cells(_, p, q, _) => thunks_of(p).saturating_add(thunks_of(q)),
        Phrase::App(p, q, _) | Phrase::LetIn(_, p, q, _) => thunks_of(p)
            .saturating_add(thunks_of(q))
            .saturating_add(1),
        Phrase::Cond(b, p, q, _) => thunks_of(b)
            .saturating_add(thunks_of(p))
            .saturating_add(thunks_of(q)),
        Phrase::Case(e, parts, _) => thunks_of(e).saturating_add(thunks_of_parts(parts)),
    }
}

#[cycle(thunks)]
#[tactic(auto, using(crate::proofs::SizeLemmas::sizes))]
fn thunks_of_parts(parts: &Parts) -> u32
    ensures { result ≡ greatest_u32 (all_thunks (reads_parts parts.now)) }
{
    let mut count = 0u32;
    for part in parts.as_slice() {
        count = count.saturating_add(thunks_of(part));
    }
    count
}
