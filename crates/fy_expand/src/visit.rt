//! Visits of a core phrase.

ghost use Rattle.std.specs.Prelude.{◌≡◌};
ghost use Rattle.fy_phrase.specs.Reads.{reads, reads_parts};
ghost use Rattle.fy_phrase.specs.Sizes.{greatest_u64};
ghost use Rattle.fy_phrase.specs.CoreLimits.{parts_visits, visits_of};

use fy_phrase::{Parts, Phrase};

/// The number of phrase nodes, where an abstraction's body counts once for each of its alternatives, or 18446744073709551615
/// where that number is greater. It takes no memory.
#[cycle(visits)]
pub fn visits(p: &Phrase) -> u64
    ensures { result ≡ greatest_u64 (visits_of (reads p.now)) }
{
    match p {
        Phrase::Var(..) | Phrase::Lit(..) | Phrase::Skip(_) | Phrase::Mark(..) => 1,
        Phrase::Lam(_, types, body, _) => (types.len() as u64)
            .saturating_mul(visits(body))
            .saturating_add(1),
        Phrase::Unary(_, p, _)
        | Phrase::Field(_, p, _)
        | Phrase::Sel(p, _, _)
        | Phrase::Rec(_, _, p, _)
        | Phrase::Forever(p, _)
        | Phrase::Escape(_, p, _)
        | Phrase::Accept(_, _, p, _)
        | Phrase::Put(_, p, _)
        | Phrase::Read(p, _) => visits(p).saturating_add(1),
        Phrase::Binary(_, p, q, _)
        | Phrase::App(p, q, _)
        | Phrase::Merge(p, q, _)
        | Phrase::LetIn(_, p, q, _)
        | Phrase::Seq(p, q, _)
        | Phrase::Assign(p, q, _)
        | Phrase::WhileDo(p, q, _)
        | Phrase::New(_, _, p, q, _)
        | Phrase::Cells(_, p, q, _) => visits(p).saturating_add(visits(q)).saturating_add(1),
        Phrase::Cond(b, p, q, _) => visits(b)
            .saturating_add(visits(p))
            .saturating_add(visits(q))
            .saturating_add(1),
        Phrase::Case(e, parts, _) => visits(e)
            .saturating_add(visits_of_parts(parts))
            .saturating_add(1),
    }
}

#[cycle(visits)]
fn visits_of_parts(parts: &Parts) -> u64
    ensures { result ≡ greatest_u64 (parts_visits (reads_parts parts.now)) }
{
    let mut count = 0u64;
    for part in parts.as_slice() {
        count = count.saturating_add(visits(part));
    }
    count
}
