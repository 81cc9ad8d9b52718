//! How large a phrase is.

ghost use Rattle.std.specs.Prelude.{◌≡◌};
ghost use Rattle.fy_phrase.specs.Reads.{reads, reads_parts};
ghost use Rattle.fy_phrase.specs.Sizes.{all_depth, all_nodes, depth, greatest_u32, greatest_u64, nodes};

use crate::phrase::{Parts, Phrase};

/// The number of phrase nodes, or 18446744073709551615 where it is greater. It takes no memory.
#[cycle(node_count)]
pub fn node_count(p: &Phrase) -> u64
    ensures { result ≡ greatest_u64 (nodes (reads p.now)) }
{
    match p {
        Phrase::Var(..) | Phrase::Lit(..) | Phrase::Skip(_) | Phrase::Mark(..) => 1,
        Phrase::Unary(_, p, _)
        | Phrase::Lam(_, _, p, _)
        | Phrase::Field(_, p, _)
        | Phrase::Sel(p, _, _)
        | Phrase::Rec(_, _, p, _)
        | Phrase::Forever(p, _)
        | Phrase::Escape(_, p, _)
        | Phrase::Accept(_, _, p, _)
        | Phrase::Put(_, p, _)
        | Phrase::Read(p, _) => node_count(p).saturating_add(1),
        Phrase::Binary(_, p, q, _)
        | Phrase::App(p, q, _)
        | Phrase::Merge(p, q, _)
        | Phrase::LetIn(_, p, q, _)
        | Phrase::Seq(p, q, _)
        | Phrase::Assign(p, q, _)
        | Phrase::WhileDo(p, q, _)
        | Phrase::New(_, _, p, q, _)
        | Phrase::Cells(_, p, q, _) => node_count(p)
            .saturating_add(node_count(q))
            .saturating_add(1),
        Phrase::Cond(b, p, q, _) => node_count(b)
            .saturating_add(node_count(p))
            .saturating_add(node_count(q))
            .saturating_add(1),
        Phrase::Case(e, parts, _) => node_count(e)
            .saturating_add(node_count_of_parts(parts))
            .saturating_add(1),
    }
}

#[cycle(node_count)]
#[tactic(auto, using(crate::proofs::ListLemmas::sizes))]
fn node_count_of_parts(parts: &Parts) -> u64
    ensures { result ≡ greatest_u64 (all_nodes (reads_parts parts.now)) }
{
    let mut count = 0u64;
    for part in parts.as_slice() {
        count = count.saturating_add(node_count(part));
    }
    count
}

/// The greatest depth of a binder, 0 without binders, or 4294967295 where it is greater. It takes no
/// memory.
#[cycle(depth_of)]
pub fn depth_of(p: &Phrase) -> u32
    ensures { result ≡ greatest_u32 (depth (reads p.now)) }
{
    match p {
        Phrase::Var(..) | Phrase::Lit(..) | Phrase::Skip(_) | Phrase::Mark(..) => 0,
        Phrase::Unary(_, p, _)
        | Phrase::Field(_, p, _)
        | Phrase::Sel(p, _, _)
        | Phrase::Forever(p, _)
        | Phrase::Put(_, p, _)
        | Phrase::Read(p, _) => depth_of(p),
        Phrase::Lam(d, _, p, _)
        | Phrase::Rec(d, _, p, _)
        | Phrase::Escape(d, p, _)
        | Phrase::Accept(d, _, p, _) => depth_of(p).max(*d),
        Phrase::Binary(_, p, q, _)
        | Phrase::App(p, q, _)
        | Phrase::Merge(p, q, _)
        | Phrase::Seq(p, q, _)
        | Phrase::Assign(p, q, _)
        | Phrase::WhileDo(p, q, _) => depth_of(p).max(depth_of(q)),
        Phrase::LetIn(d, p, q, _) | Phrase::New(d, _, p, q, _) | Phrase::Cells(d, p, q, _) => {
            depth_of(p).max(depth_of(q)).max(*d)
        }
        Phrase::Cond(b, p, q, _) => depth_of(b).max(depth_of(p)).max(depth_of(q)),
        Phrase::Case(e, parts, _) => depth_of(e).max(depth_of_parts(parts)),
    }
}

#[cycle(depth_of)]
#[tactic(auto, using(crate::proofs::ListLemmas::sizes))]
fn depth_of_parts(parts: &Parts) -> u32
    ensures { result ≡ greatest_u32 (all_depth (reads_parts parts.now)) }
{
    let mut greatest = 0;
    for part in parts.as_slice() {
        greatest = depth_of(part).max(greatest);
    }
    greatest
}
