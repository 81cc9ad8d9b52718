//! How large phrases are, and what copying one into another makes.

ghost use Rattle.std.specs.Prelude.{◌≡◌, ◌+◌, ℕ, max};
ghost use Rattle.fy_phrase.specs.Tree.{Tree};
ghost use Rattle.fy_phrase.specs.Reads.{reads, reads_parts};
ghost use Rattle.fy_phrase.specs.Closing.{all_closed_at, closed_at, closed_with};
ghost use Rattle.fy_phrase.specs.Sizes.{all_nesting, all_nodes, fits, greatest_u64, nesting, nodes};

use fy_phrase::{Parts, Phrase};

const MOST_NODES: u64 = 1_048_576;

const MOST_NESTING: u64 = 2048;

/// The nodes and the nesting of a phrase or of a list, each at most the greatest number of 64 bits.
#[derive(Clone, Copy)]
struct Size {
    nodes: u64,
    nesting: u64,
}

impl Size {
    // The size of a node without parts.
    fn leaf() -> Size
        ensures { result ≡ record { nodes = 1; nesting = 1 } }
    {
        Size {
            nodes: 1,
            nesting: 1,
        }
    }

    // The size of a node above.
    fn above(self) -> Size
        ensures nodes { result.nodes ≡ greatest_u64 (1 + self.nodes) }
        ensures nesting { result.nesting ≡ greatest_u64 (1 + self.nesting) }
    {
        Size {
            nodes: self.nodes.saturating_add(1),
            nesting: self.nesting.saturating_add(1),
        }
    }

    // The size of two beside each other.
    fn beside(self, other: Size) -> Size
        ensures nodes { result.nodes ≡ greatest_u64 (self.nodes + other.nodes) }
        ensures nesting { result.nesting ≡ max self.nesting other.nesting }
    {
        Size {
            nodes: self.nodes.saturating_add(other.nodes),
            nesting: self.nesting.max(other.nesting),
        }
    }

    fn is_within(self) -> bool
        ensures { (p : Tree) → self.nodes ≡ greatest_u64 (nodes p) → self.nesting ≡ greatest_u64 (nesting p) → result ≡ fits p }
    {
        self.nesting <= MOST_NESTING && self.nodes <= MOST_NODES
    }
}

#[cycle(size_of)]
fn size_of(p: &Phrase) -> Size
    ensures nodes { result.nodes ≡ greatest_u64 (nodes (reads p.now)) }
    ensures nesting { result.nesting ≡ greatest_u64 (nesting (reads p.now)) }
{
    match p {
        Phrase::Var(..) | Phrase::Lit(..) | Phrase::Skip(_) | Phrase::Mark(..) => Size::leaf(),
        Phrase::Unary(_, p, _)
        | Phrase::Lam(_, _, p, _)
        | Phrase::Field(_, p, _)
        | Phrase::Sel(p, _, _)
        | Phrase::Rec(_, _, p, _)
        | Phrase::Forever(p, _)
        | Phrase::Escape(_, p, _)
        | Phrase::Accept(_, _, p, _)
        | Phrase::Put(_, p, _)
        | Phrase::Read(p, _) => size_of(p).above(),
        Phrase::Binary(_, p, q, _)
        | Phrase::App(p, q, _)
        | Phrase::Merge(p, q, _)
        | Phrase::LetIn(_, p, q, _)
        | Phrase::Seq(p, q, _)
        | Phrase::Assign(p, q, _)
        | Phrase::WhileDo(p, q, _)
        | Phrase::New(_, _, p, q, _)
        | Phrase::Cells(_, p, q, _) => size_of(p).beside(size_of(q)).above(),
        Phrase::Cond(b, p, q, _) => size_of(b).beside(size_of(p)).beside(size_of(q)).above(),
        Phrase::Case(e, parts, _) => size_of(e).beside(size_of_parts(parts)).above(),
    }
}

#[cycle(size_of)]
#[tactic(auto, using(crate::proofs::SizeLemmas::list_sizes))]
fn size_of_parts(parts: &Parts) -> Size
    ensures nodes { result.nodes ≡ greatest_u64 (all_nodes (reads_parts parts.now)) }
    ensures nesting { result.nesting ≡ greatest_u64 (all_nesting (reads_parts parts.now)) }
{
    let mut size = Size {
        nodes: 0,
        nesting: 0,
    };
    for part in parts.as_slice() {
        size = size.beside(size_of(part));
    }
    size
}

// The size of a phrase that stands `level` binders below the variable, with the actual phrase copied
// in.
#[cycle(closed_size)]
fn closed_size(p: &Phrase, level: u64, actual: Size) -> Size
    ensures nodes { (n : ℕ) (a : Tree) → level ≡ greatest_u64 n → actual.nodes ≡ greatest_u64 (nodes a)
        → result.nodes ≡ greatest_u64 (nodes (closed_at n a (reads p.now))) }
    ensures nesting { (n : ℕ) (a : Tree) → level ≡ greatest_u64 n → actual.nesting ≡ greatest_u64 (nesting a)
        → result.nesting ≡ greatest_u64 (nesting (closed_at n a (reads p.now))) }
{
    let below = level.saturating_add(1);
    match p {
        Phrase::Var(k, _) => {
            if u64::from(*k) == level {
                actual
            } else {
                Size::leaf()
            }
        }
        Phrase::Lit(..) | Phrase::Skip(_) | Phrase::Mark(..) => Size::leaf(),
        Phrase::Unary(_, p, _)
        | Phrase::Field(_, p, _)
        | Phrase::Sel(p, _, _)
        | Phrase::Forever(p, _)
        | Phrase::Put(_, p, _)
        | Phrase::Read(p, _) => closed_size(p, level, actual).above(),
        Phrase::Lam(_, _, p, _)
        | Phrase::Rec(_, _, p, _)
        | Phrase::Escape(_, p, _)
        | Phrase::Accept(_, _, p, _) => closed_size(p, below, actual).above(),
        Phrase::Binary(_, p, q, _)
        | Phrase::App(p, q, _)
        | Phrase::Merge(p, q, _)
        | Phrase::Seq(p, q, _)
        | Phrase::Assign(p, q, _)
        | Phrase::WhileDo(p, q, _) => {
            let size = closed_size(p, level, actual);
            size.beside(closed_size(q, level, actual)).above()
        }
        Phrase::LetIn(_, p, q, _) | Phrase::New(_, _, p, q, _) | Phrase::Cells(_, p, q, _) => {
            let size = closed_size(p, level, actual);
            size.beside(closed_size(q, below, actual)).above()
        }
        Phrase::Cond(b, p, q, _) => {
            let size = closed_size(b, level, actual).beside(closed_size(p, level, actual));
            size.beside(closed_size(q, level, actual)).above()
        }
        Phrase::Case(e, parts, _) => {
            let size = closed_size(e, level, actual);
            size.beside(closed_size_of_parts(parts, level, actual))
                .above()
        }
    }
}

#[cycle(closed_size)]
fn closed_size_of_parts(parts: &Parts, level: u64, actual: Size) -> Size
    ensures nodes { (n : ℕ) (a : Tree) → level ≡ greatest_u64 n → actual.nodes ≡ greatest_u64 (nodes a)
        → result.nodes ≡ greatest_u64 (all_nodes (all_closed_at n a (reads_parts parts.now))) }
    ensures nesting { (n : ℕ) (a : Tree) → level ≡ greatest_u64 n → actual.nesting ≡ greatest_u64 (nesting a)
        → result.nesting ≡ greatest_u64 (all_nesting (all_closed_at n a (reads_parts parts.now))) }
{
    let mut size = Size {
        nodes: 0,
        nesting: 0,
    };
    for part in parts.as_slice() {
        size = size.beside(closed_size(part, level, actual));
    }
    size
}

/// Whether a phrase is within the limit on held phrases.
pub fn is_held(p: &Phrase) -> bool
    ensures { result ≡ fits (reads p.now) }
{
    size_of(p).is_within()
}

/// The same for the body with the actual phrase copied in for variable 0.
pub fn is_held_closed(body: &Phrase, actual: &Phrase) -> bool
    ensures { result ≡ fits (closed_with (reads body.now) (reads actual.now)) }
{
    closed_size(body, 0, size_of(actual)).is_within()
}
