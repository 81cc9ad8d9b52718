//! Expansion, and the limits on what it makes.

ghost use Rattle.std.specs.Prelude.{◌≡◌, ◌⊎◌, List, Ok, Err, IfOk, IfErr};
ghost use Rattle.fy_base.specs.Outside.{Bytes};
ghost use Rattle.fy_types.specs.Reading.{plain_type};
ghost use Rattle.fy_types.specs.Types.{arrow, atom as of_atom};
ghost use Rattle.fy_types.specs.declared.types.Atom.TheVariants.{Comm};
ghost use Rattle.fy_lexer.specs.declared.token.Token.{Token};
ghost use Rattle.fy_phrase.specs.CoreLimits.{KeepsCoreLimits};
ghost use Rattle.fy_phrase.specs.PhraseNames.{HasFullTypes};
ghost use Rattle.fy_phrase.specs.Reads.{reads};
ghost use Rattle.fy_phrase.specs.Tree.{Tree};
ghost use Rattle.fy_syntax.specs.Reading.{tree_of};
ghost use Rattle.fy_syntax.specs.Spells.{IsProgram};
ghost use Rattle.fy_expand.specs.declared.error.ExpandError.TheVariants.{OutOfMemory as NoMemory};
ghost use Rattle.fy_expand.specs.Core.{cell_maker as cell_maker_of, in_prelude as in_prelude_of, provided};
ghost use Rattle.fy_expand.specs.Expansion.{core_of};
ghost use Rattle.fy_expand.specs.Frames.{AreSized, scope_of};
ghost use Rattle.fy_expand.specs.Judged.{HasTokens, IsAllowed, IsJudged, expansion_refused};
ghost use Rattle.fy_expand.specs.Measures.{prelude_measure};
ghost use Rattle.fy_expand.specs.Scope.{program_scope};
ghost use Rattle.fy_expand.specs.Types.{variable_sequence};
ghost use Rattle.fy_phrase.specs.WellMade.{HasDepths, IsClosed, IsWellMade};
ghost use Rattle.fy_expand.specs.NamesOf.{HasNamesOf};

use crate::build::build;
use crate::check::{check, place_of};
use crate::error::ExpandError;
use crate::frame::Frame;
use crate::size::{Size, phrase_size};
use crate::types::variable_sequence;
use crate::visit::visits;
use fy_base::{OutOfMemory, Place, PutKind};
use fy_phrase::Phrase;
use fy_syntax::Surface;
use fy_types::{Atom, Name, Ty, TyList};
use std::alloc::Global;
use std::rc::Rc;

const PUTINT: Name = 1;

const PUTCHAR: Name = 2;

const PUTBOOL: Name = 3;

const READ: Name = 4;

const NEWINTSEQ: Name = 11;

// A procedure of the prelude: an abstraction of one type, over a command, over a variable.
const PROCEDURE: Size = Size {
    nodes: 4,
    nesting: 3,
};

// What `newintseq` stands for: two abstractions, the second of a type of 10 nodes, over cells, over an application.
const MAKER: Size = Size {
    nodes: 18,
    nesting: 5,
};

const MAX_NESTING: u64 = 512;

const MAX_NODES: u64 = 65536;

const MAX_VISITS: u64 = 65536;

/// The core phrase of a program, inside the prelude.
///
/// A variant with a place is the first fault in the order of the text. Where none stands, `TooDeep` comes exactly where the
/// core phrase nests more than 512, else `TooLarge` exactly where it has over 65,536 nodes, those of its types counted, else
/// `TooManyVisits` exactly where its visits are more than 65,536. The phrase is closed and within these limits, its recursions are
/// written with types that nest at most 258, and each binder carries the number of binders around it. Each name in it is `len` or
/// stands in the tree. Where some tokens spell the tree, each of its lists of parts has one, each merge has a right operand of
/// its kind, and each meet in the types that it is written with has two members or more. The language is that of Reynolds, "Design of the Programming Language Forsythe"
/// (CMU-CS-96-146, 1996), with a concrete syntax of this project's own.
pub fn expand(alloc: Global, tree: &Surface) -> Result<Phrase, ExpandError>
    ensures ok { IfOk result (λ p. core_of (tree_of tree.now) ≡ Ok (reads p)) }
    ensures err { IfErr result (λ e. (e ≡ NoMemory) ⊎ (core_of (tree_of tree.now) ≡ Err e)) }
    ensures closed { IfOk result (λ p. IsClosed (reads p)) }
    ensures depths { IfOk result (λ p. HasDepths (reads p)) }
    ensures limits { IfOk result (λ p. KeepsCoreLimits (reads p)) }
    ensures well_made { IfOk result (λ p.
        (tokens : List Token) → IsProgram (tree_of tree.now) tokens → IsWellMade (reads p)) }
    ensures names { IfOk result (λ p. HasNamesOf (tree_of tree.now) (reads p)) }
    ensures full_types { IfOk result (λ p.
        (tokens : List Token) → IsProgram (tree_of tree.now) tokens → HasFullTypes (reads p)) }
    ensures judged { IfOk result (λ p. (text : Bytes) (tokens : List Token)
        → HasTokens text tokens → IsAllowed tokens (tree_of tree.now)
        → IsJudged text (Ok (reads p))) }
    ensures refused { IfErr result (λ e. (e ≡ NoMemory) ⊎ ((text : Bytes) (tokens : List Token)
        → HasTokens text tokens → IsAllowed tokens (tree_of tree.now)
        → IsJudged text (Err (expansion_refused e)))) }
{
    let putint = Frame::Name(PUTINT, &Frame::Outermost);
    let putchar = Frame::Name(PUTCHAR, &putint);
    let putbool = Frame::Name(PUTBOOL, &putchar);
    let read = Frame::Name(READ, &putbool);
    within(alloc, tree, &Frame::Name(NEWINTSEQ, &read))
}

// The core phrase of a program, whose names of phrases are those of the prelude.
fn within(alloc: Global, tree: &Surface, frame: &Frame) -> Result<Phrase, ExpandError>
    requires scope { scope_of frame.now ≡ program_scope }
    requires sized { AreSized frame.now }
    ensures ok { IfOk result (λ p. core_of (tree_of tree.now) ≡ Ok (reads p)) }
    ensures err { IfErr result (λ e. (e ≡ NoMemory) ⊎ (core_of (tree_of tree.now) ≡ Err e)) }
{
    if let Err(stop) = check(tree, frame) {
        return Err(stop);
    }
    let size = prelude_size(phrase_size(alloc, tree, frame)?);
    if size.nesting > MAX_NESTING {
        return Err(ExpandError::TooDeep);
    }
    if size.nodes > MAX_NODES {
        return Err(ExpandError::TooLarge);
    }
    let program = build(alloc, tree, frame)?;
    let made = in_prelude(alloc, program, place_of(tree))?;
    if visits(&made) > MAX_VISITS {
        return Err(ExpandError::TooManyVisits);
    }
    Ok(made)
}

// The size of a program inside the prelude.
fn prelude_size(program: Size) -> Size
    ensures { result ≡ prelude_measure program }
{
    PROCEDURE.over(PROCEDURE.over(PROCEDURE.over(PROCEDURE.over(MAKER.over(program)))))
}

// The program inside the prelude, each of whose nodes has that place.
fn in_prelude(alloc: Global, program: Phrase, at: Place) -> Result<Phrase, OutOfMemory>
    ensures { IfOk result (λ p. reads p ≡ in_prelude_of at (reads program)) }
{
    let maker = Box::new(alloc, cell_maker(alloc, at)?)?;
    let program = Box::new(alloc, program)?;
    let within = Phrase::LetIn(4, maker, program, at);
    let variable = Box::new(alloc, Phrase::Var(0, at))?;
    let does = Phrase::Read(variable, at);
    let within = provide(alloc, 3, Atom::IntAcc, does, within, at)?;
    let does = put(alloc, PutKind::Bool, at)?;
    let within = provide(alloc, 2, Atom::Bool, does, within, at)?;
    let does = put(alloc, PutKind::Char, at)?;
    let within = provide(alloc, 1, Atom::Char, does, within, at)?;
    let does = put(alloc, PutKind::Int, at)?;
    provide(alloc, 0, Atom::Int, does, within, at)
}

fn put(alloc: Global, kind: PutKind, at: Place) -> Result<Phrase, OutOfMemory>
    ensures { IfOk result (λ p. reads p ≡ Tree.put kind (Tree.var 0 at) at) }
{
    let variable = Box::new(alloc, Phrase::Var(0, at))?;
    Ok(Phrase::Put(kind, variable, at))
}

// A program under one name of the prelude, whose argument has that type.
fn provide(
    alloc: Global,
    depth: u32,
    atom: Atom,
    does: Phrase,
    program: Phrase,
    at: Place,
) -> Result<Phrase, OutOfMemory>
    ensures { IfOk result (λ p. reads p ≡ provided depth atom (reads does) (reads program) at) }
{
    let mut types = TyList::new(alloc);
    types.push(Ty::Atom(atom))?;
    let does = Box::new(alloc, does)?;
    let procedure = Box::new(alloc, Phrase::Lam(depth, types, does, at))?;
    let program = Box::new(alloc, program)?;
    Ok(Phrase::LetIn(depth, procedure, program, at))
}

// What `newintseq` stands for: a procedure of a sequence of new cells, as many as a number says.
fn cell_maker(alloc: Global, at: Place) -> Result<Phrase, OutOfMemory>
    ensures { IfOk result (λ p. reads p ≡ cell_maker_of at) }
{
    let procedure = Box::new(alloc, Phrase::Var(1, at))?;
    let sequence = Box::new(alloc, Phrase::Var(0, at))?;
    let body = Box::new(alloc, Phrase::App(procedure, sequence, at))?;
    let count = Box::new(alloc, Phrase::Var(1, at))?;
    let cells = Box::new(alloc, Phrase::Cells(6, count, body, at))?;
    let mut procedures = TyList::new(alloc);
    procedures.push(procedure_type(alloc)?)?;
    let taken = Box::new(alloc, Phrase::Lam(5, procedures, cells, at))?;
    let mut counts = TyList::new(alloc);
    counts.push(Ty::Atom(Atom::Int))?;
    Ok(Phrase::Lam(4, counts, taken, at))
}

// The type of a procedure of a sequence of variables.
fn procedure_type(alloc: Global) -> Result<Ty, OutOfMemory>
    ensures { IfOk result (λ made. plain_type made ≡ arrow variable_sequence (of_atom Comm)) }
{
    let sequence = Rc::new(alloc, variable_sequence(alloc)?)?;
    let command = Rc::new(alloc, Ty::Atom(Atom::Comm))?;
    Ok(Ty::Arrow(sequence, command))
}
