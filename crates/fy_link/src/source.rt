//! What sources say.

ghost use Rattle.std.specs.Prelude.{◌≡◌, ◌+◌, ◌≤◌, ◌∷◌, ◌++◌, [], IfOk, IfErr, OnOk, length, map};
ghost use Rattle.fy_phrase.specs.Reads.{reads};
ghost use Rattle.fy_syntax.specs.Signs.{front};
ghost use Rattle.fy_types.specs.declared.types.Atom.TheVariants.{Comm};
ghost use Rattle.fy_types.specs.Reading.{plain_type, types_in};
ghost use Rattle.fy_types.specs.Types.{arrow, atom as of_atom};
ghost use Rattle.fy_link.specs.Units.{context_of, maker_type};
ghost use Rattle.fy_expand.specs.Judged.{most_text};
ghost use Rattle.fy_front.specs.Checked.{IfRefused, IsMeaningless};
ghost use Rattle.fy_lexer.specs.Tokens.{HasAdded};
ghost use Rattle.fy_lexer.specs.Again.{HaveNoEnd};
ghost use Rattle.fy_link.specs.Header.{type_program as type_program_of};
ghost use Rattle.fy_link.specs.Read.{plain_header, plain_named, plain_piece, plain_said};
ghost use Rattle.fy_link.specs.Sources.{AreInside, HasEquals, IsInside, IsSourceFault, IsSource, IsSaid, IsSaidFault, IsTypeFault, NameAll, Names as NamesOf, behind_definitions, below_abstractions, domain_of};

use crate::header::{Header, Piece, header_in};
use crate::written::{type_program, unit_program};
use fy_base::{OutOfMemory, Place};
use fy_expand::variable_sequence;
use fy_front::{FrontError, Refusal, phrase_of_tokens};
use fy_grammar::parse;
use fy_lexer::{Token, lex};
use fy_phrase::Phrase;
use fy_types::{Atom, Name, Names, Ty, TyList, copy_ty};
use std::alloc::Global;
use std::rc::Rc;

// The prelude has that many names.
const PROVIDED: u32 = 5;

/// A name with its type.
#[derive(Debug, Drop)]
pub(crate) struct Named {
    pub name: Name,
    pub ty: Ty,
}

/// What a source says.
#[derive(Debug, Drop)]
pub(crate) struct Said {
    pub imports: Vec<Named>,
    pub own: Named,
    /// The place of the header's `==`.
    pub equals_at: Place,
    // The unit's phrase inside an abstraction for each import, inside the prelude.
    whole: Phrase,
}

impl Said {
    /// The unit's phrase.
    pub fn phrase(&self) -> &Phrase
        ensures { reads result.now ≡ (plain_said self.now).phrase }
    {
        below_abstractions(
            self.imports.len(),
            behind_definitions(PROVIDED, &self.whole),
        )
    }
}

// What stands behind so many definitions.
fn behind_definitions(count: u32, p: &Phrase) -> &Phrase
    ensures { reads result.now ≡ behind_definitions count (reads p.now) }
{
    if count == 0 {
        return p;
    }
    match p {
        Phrase::LetIn(_, _, body, _) => behind_definitions(count - 1, body),
        _ => p,
    }
}

// What stands below so many abstractions.
fn below_abstractions(count: usize, p: &Phrase) -> &Phrase
    ensures { reads result.now ≡ below_abstractions count (reads p.now) }
{
    if count == 0 {
        return p;
    }
    match p {
        Phrase::Lam(_, _, body, _) => below_abstractions(count - 1, body),
        _ => p,
    }
}

// The first type of an abstraction's parameter, or `ns` for other phrases.
fn domain_of(alloc: Global, p: &Phrase) -> Result<Ty, OutOfMemory>
    ensures { IfOk result (λ ty. plain_type ty ≡ domain_of (reads p.now)) }
{
    let Phrase::Lam(_, types, _, _) = p else {
        return Ok(Ty::Ns);
    };
    match types.as_slice() {
        [first, ..] => copy_ty(alloc, first),
        [] => Ok(Ty::Ns),
    }
}

// What a piece of a header names.
fn named_by(alloc: Global, at: Place, piece: &Piece<'_>) -> Result<Named, FrontError>
    requires { HaveNoEnd piece.now.ty.now }
    ensures ok { IfOk result (λ named. NamesOf at (plain_piece piece.now) (plain_named named)) }
    ensures err { IfErr result (IfRefused (IsMeaningless (type_program_of at (plain_piece piece.now)))) }
{
    let tokens = type_program(alloc, at, piece)?;
    let phrase = phrase_of_tokens(alloc, &tokens)?;
    let ty = domain_of(alloc, behind_definitions(PROVIDED, &phrase))?;
    Ok(Named {
        name: piece.name,
        ty,
    })
}

// What the pieces of a header name, in order.
fn all_named(alloc: Global, at: Place, pieces: &[Piece<'_>]) -> Result<Vec<Named>, FrontError>
    requires { AreInside (map plain_piece pieces.now) }
    ensures ok { IfOk result (λ all. NameAll at (map plain_piece pieces.now) (map plain_named all.items)) }
    ensures err { IfErr result (IfRefused (IsTypeFault at (map plain_piece pieces.now))) }
{
    let mut all = Vec::new(alloc);
    for piece in pieces {
        all.push(named_by(alloc, at, piece)?)?;
    }
    Ok(all)
}

// What a source with this header says, whose first token has that place.
fn said_behind(alloc: Global, at: Place, header: &Header<'_>) -> Result<Said, FrontError>
    requires { IsInside (plain_header header.now) }
    ensures ok { IfOk result (λ said. IsSaid at (plain_header header.now) (plain_said said)) }
    ensures equals_at { IfOk result (λ said. said.equals_at ≡ header.now.equals_at) }
    ensures err { IfErr result (IfRefused (IsSaidFault at (plain_header header.now))) }
{
    let imports = all_named(alloc, at, &header.imports)?;
    let own = named_by(alloc, at, &header.own)?;
    parse(alloc, header.tail)?;
    let tokens = unit_program(alloc, at, header)?;
    let whole = phrase_of_tokens(alloc, &tokens)?;
    Ok(Said {
        imports,
        own,
        equals_at: header.equals_at,
        whole,
    })
}

/// What a source says, or why it is refused before typing. The names get those of its names that are new.
pub(crate) fn said_in(alloc: Global, names: &mut Names, source: &[u8]) -> Result<Said, FrontError>
    requires text { length source.now ≤ most_text }
    requires names { length names.old ≤ 3000000000 }
    ensures ok { IfOk result (λ said. IsSource names.old source.now names.new (plain_said said)) }
    ensures equals_at { IfOk result (λ said. HasEquals names.old source.now names.new said.equals_at) }
    ensures err { IfErr result (IfRefused (IsSourceFault names.old source.now)) }
    ensures names { HasAdded names.old names.new }
    ensures few { length names.new ≤ length names.old + length source.now }
{
    let tokens = lex(alloc, names, source)?;
    let at = front(&tokens);
    match header_in(alloc, &tokens)? {
        Some(header) => said_behind(alloc, at, &header),
        None => Err(FrontError::Refused(Refusal::Header(at))),
    }
}

// The place of the first token.
fn front(tokens: &[Token]) -> Place
    ensures { result ≡ front tokens.now }
{
    match tokens {
        [] => Place::first(),
        [first, ..] => first.place,
    }
}

// Adds the type of a procedure of the prelude: from this atom to commands.
fn put_procedure(alloc: Global, context: &mut TyList, atom: Atom) -> Result<(), OutOfMemory>
    ensures { OnOk result (map plain_type (types_in context.new) ≡ map plain_type (types_in context.old) ++ arrow (of_atom atom) (of_atom Comm) ∷ []) }
{
    let domain = Rc::new(alloc, Ty::Atom(atom))?;
    let command = Rc::new(alloc, Ty::Atom(Atom::Comm))?;
    context.push(Ty::Arrow(domain, command))
}

// Adds the type of `newintseq`.
fn put_maker(alloc: Global, context: &mut TyList) -> Result<(), OutOfMemory>
    ensures { OnOk result (map plain_type (types_in context.new) ≡ map plain_type (types_in context.old) ++ maker_type ∷ []) }
{
    let count = Rc::new(alloc, Ty::Atom(Atom::Int))?;
    let sequence = Rc::new(alloc, variable_sequence(alloc)?)?;
    let command = Rc::new(alloc, Ty::Atom(Atom::Comm))?;
    let procedure = Rc::new(alloc, Ty::Arrow(sequence, command))?;
    let command = Rc::new(alloc, Ty::Atom(Atom::Comm))?;
    let rest = Rc::new(alloc, Ty::Arrow(procedure, command))?;
    context.push(Ty::Arrow(count, rest))
}

/// The types of the prelude's names and then of the imports.
pub(crate) fn context_of(alloc: Global, imports: &[Named]) -> Result<TyList, OutOfMemory>
    ensures { IfOk result (λ context. map plain_type (types_in context) ≡ context_of (map plain_named imports.now)) }
{
    let mut context = TyList::new(alloc);
    put_procedure(alloc, &mut context, Atom::Int)?;
    put_procedure(alloc, &mut context, Atom::Char)?;
    put_procedure(alloc, &mut context, Atom::Bool)?;
    put_procedure(alloc, &mut context, Atom::IntAcc)?;
    put_maker(alloc, &mut context)?;
    for import in imports {
        context.push(copy_ty(alloc, &import.ty)?)?;
    }
    Ok(context)
}
