//! What names stand for, from the inside out.

ghost use Rattle.std.specs.Prelude.{◌≡◌, ◌+◌, ◌≤◌, length, map};
ghost use Rattle.std.specs.Option.{option_map};
ghost use Rattle.fy_phrase.specs.Sizes.{greatest_u32};
ghost use Rattle.fy_syntax.specs.Reading.{decl_tree, def_of, defs_from};
ghost use Rattle.fy_expand.specs.Frames.{is_member, scope_of};
ghost use Rattle.fy_expand.specs.Scope.{with_defs, with_members};

use crate::size::Size;
use fy_syntax::{Decl, Def, SurfaceTy};
use fy_types::Name;

/// What a name of phrases stands for.
#[derive(Clone, Copy, PartialEq, Eq, Debug)]
pub(crate) enum Standing {
    /// The variable whose binder has that depth.
    Variable(u32),
    /// The field of that name of the variable whose binder has that depth.
    Member(u32),
}

/// The names of one construct, with those around it.
#[derive(Drop)]
pub(crate) enum Frame<'a> {
    /// No names of phrases, and the predefined names of types.
    Outermost,
    /// A binder of this name.
    Name(Name, &'a Frame<'a>),
    /// The binders of a `let`, the first definition's outermost.
    Defs(&'a [Def], &'a Frame<'a>),
    /// The binder of a `letrec`, whose fields these are.
    Members(&'a [Decl], &'a Frame<'a>),
    /// So many binders without a name.
    Hidden(usize, &'a Frame<'a>),
    /// A name for a type, and the size of that type.
    Type(Name, &'a SurfaceTy, Size, &'a Frame<'a>),
}

/// The number of binders around, or 4294967295 where it is greater.
pub(crate) fn depth_in(frame: &Frame) -> u32
    ensures { result ≡ greatest_u32 (scope_of frame.now).depth }
{
    match frame {
        Frame::Outermost => 0,
        Frame::Name(_, outer) | Frame::Members(_, outer) => depth_in(outer).saturating_add(1),
        Frame::Defs(defs, outer) => depth_in(outer).saturating_add(count(defs.len())),
        Frame::Hidden(count_of, outer) => depth_in(outer).saturating_add(count(*count_of)),
        Frame::Type(_, _, _, outer) => depth_in(outer),
    }
}

// A count, or 4294967295 where it is greater.
fn count(n: usize) -> u32
    ensures { result ≡ greatest_u32 n }
{
    n.min(4294967295) as u32
}

/// What a name of phrases stands for. Under over 1,024 binders their depths may be wrong.
pub(crate) fn find(frame: &Frame, name: Name) -> Option<Standing>
    ensures exact { (scope_of frame.now).depth ≤ 1024 → result ≡ (scope_of frame.now).phrases name }
    ensures kind { option_map is_member result
        ≡ option_map is_member ((scope_of frame.now).phrases name) }
{
    match frame {
        Frame::Outermost => None,
        Frame::Name(bound, outer) => {
            if name == *bound {
                Some(Standing::Variable(depth_in(outer)))
            } else {
                find(outer, name)
            }
        }
        Frame::Defs(defs, outer) => find_def(defs, name, depth_in(outer), find(outer, name)),
        Frame::Members(decls, outer) => {
            find_member(decls, name, depth_in(outer), find(outer, name))
        }
        Frame::Hidden(count, outer) => {
            let _binders = *count;
            find(outer, name)
        }
        Frame::Type(_, _, _, outer) => find(outer, name),
    }
}

// What the name stands for under the definitions, where their first binder has that depth.
fn find_def(defs: &[Def], name: Name, depth: u32, older: Option<Standing>) -> Option<Standing>
    ensures exact { depth + length defs.now ≤ 1024
        → result ≡ with_defs depth (defs_from (map def_of defs.now)) (λ _. older) name }
    ensures kind { option_map is_member result
        ≡ option_map is_member (with_defs 0 (defs_from (map def_of defs.now)) (λ _. older) name) }
{
    let mut at = depth;
    for def in defs {
        if name == def.name {
            return Some(Standing::Variable(at));
        }
        at = at.saturating_add(1);
    }
    older
}

// What the name stands for under the declarations, where their binder has that depth.
fn find_member(decls: &[Decl], name: Name, depth: u32, older: Option<Standing>) -> Option<Standing>
    ensures { result ≡ with_members depth (map decl_tree decls.now) (λ _. older) name }
{
    for decl in decls {
        if name == decl.name {
            return Some(Standing::Member(depth));
        }
    }
    older
}
