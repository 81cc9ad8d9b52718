//! Where and how a phrase is shown.

ghost use Rattle.std.specs.Prelude.{◌≡◌};

use crate::entries::{KnownNames, ScopeTexts};
use crate::manner::Manner;
use std::alloc::Global;

/// What is known of names, the variables in scope, and how parts are shown.
#[derive(Clone, Copy, Drop)]
pub struct View<'a, 's> {
    pub alloc: Global,
    pub known: &'a KnownNames<'a>,
    pub scope: &'s ScopeTexts<'s>,
    pub manner: Manner,
}

/// The view in another scope.
pub fn in_scope<'a, 's>(view: &View<'a, '_>, scope: &'s ScopeTexts<'s>) -> View<'a, 's>
    ensures known { result.known ≡ view.now.known }
    ensures scope { result.scope.now ≡ scope.now }
    ensures manner { result.manner ≡ view.now.manner }
{
    View {
        alloc: view.alloc,
        known: view.known,
        scope,
        manner: view.manner,
    }
}

/// The view in another manner.
pub fn in_manner<'a, 's>(view: &View<'a, 's>, manner: Manner) -> View<'a, 's>
    ensures known { result.known ≡ view.now.known }
    ensures scope { result.scope ≡ view.now.scope }
    ensures manner { result.manner ≡ manner }
{
    View {
        alloc: view.alloc,
        known: view.known,
        scope: view.scope,
        manner,
    }
}
