//! The variables in scope: whether each is a cell.

ghost use Rattle.std.specs.Prelude.{◌≡◌, slice_get};
ghost use Rattle.pe_gen.specs.Scopes.{binders, is_cell as is_cell_of};

/// The variables in scope, the innermost first.
#[derive(Clone, Copy, Drop)]
pub enum Scope<'a> {
    Program,
    /// One that is a cell or isn't, and those around.
    Under(bool, &'a Scope<'a>),
}

/// Whether the variable is a cell.
pub fn is_cell(scope: &Scope<'_>, variable: u32) -> bool
    ensures { result ≡ is_cell_of (slice_get (binders scope.now) variable) }
{
    let mut rest = scope;
    let mut left = variable;
    loop {
        match rest {
            Scope::Program => return false,
            Scope::Under(cell, outer) => {
                if left == 0 {
                    return *cell;
                }
                left -= 1;
                rest = outer;
            }
        }
    }
}
