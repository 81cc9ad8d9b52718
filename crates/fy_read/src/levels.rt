//! The types that are open while a type is read.

ghost use Rattle.std.specs.Prelude.{◌≡◌, ◌+◌, ◌<◌, ◌≤◌, ◌==◌, true, false, IfErr, IfOk, OnOk, not, length};
ghost use Rattle.fy_read.specs.Levels.{outer_levels};
ghost use Rattle.fy_read.specs.OpenTypes.{no_levels, whole_type, with_field, with_part, with_domain, with_inner, with_open, with_closed, around as nodes_of, TakesPart, TakesJoint, IsFieldDeep, IsMeetDeep, IsArrowDeep};
ghost use Rattle.fy_types.specs.Nested.{type_nesting};
ghost use Rattle.fy_read.specs.Refusals.{most_open_parens};
ghost use Rattle.fy_types.specs.Reading.{plain_type};

use crate::level::Level;
use crate::stop::Stop;
use fy_types::{Name, Ty};
use std::alloc::Global;

const MOST_NESTING: usize = 1024;

const MOST_PARENTHESES: usize = 1024;

/// The levels of a type that is read: the innermost, and those around it, the outermost first.
#[derive(Debug, Drop)]
pub struct Levels {
    outer: Vec<Level>,
    inner: Level,
    // The nodes around the innermost.
    around: usize,
    ghost counted: { around ≡ nodes_of (outer_levels outer.items) },
}

impl Levels {
    ghost use Rattle.fy_read.specs.OpenLevels.{levels_of, PassesIf};

    /// The levels of a type that begins.
    pub fn new(alloc: Global) -> Levels
        ensures { levels_of result ≡ no_levels }
    {
        Levels {
            outer: Vec::new(alloc),
            inner: Level::new(alloc),
            around: 0,
        }
    }

    /// Whether a parenthesis is open.
    pub fn is_open(&self) -> bool
        ensures { result ≡ not (length (levels_of self.now).outer == 0) }
    {
        !self.outer.is_empty()
    }

    /// Begins a field of the part that comes next.
    pub fn field(&mut self, name: Name) -> Result<(), Stop>
        ensures ok { OnOk result (levels_of self.new ≡ with_inner (levels_of self.old) (with_field (levels_of self.old).inner name)) }
        ensures err { IfErr result (λ e. e ≡ Stop.OutOfMemory) }
    {
        self.inner.begin_field(name)
    }

    /// Whether a field's part that comes next nests too deep, whatever it is.
    pub fn is_field_deep(&self) -> bool
        requires { TakesPart (levels_of self.now) }
        ensures deep { result ≡ true → IsFieldDeep (levels_of self.now) }
        ensures room { result ≡ false → ¬ IsFieldDeep (levels_of self.now) }
    {
        self.around + self.inner.inside() + 2 > MOST_NESTING
    }

    /// Adds a part that is a word.
    pub fn word(&mut self, alloc: Global, part: Ty) -> Result<(), Stop>
        requires levels { TakesPart (levels_of self.old) }
        requires single { type_nesting (plain_type part) ≡ 1 }
        ensures ok { OnOk result (levels_of self.new ≡ with_inner (levels_of self.old) (with_part (levels_of self.old).inner (plain_type part))) }
        ensures err { IfErr result (λ e. e ≡ Stop.OutOfMemory) }
    {
        self.inner.add(alloc, part, 1)
    }

    /// Goes on behind `&`.
    pub fn ampersand(&mut self) -> Result<(), Stop>
        requires { TakesJoint (levels_of self.old) }
        ensures same { levels_of self.new ≡ levels_of self.old }
        ensures within { OnOk result (¬ IsMeetDeep (levels_of self.old)) }
        ensures err { IfErr result (PassesIf (IsMeetDeep (levels_of self.old))) }
    {
        if self.around + self.inner.longer_nesting() > MOST_NESTING {
            return Err(Stop::TooDeep);
        }
        Ok(())
    }

    /// Goes on behind `->`.
    pub fn arrow(&mut self, alloc: Global) -> Result<(), Stop>
        requires { TakesJoint (levels_of self.old) }
        ensures ok { OnOk result (levels_of self.new ≡ with_inner (levels_of self.old) (with_domain (levels_of self.old).inner)) }
        ensures within { OnOk result (¬ IsArrowDeep (levels_of self.old)) }
        ensures err { IfErr result (PassesIf (IsArrowDeep (levels_of self.old))) }
    {
        if self.around + self.inner.arrow_nesting() > MOST_NESTING {
            return Err(Stop::TooDeep);
        }
        self.inner.close_domain(alloc)
    }

    /// Opens a parenthesis.
    pub fn open(&mut self, alloc: Global) -> Result<(), Stop>
        requires { TakesPart (levels_of self.old) }
        ensures ok { OnOk result (levels_of self.new ≡ with_open (levels_of self.old)) }
        ensures within { OnOk result (length (levels_of self.old).outer < most_open_parens) }
        ensures err { IfErr result (PassesIf (most_open_parens ≤ length (levels_of self.old).outer)) }
    {
        if self.outer.len() >= MOST_PARENTHESES {
            return Err(Stop::TooDeep);
        }
        let inside = self.inner.inside();
        let level = std::mem::replace(&mut self.inner, Level::new(alloc));
        self.outer.push(level)?;
        self.around += inside;
        Ok(())
    }

    /// Closes the innermost parenthesis.
    pub fn close(&mut self, alloc: Global) -> Result<(), Stop>
        requires levels { TakesJoint (levels_of self.old) }
        requires open { 0 < length (levels_of self.old).outer }
        ensures ok { OnOk result (levels_of self.new ≡ with_closed (levels_of self.old)) }
        ensures err { IfErr result (λ e. e ≡ Stop.OutOfMemory) }
    {
        let Some(outer) = self.outer.pop() else {
            return Err(Stop::Misfit);
        };
        self.around -= outer.inside();
        let level = std::mem::replace(&mut self.inner, outer);
        let nesting = level.whole_nesting();
        let part = level.into_type(alloc)?;
        self.inner.add(alloc, part, nesting)
    }

    /// The type, where no parenthesis is open.
    pub fn into_type(self, alloc: Global) -> Result<Ty, Stop>
        ensures ok { IfOk result (λ t. plain_type t ≡ whole_type (levels_of self).inner) }
        ensures err { IfErr result (λ e. e ≡ Stop.OutOfMemory) }
    {
        self.inner.into_type(alloc)
    }
}
