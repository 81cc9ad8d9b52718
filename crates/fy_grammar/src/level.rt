//! The levels of the grammar whose phrases are read by their level.

ghost use Rattle.std.specs.Prelude.{◌≡◌};
ghost use Rattle.fy_syntax.specs.Signs.{operator_level};
ghost use Rattle.fy_syntax.specs.Reader.{rank};
ghost use Rattle.fy_grammar.specs.Levels.{level_of};

use fy_base::BinOp;

#[derive(Clone, Copy, Debug)]
pub(crate) enum Level {
    Sequence,
    Term,
    Either,
    Both,
    Relation,
    Sum,
    Product,
    Prefixed,
}

impl Level {
    // The number of the level in the grammar.
    pub(crate) fn number(self) -> u8
        ensures { result ≡ rank (level_of self) }
    {
        match self {
            Level::Sequence => 2,
            Level::Term => 3,
            Level::Either => 4,
            Level::Both => 5,
            Level::Relation => 6,
            Level::Sum => 7,
            Level::Product => 8,
            Level::Prefixed => 9,
        }
    }

    // The level whose operator it is.
    pub(crate) fn of_operator(op: BinOp) -> Level
        ensures { level_of result ≡ operator_level op }
    {
        match op {
            BinOp::Or => Level::Either,
            BinOp::And => Level::Both,
            BinOp::Eq | BinOp::Ne | BinOp::Lt | BinOp::Le | BinOp::Gt | BinOp::Ge =>
                Level::Relation,
            BinOp::Add | BinOp::Sub => Level::Sum,
            BinOp::Mul | BinOp::Div | BinOp::Rem => Level::Product,
        }
    }
}
