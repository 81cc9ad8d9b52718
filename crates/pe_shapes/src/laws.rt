//! The laws of demand shapes.

ghost use Rattle.pe_shapes.specs.Closed.{ShapeTablesAreClosed};
ghost use Rattle.pe_shapes.specs.Order.{ShapeTablesAreOne};

/// The shape table of a derivation that [`check`](fy_derive::check) accepts is closed: it has the
/// program's own node as a run, and with each pair of a node and a shape the pairs that the node's
/// form passes to its parts. It does nothing: its contract is the law.
pub fn shape_tables_are_closed()
    ensures { ShapeTablesAreClosed }
{}

/// Of a phrase and a derivation there is one shape table in order: so [`shapes_of`](crate::shapes_of)
/// gives a function of them, and the number of a shape is that which the order of shapes gives it. It
/// does nothing: its contract is the law.
pub fn shape_tables_are_one()
    ensures { ShapeTablesAreOne }
{}
