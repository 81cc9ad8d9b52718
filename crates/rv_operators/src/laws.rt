//! Laws of the operators, each the contract of a function that does nothing.

ghost use Rattle.rv_operators.specs.Laws.{BinaryOperatorsWork, BinaryResultsFit, OperatorsAreDisciplined, OperatorsAreFew, OperatorsAreHeld, OperatorsReadNoTable, UnaryOperatorsWork, UnaryResultsFit};

/// From the block of a unary operator, where its context is met by a datum, code comes to what the
/// operator makes of the datum, or to its fault, at a cost of at most 60 instructions. Nothing is
/// said of a datum of another type.
pub fn unary_operators_work()
    ensures { UnaryOperatorsWork }
{}

/// The same of a binary operator, where the context of its right operand is met by a datum.
pub fn binary_operators_work()
    ensures { BinaryOperatorsWork }
{}

/// What operators make of data whose integers have 64 bits are such data.
pub fn results_fit()
    ensures unary { UnaryResultsFit }
    ensures binary { BinaryResultsFit }
{}

/// Code holds the operators where their blocks stand behind as many as the first label says.
pub fn operators_are_held()
    ensures { OperatorsAreHeld }
{}

/// The operators are disciplined code wherever all their labels are those of blocks.
pub fn operators_are_disciplined()
    ensures { OperatorsAreDisciplined }
{}

/// The operators have 20 blocks and at most 320 words.
pub fn operators_are_few()
    ensures { OperatorsAreFew }
{}

/// The items of the operators depend on no number of words of the table.
pub fn operators_read_no_table()
    ensures { OperatorsReadNoTable }
{}
