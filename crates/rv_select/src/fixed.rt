//! The labels, entries and columns that every program has.

use rv_operators::OPERATOR_COUNT;
use rv_runtime::FIRST_FREE;

/// The first label of the operators, which stand behind the routines.
pub const FIRST_OPERATOR: u32 = FIRST_FREE;

/// Makes the stack's foot, and goes to the first item.
pub const START_LABEL: u32 = FIRST_OPERATOR + OPERATOR_COUNT;
/// Ends the program.
pub const END_LABEL: u32 = START_LABEL + 1;
/// Enters a binding that is a datum.
pub const DATUM_LABEL: u32 = START_LABEL + 2;
/// Enters a cell that is read.
pub const READ_LABEL: u32 = START_LABEL + 3;
/// Enters a cell that is written.
pub const WRITE_LABEL: u32 = START_LABEL + 4;
/// Enters an escape.
pub const LEAVE_LABEL: u32 = START_LABEL + 5;
/// Answers the newest context by a finished command, which goes on to the next.
pub const POP_LABEL: u32 = START_LABEL + 6;
/// Puts an integer.
pub const PUT_INT_LABEL: u32 = START_LABEL + 7;
/// Puts a character.
pub const PUT_CHAR_LABEL: u32 = START_LABEL + 8;
/// Puts a truth value.
pub const PUT_BOOL_LABEL: u32 = START_LABEL + 9;
/// Begins to make the cells of a sequence, whose number is met.
pub const COUNT_LABEL: u32 = START_LABEL + 10;
/// Goes to the fault of a number of cells that is below 0.
pub const NO_COUNT_LABEL: u32 = START_LABEL + 11;
/// Makes one more cell.
pub const FILL_LABEL: u32 = START_LABEL + 12;
/// Goes on with a sequence all of whose cells are made.
pub const FILLED_LABEL: u32 = START_LABEL + 13;
/// Reads the cell of an index that is met.
pub const READ_ELEMENT_LABEL: u32 = START_LABEL + 14;
/// Writes the cell of an index that is met.
pub const WRITE_ELEMENT_LABEL: u32 = START_LABEL + 15;
/// Goes to the fault of an index that no cell has.
pub const OUTSIDE_LABEL: u32 = START_LABEL + 16;
/// Enters a sequence for its length.
pub const LENGTH_LABEL: u32 = START_LABEL + 17;
/// Enters an index for whose context there is no room.
pub const NO_ROOM_LABEL: u32 = START_LABEL + 18;
/// Enters a sequence for a cell that is read.
pub const INDEX_READ_LABEL: u32 = START_LABEL + 19;
/// Enters a sequence for a cell that is written.
pub const INDEX_WRITE_LABEL: u32 = START_LABEL + 20;
/// The first label of the items.
pub const FIRST_ITEM: u32 = START_LABEL + 21;

/// The entry that ends the program.
pub const END_ENTRY: u32 = 1;
/// The entry of a binding that is a datum.
pub const DATUM_ENTRY: u32 = 2;
/// The entry of a cell that is read.
pub const READ_ENTRY: u32 = 3;
/// The entry of a cell that is written.
pub const WRITE_ENTRY: u32 = 4;
/// The entry of an escape.
pub const LEAVE_ENTRY: u32 = 5;
/// The entry of a context that a finished command answers.
pub const POP_ENTRY: u32 = 6;
/// The entry of a context that puts an integer.
pub const PUT_INT_ENTRY: u32 = 7;
/// The entry of a context that puts a character.
pub const PUT_CHAR_ENTRY: u32 = 8;
/// The entry of a context that puts a truth value.
pub const PUT_BOOL_ENTRY: u32 = 9;
/// The entry of the context of an index whose cell is read.
pub const READ_ELEMENT_ENTRY: u32 = 10;
/// The entry of the context of an index whose cell is written.
pub const WRITE_ELEMENT_ENTRY: u32 = 11;
/// The entry of a sequence whose length is asked for.
pub const LENGTH_ENTRY: u32 = 12;
/// The entry of a sequence of which a cell is read.
pub const INDEX_READ_ENTRY: u32 = 13;
/// The entry of a sequence of which a cell is written.
pub const INDEX_WRITE_ENTRY: u32 = 14;
/// The first entry of the items.
pub const FIRST_ITEM_ENTRY: u32 = 15;

/// The words of bindings that name the columns of a datum, a cell and an escape in each row of the table.
pub const DATUM_COLUMN: u64 = 0;
/// The word that names the column of a cell.
pub const CELL_COLUMN: u64 = 8;
/// The word that names the column of an escape.
pub const ESCAPE_COLUMN: u64 = 16;
/// The word that names the column of a sequence of cells.
pub const SEQUENCE_COLUMN: u64 = 24;
/// How many columns each row has beside those of thunk nodes, which stand behind them.
pub const FIXED_COLUMNS: usize = 4;
