//! The symbols of a file: the entries of a compiled program, and the stubs.

/// What a symbol is called.
#[derive(Clone, Copy)]
pub enum SymbolName {
    /// The entry with this number.
    Entry(u32),
    /// Where the process starts.
    Start,
    /// The stub that puts a byte.
    Put,
    /// The stub that takes a byte.
    Take,
    /// The stub that writes what waits.
    Flush,
    /// The stub that writes bytes.
    Write,
    /// The stub that ends a program.
    End,
    /// The stub of a stack that doesn't suffice.
    Exhausted,
    /// The stub of a fault.
    Fault,
    /// The stub that writes a note.
    Say,
}

/// A symbol: what it is called, and where it is.
#[derive(Clone, Copy)]
pub struct Symbol {
    /// What it is called.
    pub name: SymbolName,
    /// Where it is in memory.
    pub address: u64,
}
