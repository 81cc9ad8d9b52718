//! Laws of processes, each the contract of a function that does nothing.

ghost use Rattle.fy_linux.specs.Laws.{FilesLoad, ProcessesGrow, ProcessesSplit, ProcessesStay};

/// n + m steps of a process are n and then m.
pub fn processes_split()
    ensures { ProcessesSplit }
{}

/// What a process has written only grows.
pub fn processes_grow()
    ensures { ProcessesGrow }
{}

/// A process that has left, or of which nothing is said, stays as it is.
pub fn processes_stay()
    ensures { ProcessesStay }
{}

/// Linux makes of the file of an image what its process starts with.
pub fn files_load()
    ensures { FilesLoad }
{}
