//! Laws of the word machine, each the contract of a function that does nothing.

ghost use Rattle.rv_word.specs.Laws.{DisciplinedIsNeverWrong, WordOutputGrows, WordRunsSplit};

/// n + m steps are n and then m.
pub fn word_runs_split()
    ensures { WordRunsSplit }
{}

/// The output only grows, unless the run goes wrong.
pub fn word_output_grows()
    ensures { WordOutputGrows }
{}

/// Disciplined code never goes wrong, from its start or any entry with at most 2^27 words.
pub fn disciplined_is_never_wrong()
    ensures { DisciplinedIsNeverWrong }
{}
