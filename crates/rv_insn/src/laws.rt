//! Laws of the encoding, of the step and of runs, each the contract of a function that does nothing.

ghost use Rattle.rv_insn.specs.Laws.{WordsAreUnambiguous, EncodableHaveOneWord, OnlyEncodableHaveWords, ReadingsAreUnique, StepsExecuteWords, IllegalWordsTrap, RunsSplit, OutputGrows, EndedRunsStay, StatusFollows, RunsKeepShape, LoadsReadDoublewords, LoadsReadTheTable, StoresReplaceDoublewords};

/// Each word is at most one instruction's.
pub fn words_are_unambiguous()
    ensures { WordsAreUnambiguous }
{}

/// Each encodable instruction has a word, and only one.
pub fn encodable_have_one_word()
    ensures { EncodableHaveOneWord }
{}

/// What has a word is encodable.
pub fn only_encodable_have_words()
    ensures { OnlyEncodableHaveWords }
{}

/// The words of the code tell its instructions.
pub fn readings_are_unique()
    ensures { ReadingsAreUnique }
{}

/// A step at a word of the code executes the word's instruction.
pub fn steps_execute_words()
    ensures { StepsExecuteWords }
{}

/// A step at a word that no instruction has traps.
pub fn illegal_words_trap()
    ensures { IllegalWordsTrap }
{}

/// n + m instructions are n and then m.
pub fn runs_split()
    ensures { RunsSplit }
{}

/// The output of a run only grows.
pub fn output_grows()
    ensures { OutputGrows }
{}

/// A run that has ended stays as it is.
pub fn ended_runs_stay()
    ensures { EndedRunsStay }
{}

/// A machine that ran stands after a step as the step's event says.
pub fn status_follows()
    ensures { StatusFollows }
{}

/// No run changes the number of registers, x0 or the size of the stack.
pub fn runs_keep_shape()
    ensures { RunsKeepShape }
{}

/// A load of an aligned doubleword of the stack reads one of its doublewords.
pub fn loads_read_doublewords()
    ensures { LoadsReadDoublewords }
{}

/// A load of an aligned doubleword of the table reads one of its words.
pub fn loads_read_the_table()
    ensures { LoadsReadTheTable }
{}

/// A store of an aligned doubleword replaces one of the stack's doublewords and no other.
pub fn stores_replace_doublewords()
    ensures { StoresReplaceDoublewords }
{}
