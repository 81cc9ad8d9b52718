//! The law of samples, the contract of a function that does nothing.

ghost use Rattle.fy_sample.specs.Sample.{SamplesAreShort};

/// A sample of at most 2,000 statements is a text of at most 1,048,576 bytes.
pub fn samples_are_short()
    ensures { SamplesAreShort }
{}
