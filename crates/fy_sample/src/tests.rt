use crate::{sample_text, summary};
use std::test::Fail;

// The sample of number 0 with 6 statements, by hand from the recurrence: kinds and constants are
// 2 67, 0 64, 0 27, 1 42, 2 92 and 2 87.
#[test]
fn samples_follow_their_table(rt: HostRuntime) -> Result<(), Fail> {
    let text = sample_text(rt.alloc(), 0, 6)?;
    let want = b"new a:int := 0 in new b:int := 0 in let f == \\x: int | intvar. x + 1 in (\
if a < b then a := a + 67 else b := b + 67; a := f (b + 64); a := f (b + 27); \
b := (a * 3 + 42) rem 1000; if a < b then a := a + 92 else b := b + 92; \
if a < b then a := a + 87 else b := b + 87; putint a; putchar ' '; putint b)";
    assert_eq!(rt; text.as_slice(), want.as_slice());
    assert_eq!(rt; summary(0, 7).as_str(), "\nstatus 0 bytes 7\n");
    Ok(())
}
