use crate::tests::made::run_for;
use fy_base::Ending;
use rv_flow::{lower_block, lower_entries};
use rv_word::Micro;
use rv_word::Register::First;
use std::alloc::Global;
use std::test::Fail;

// The address of the stack, of 8,192 words.
const STACK: u64 = 0x4000_0000;

// How a run ends that asks for so many words of the stack from an address on.
fn asked(alloc: Global, address: u64, size: u16) -> Result<Ending, Fail> {
    let mut items = Vec::new(alloc);
    lower_entries(&mut items, &[0])?;
    let micros = [
        Micro::Set(First, address),
        Micro::Window(First, size),
        Micro::End,
    ];
    lower_block(&mut items, 1, 0, 0, &micros)?;
    Ok(run_for(alloc, 8192, &items, &[], 100)?.0)
}

// The least and the largest windows of both checks.
const SIZES: &[u16] = &[1, 255, 256, 4096];

#[test]
fn windows_end_with_the_stack(rt: HostRuntime) -> Result<(), Fail> {
    let alloc = rt.alloc();
    for size in SIZES {
        assert!(rt; *size <= 4096);
        let last = STACK + 8 * (8192 - *size as u64);
        for inside in [STACK, last] {
            assert!(rt; asked(alloc, inside, *size)? == Ending::Ended, "{size}");
        }
        for outside in [0, STACK - 8, STACK + 4, last - 4, last + 8, u64::MAX - 7] {
            assert!(rt; asked(alloc, outside, *size)? == Ending::Spent, "{size}");
        }
    }
    Ok(())
}
