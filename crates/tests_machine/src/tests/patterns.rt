ghost use Rattle.std.specs.Prelude.{◌≡◌, ◌≤◌, length, IfOk};
ghost use Rattle.rv_insn.specs.declared.events.Status.TheVariants.{Running};
ghost use Rattle.rv_machine.specs.Ends.{status_at};

use fy_base::{
    DoubleList, Ending, OutOfMemory, PlaceList, SteadySink, SteadySource, TrapKind, WordList,
};
use fy_image::Image;
use rv_machine::{Event, Machine, MachineRun, run_machine};
use std::alloc::Global;
use std::process::Abort;
use std::test::Fail;

// A circle of 47 words with each known pattern of words once.
const CIRCLE: [u32; 47] = [
    // addi x5, x2, 16
    0x0101_0293,
    // addi x6, x4, 0
    0x0002_0313,
    // addi x8, x0, 0
    0x0000_0413,
    // addi x9, x2, 16
    0x0101_0493,
    // jal x0, 4
    0x0040_006f,
    // far jump to the next word
    0x0000_0f97,
    0x008f_8067,
    // 8 bytes from x5 on lie in the stack
    0x0022_e063,
    0x0051_e063,
    0x0000_0fb7,
    0x008f_8f93,
    0x005f_8fb3,
    0x01f1_e063,
    0x0072_ff93,
    0x000f_9063,
    // sd x5, 0(x5)
    0x0052_b023,
    // 8 bytes from x9 on lie in the stack, by a near check, and the store there
    0x0024_e063,
    0xff81_8f93,
    0x009f_e063,
    0x0074_ff93,
    0x000f_9063,
    // sd x9, 0(x9)
    0x0094_b023,
    // 16 bytes from x5 on do, by a near check, and the load there
    0x0022_e063,
    0xff01_8f93,
    0x005f_e063,
    0x0072_ff93,
    0x000f_9063,
    // ld x5, 0(x5)
    0x0002_b283,
    // 24 bytes do
    0x0022_e063,
    0xfe81_8f93,
    0x005f_e063,
    0x0072_ff93,
    0x000f_9063,
    // x6 is the address of a table word
    0x0043_6063,
    0x2000_0fb7,
    0x008f_8f93,
    0x006f_e063,
    0x0073_7f93,
    0x000f_9063,
    // ld x7, 0(x6)
    0x0003_3383,
    // entry by x8
    0xff84_7f93,
    0x0000_0f37,
    0x008f_0f13,
    0x01ef_f063,
    0x0001_0f37,
    0x01ef_8fb3,
    0x000f_8067,
];

// Other first words of the circle, and the word from which it then goes no further: a branch of a
// check that is taken to itself.
const STAYS: &[([u32; 4], u64)] = &[
    // addi x5, x0, 16; addi x5, x3, 8; addi x5, x3, -4; addi x5, x2, 20
    ([0x0100_0293, 0x0002_0313, 0x0000_0413, 0x0101_0493], 7),
    ([0x0081_8293, 0x0002_0313, 0x0000_0413, 0x0101_0493], 8),
    ([0xffc1_8293, 0x0002_0313, 0x0000_0413, 0x0101_0493], 12),
    ([0x0141_0293, 0x0002_0313, 0x0000_0413, 0x0101_0493], 14),
    // addi x9, x0, 16; addi x9, x3, -4; addi x9, x2, 20
    ([0x0101_0293, 0x0002_0313, 0x0000_0413, 0x0100_0493], 16),
    ([0x0101_0293, 0x0002_0313, 0x0000_0413, 0xffc1_8493], 18),
    ([0x0101_0293, 0x0002_0313, 0x0000_0413, 0x0141_0493], 20),
    // addi x5, x3, -8; addi x5, x3, -16
    ([0xff81_8293, 0x0002_0313, 0x0000_0413, 0x0101_0493], 24),
    ([0xff01_8293, 0x0002_0313, 0x0000_0413, 0x0101_0493], 30),
    // addi x6, x0, 0; addi x6, x4, 16; addi x6, x4, 4
    ([0x0101_0293, 0x0000_0313, 0x0000_0413, 0x0101_0493], 33),
    ([0x0101_0293, 0x0102_0313, 0x0000_0413, 0x0101_0493], 36),
    ([0x0101_0293, 0x0042_0313, 0x0000_0413, 0x0101_0493], 38),
    // addi x8, x0, 8
    ([0x0101_0293, 0x0002_0313, 0x0080_0413, 0x0101_0493], 43),
];

// A machine with these words, and two words of table.
fn machine(alloc: Global, words: &[u32]) -> Result<Machine, OutOfMemory>
    requires some { 1 ≤ length words.now }
    requires few { length words.now ≤ 47 }
    ensures { IfOk result (λ m. m.core.status ≡ Running) }
{
    let mut table = DoubleList::new(alloc);
    table.push(0)?;
    table.push(0)?;
    let image = Image {
        stack_words: 1024,
        code: WordList::from_vec(Vec::from_slice(alloc, words)?),
        table,
        places: PlaceList::new(alloc),
    };
    Machine::load(alloc, &image)
}

fn run(alloc: Global, m: &mut Machine, count: u64) -> Result<MachineRun, OutOfMemory>
    requires { m.old.core.status ≡ Running }
    ensures { IfOk result (λ run. m.new.core.status ≡ status_at run.end) }
{
    let mut input = SteadySource::new(Vec::new(alloc));
    let mut output = SteadySink::new(alloc, 0)?;
    Ok(run_machine(m, &mut input, &mut output, count))
}

// Runs on for so many instructions, which are all done.
fn goes_on(rt: &impl Abort, alloc: Global, m: &mut Machine, count: u64) -> Result<(), Fail>
    requires { m.old.core.status ≡ Running }
    ensures { IfOk result (λ _. m.new.core.status ≡ Running) }
{
    let run = run(alloc, m, count)?;
    assert!(rt; run.steps == count);
    match run.end {
        Ending::Spent => Ok(()),
        _ => Err("it goes on".into()),
    }
}

// Each pattern is cut by the limit at each of its words, entered at each, left at each branch that is
// taken, and cut by the end of the code.
#[test]
fn patterns_end_where_they_are_cut(rt: HostRuntime) -> Result<(), Fail> {
    for count in 0..80 {
        for first in 0..47 {
            let mut m = machine(rt.alloc(), &CIRCLE)?;
            goes_on(&rt, rt.alloc(), &mut m, first)?;
            assert!(rt; m.pc() == 65536 + 4 * first);
            goes_on(&rt, rt.alloc(), &mut m, count)?;
            assert!(rt; m.pc() == 65536 + 4 * ((first + count) % 47));
        }
        for (firsts, last) in STAYS {
            let mut words = CIRCLE;
            for k in 0..4 {
                words[k] = firsts[k];
            }
            let mut m = machine(rt.alloc(), &words)?;
            goes_on(&rt, rt.alloc(), &mut m, count)?;
            assert!(rt; m.pc() == 65536 + 4 * count.min(*last));
        }
        for size in 1..47 {
            let mut m = machine(rt.alloc(), &CIRCLE[..size])?;
            let run = run(rt.alloc(), &mut m, count)?;
            let size = size as u64;
            assert!(rt; run.steps == count.min(size + 1));
            assert!(rt; m.pc() == 65536 + 4 * count.min(size));
            let end = if count > size {
                Ending::Trap(TrapKind::FetchRange)
            } else {
                Ending::Spent
            };
            assert!(rt; run.end == end);
        }
    }
    Ok(())
}

// After each number of instructions a run is where as many single steps are.
fn runs_as_steps(rt: &impl Abort, alloc: Global, words: &[u32]) -> Result<(), Fail>
    requires some { 1 ≤ length words.now }
    requires few { length words.now ≤ 47 }
{
    let mut stepped = machine(alloc, words)?;
    for count in 0..80 {
        let mut m = machine(alloc, words)?;
        goes_on(rt, alloc, &mut m, count)?;
        assert!(rt; m.pc() == stepped.pc());
        assert!(rt; m.word() == stepped.word());
        match stepped.step() {
            Event::Going => {}
            Event::Trap(kind) => {
                let mut m = machine(alloc, words)?;
                let run = run(alloc, &mut m, 80)?;
                assert!(rt; run.end == Ending::Trap(kind));
                assert!(rt; run.steps == count + 1);
                return Ok(());
            }
            _ => return Err("no word calls a service".into()),
        }
    }
    Ok(())
}

// Jumps into each word of each pattern, and then a store and a load behind a near check that trap.
#[test]
fn patterns_are_entered_at_each_word(rt: HostRuntime) -> Result<(), Fail> {
    for words_on in 1..43 {
        let mut words = CIRCLE;
        words[4] = 0x6f + 0x0040_0000 * words_on;
        runs_as_steps(&rt, rt.alloc(), &words)?;
    }
    // sd x9, -24(x9)
    let mut words = CIRCLE;
    words[21] = 0xfe94_b423;
    runs_as_steps(&rt, rt.alloc(), &words)?;
    // ld x5, -24(x5)
    let mut words = CIRCLE;
    words[27] = 0xfe82_b283;
    runs_as_steps(&rt, rt.alloc(), &words)?;
    Ok(())
}
