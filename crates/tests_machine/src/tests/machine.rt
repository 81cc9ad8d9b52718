ghost use Rattle.std.specs.Prelude.{◌≡◌, ◌≤◌, length, IfOk};
ghost use Rattle.rv_insn.specs.declared.events.Status.TheVariants.{Running};

use fy_base::{DoubleList, OutOfMemory, Place, PlaceList, WordList};
use fy_image::Image;
use rv_machine::{Event, Machine};
use std::alloc::Global;
use std::test::Fail;

const PLACE: Place = Place { line: 1, col: 39 };

// A machine with these words, one word of table, and one place.
fn machine(alloc: Global, words: &[u32]) -> Result<Machine, OutOfMemory>
    requires some { 1 ≤ length words.now }
    requires few { length words.now ≤ 8 }
    ensures { IfOk result (λ m. m.core.status ≡ Running) }
{
    let mut places = PlaceList::new(alloc);
    places.push(PLACE)?;
    let mut table = DoubleList::new(alloc);
    table.push(0x8877_6655_4433_2211)?;
    let image = Image {
        stack_words: 1024,
        code: WordList::from_vec(Vec::from_slice(alloc, words)?),
        table,
        places,
    };
    Machine::load(alloc, &image)
}

#[test]
fn reads_a_byte(rt: HostRuntime) -> Result<(), Fail> {
    // addi x17, x0, 2; ecall; addi x17, x0, 1; ecall
    let mut m = machine(rt.alloc(), &[0x0020_0893, 0x73, 0x0010_0893, 0x73])?;
    assert_eq!(rt; m.pc(), 65536);
    assert_eq!(rt; m.word(), Some(0x0020_0893));
    let Event::Going = m.step() else {
        return Err("addi goes on".into());
    };
    let Event::WantByte = m.step() else {
        return Err("ecall reads".into());
    };
    m.give(Some(b'z'));
    let Event::Going = m.step() else {
        return Err("addi goes on".into());
    };
    assert_eq!(rt; m.step(), Event::Put(b'z'));
    assert_eq!(rt; m.word(), None);
    Ok(())
}
