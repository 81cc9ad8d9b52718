//! The blocks of items by their numbers.

ghost use Rattle.std.specs.Prelude.{◌≡◌, ◌<◌, [], slice_index_or, IsTrue, OnOk};
ghost use Rattle.std.specs.Option.{ForSome};
ghost use Rattle.pe_code.specs.Code.{shape_of, straight_of, variable_of};
ghost use Rattle.rv_flow.specs.Emission.{are_near};
ghost use Rattle.rv_select.specs.Numbers.{block_count};
ghost use Rattle.rv_select.specs.Emission.{IsSmallStraight, blocks_at};

use crate::further_blocks::add_further;
use crate::main_blocks::add_main;
use crate::sites::Site;
use fy_base::OutOfMemory;
use pe_code::PeInsn;
use rv_word::Micro;

/// Makes `block` the block with a number of an instruction. Number 0 is its own.
pub fn make_block(
    block: &mut Vec<Micro>,
    site: &Site<'_, '_>,
    insn: &PeInsn,
    number: u32,
) -> Result<(), OutOfMemory>
    requires variable { ForSome (variable_of insn.now) (λ k. k < 512) }
    requires shape { ForSome (shape_of insn.now) (λ s. s < site.now.numbers.now.shapes) }
    requires straight { ForSome (straight_of insn.now) IsSmallStraight }
    requires inside { number < block_count insn.now }
    ensures made { OnOk result (block.new.items ≡ slice_index_or (blocks_at site.now insn.now) number []) }
    ensures near { OnOk result (IsTrue (are_near block.new.items)) }
{
    block.clear();
    if number == 0 {
        add_main(block, site, insn)
    } else {
        add_further(block, site, insn, number)
    }
}
