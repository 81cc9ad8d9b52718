//! The members of meets in a table.

ghost use Rattle.std.specs.Prelude.{ℕ, ◌<◌, ◌≤◌, IfOk, Contains};
ghost use Rattle.fy_derive.specs.Shown.{total};
ghost use Rattle.fy_derive.specs.Covers.{covered, AreAlike, AreUnder, AreSingle};

use crate::node::TypeNode;
use crate::table::TypeTable;
use fy_base::OutOfMemory;
use indexmap::IndexSet;
use std::alloc::Global;

/// What the types are meets of, each once: types that are no meets, or the meet of none. No number
/// passes the bound.
pub fn members_of(
    alloc: Global,
    table: &TypeTable,
    list: &[usize],
    bound: usize,
) -> Result<Vec<usize>, OutOfMemory>
    requires bound { bound < total table.now }
    requires under { AreUnder bound list.now }
    ensures alike { IfOk result (λ v. AreAlike (covered table.now v.items) (covered table.now list.now)) }
    ensures under { IfOk result (λ v. AreUnder bound v.items) }
    ensures single { IfOk result (λ v. AreSingle table.now v.items) }
{
    let mut met = met_in(alloc, list)?;
    let mut singles = Vec::new(alloc);
    let mut i = 0;
    while i < met.len() {
        let number = met[i];
        match table.node(number) {
            TypeNode::AndType(first, rest) => {
                met.insert(first)?;
                met.insert(rest)?;
            }
            _ => singles.push(number)?,
        }
        i += 1;
    }
    Ok(singles)
}

// The numbers of the list, each once.
fn met_in(alloc: Global, list: &[usize]) -> Result<IndexSet<usize>, OutOfMemory>
    ensures has { IfOk result (λ met. (k : ℕ) → Contains list.now k → Contains met.keys k) }
    ensures known { IfOk result (λ met. (k : ℕ) → Contains met.keys k → Contains list.now k) }
{
    let mut met = IndexSet::new(alloc);
    for number in list {
        met.insert(*number)?;
    }
    Ok(met)
}
