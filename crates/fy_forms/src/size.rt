//! How large a path is.

ghost use Rattle.std.specs.Prelude.{◌≡◌, ◌+◌, max};
ghost use Rattle.fy_types.specs.Reading.{plain_elem, plain_path, plain_paths};
ghost use Rattle.fy_types.specs.Limits.{all_nodes, all_nesting};
ghost use Rattle.fy_types.specs.Limits.{nodes as nodes_of, nesting as nesting_of};
ghost use Rattle.fy_types.specs.Keeping.{elem_nodes, elem_nesting, capped};

use fy_types::{Path, PathElem, Paths};

/// The nodes and the nesting of a path or of a list, each at most the greatest number of 64 bits.
#[derive(Clone, Copy)]
pub struct Size {
    pub nodes: u64,
    pub nesting: u64,
}

/// The size of a path.
#[cycle(size)]
pub(crate) fn size_of_path(path: &Path) -> Size
    ensures nodes { result.nodes ≡ capped (nodes_of (plain_path path.now)) }
    ensures nesting { result.nesting ≡ capped (nesting_of (plain_path path.now)) }
{
    let elems = path.elems.as_slice();
    let mut size = Size {
        nodes: 1,
        nesting: 1,
    };
    for i in (0..elems.len()).rev() {
        size = size_behind(&elems[i], size);
    }
    size
}

// The size of a path with the element in front.
#[cycle(size)]
fn size_behind(elem: &PathElem, rest: Size) -> Size
    ensures nodes { result.nodes ≡ capped (elem_nodes (plain_elem elem.now) + rest.nodes) }
    ensures nesting { result.nesting
        ≡ capped (max (elem_nesting (plain_elem elem.now)) rest.nesting + 1) }
{
    match elem {
        PathElem::Call(domain) => {
            let size = size_of_paths(domain);
            Size {
                nodes: size.nodes.saturating_add(rest.nodes).saturating_add(1),
                nesting: size.nesting.max(rest.nesting).saturating_add(1),
            }
        }
        PathElem::Field(_) => Size {
            nodes: rest.nodes.saturating_add(1),
            nesting: rest.nesting.saturating_add(1),
        },
    }
}

/// The size of a list.
#[cycle(size)]
pub fn size_of_paths(paths: &Paths) -> Size
    ensures nodes { result.nodes ≡ capped (all_nodes (plain_paths paths.now)) }
    ensures nesting { result.nesting ≡ capped (all_nesting (plain_paths paths.now)) }
{
    let mut nodes = 0u64;
    let mut nesting = 0u64;
    for path in paths.as_slice() {
        let size = size_of_path(path);
        nodes = nodes.saturating_add(size.nodes);
        nesting = nesting.max(size.nesting);
    }
    Size { nodes, nesting }
}
