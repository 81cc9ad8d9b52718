use fy_derive::{nesting_of, nodes_of, print_derivation};
use fy_read::read_derivation;
use fy_types::Names;
use std::test::Fail;

const PRINTED: &[u8] =
    b"rule 3\nsub [(int -> (len : (x_1 : bool))) & char & compl]\nmeet 2\nalt 1\nleft\nns\nright\nrule 0\nns\nrule 10\nns\nns\nns\nns\nns\nns\nns\nns\nns\nns\n";

// Texts of derivations, with their nodes, their nesting, and how they are printed.
const ROWS: &[(&[u8], u32, u32, &[u8])] = &[
    (
        b" rule 3 sub [(int -> len : x_1 : bool) & char & (compl)]\n meet 2 alt 1 left ns right rule 0 ns rule 10 ns ns ns ns ns ns ns ns ns ns",
        20,
        6,
        PRINTED,
    ),
    (PRINTED, 20, 6, PRINTED),
    (
        b"rule 2 ns rule 2 ns rule 2 ns rule 2 ns rule 0",
        9,
        5,
        b"rule 2\nns\nrule 2\nns\nrule 2\nns\nrule 2\nns\nrule 0\n",
    ),
    (
        b"rule 2 ns rule 2 ns rule 2 ns rule 2 ns sub [int] rule 0",
        10,
        6,
        b"rule 2\nns\nrule 2\nns\nrule 2\nns\nrule 2\nns\nsub [int]\nrule 0\n",
    ),
    (
        b"rule 2 right alt 1 sub [int] rule 0 meet 2 left ns ns",
        9,
        5,
        b"rule 2\nright\nalt 1\nsub [int]\nrule 0\nmeet 2\nleft\nns\nns\n",
    ),
];

#[test]
fn texts_are_read_and_printed(rt: HostRuntime) -> Result<(), Fail> {
    let alloc = rt.alloc();
    for (text, nodes, nesting, printed) in ROWS {
        if text.len() > 16777216 {
            return Err(Fail::from("past the limits"));
        }
        let mut names = Names::new(alloc)?;
        let d = read_derivation(alloc, &mut names, text)?;
        assert!(rt; nodes_of(&d) == *nodes && nesting_of(&d) == *nesting);
        assert!(rt; print_derivation(alloc, &names, &d)?.as_slice() == *printed);
    }
    Ok(())
}
