use crate::tests::made::{first_of, types_of};
use fy_derive::{Demand, Derivation};
use fy_forms::{TypeError, join, meet, paths_of};
use fy_order::{
    PathIndex, are_paths_below, is_form_below, one_end, others, rests_of_field, rests_of_takers,
    takers,
};
use fy_types::{
    Atom, Names, Paths, Ty, copy_paths, copy_ty, is_below, is_subtype, print_ty, same_ty, ty_of,
};
use std::alloc::Global;
use std::rc::Rc;
use std::test::Fail;

// Two types, and whether the first is a subtype of the second.
const QUESTIONS: &[(&[u8], bool)] = &[
    (b"sub [int -> comm] sub [(int & intacc) -> comm] ns", true),
    (b"sub [(int & intacc) -> comm] sub [int -> comm] ns", false),
    (
        b"sub [(int -> int) & (int -> bool)] sub [int -> (int & bool)] ns",
        true,
    ),
    (b"sub [ns] sub [int -> ns] ns", true),
    (b"sub [ns] sub [ns -> int] ns", false),
    (b"sub [int -> compl] sub [int -> comm] ns", true),
];

#[test]
fn answers_questions_of_subtyping(rt: HostRuntime) -> Result<(), Fail> {
    let alloc = rt.alloc();
    for (text, answer) in QUESTIONS {
        let d = types_of(alloc, text)?;
        let (low, others) = first_of(&d)?;
        let (high, _) = first_of(others)?;
        assert!(rt; is_below(alloc, low, high)? == *answer);
        let low = paths_of(alloc, low)?;
        assert!(rt; is_subtype(&low, &paths_of(alloc, high)?) == *answer);
    }
    Ok(())
}

// Two types and their join or their meet, and which of them it is.
const BOUNDS: &[(&[u8], bool)] = &[
    (
        b"sub [int -> comm] sub [bool -> compl] sub [(int & bool) -> comm] ns",
        true,
    ),
    (
        b"sub [int & bool] sub [bool & char] sub [int & bool & char] ns",
        false,
    ),
];

fn bound_of(alloc: Global, a: &Ty, b: &Ty, is_join: bool) -> Result<Paths, Fail> {
    let a = paths_of(alloc, a)?;
    let b = paths_of(alloc, b)?;
    if is_join {
        Ok(join(alloc, &a, &b)?)
    } else {
        Ok(meet(alloc, &a, &b)?)
    }
}

#[test]
fn joins_and_meets(rt: HostRuntime) -> Result<(), Fail> {
    let alloc = rt.alloc();
    for (text, is_join) in BOUNDS {
        let d = types_of(alloc, text)?;
        let (a, others) = first_of(&d)?;
        let (b, others) = first_of(others)?;
        let (wanted, _) = first_of(others)?;
        let bound = bound_of(alloc, a, b, *is_join)?;
        let copy = copy_paths(alloc, &bound)?;
        assert!(rt; same_ty(&ty_of(alloc, &copy)?, wanted));
    }
    Ok(())
}

// What stands around a name in a procedure that takes a member of the name and seven others: fields, or procedures that take them.
type Around = (&'static [u8], &'static [u8]);

const OF_FIELDS: Around = (
    b"(((",
    b" : int) & (s : int) & (t : int) & (u : int) & (v : int) & (w : int) & (x : int) & (y : int)) -> int) & ",
);

const OF_PROCEDURES: Around = (
    b"((((",
    b" : int) -> int) & ((s : int) -> int) & ((t : int) -> int) & ((u : int) -> int) & ((v : int) -> int) & ((w : int) -> int) & ((x : int) -> int) & ((y : int) -> int)) -> int) & ",
);

// All names in order, so that each text has the same numbers for them.
const NUMBERED: &[u8] =
    b"sub [(a : int) & (b : int) & (c : int) & (d : int) & (e : int) & (f : int) & (g : int) & (h : int) & (i : int) & (j : int) & (k : int) & (l : int) & (m : int) & (n : int) & (o : int) & (p : int) & (q : int) & (r : int) & (s : int) & (t : int) & (u : int) & (v : int) & (w : int) & (x : int) & (y : int)] sub [";

// The path form of the meet of such a procedure for each of the names.
fn readers(alloc: Global, names: &[u8], around: &Around) -> Result<Paths, Fail> {
    let mut text = Vec::new(alloc);
    text.extend_from_slice(NUMBERED)?;
    for name in names {
        text.extend_from_slice(around.0)?;
        text.push(*name)?;
        text.extend_from_slice(around.1)?;
    }
    text.extend_from_slice(b"ns] ns")?;
    let d = types_of(alloc, text.as_slice())?;
    let (_, others) = first_of(&d)?;
    let (ty, _) = first_of(others)?;
    Ok(paths_of(alloc, ty)?)
}

const NAMES: &[u8] = b"abcdefghijklmnopq";

const TURNED: &[u8] = b"qponmlkjihgfedcba";

const OTHERS: &[u8] = b"rponmlkjihgfedcba";

// Names and what stands around them, and whether the form for the first names is below the one for these.
const ORDERS: &[(&[u8], Around, bool)] = &[
    (TURNED, OF_FIELDS, true),
    (OTHERS, OF_FIELDS, false),
    (TURNED, OF_PROCEDURES, true),
    (OTHERS, OF_PROCEDURES, false),
];

#[test]
fn many_paths_are_compared(rt: HostRuntime) -> Result<(), Fail> {
    let alloc = rt.alloc();
    for (names, around, answer) in ORDERS {
        let form = readers(alloc, NAMES, around)?;
        let other = readers(alloc, names, around)?;
        assert!(rt; form.len() == 17 && other.len() == 17);
        assert!(rt; is_form_below(alloc, &form, &other)? == *answer);
        let index = PathIndex::of(alloc, &form)?;
        assert!(rt; index.is_below(alloc, &other)? == *answer);
    }
    Ok(())
}

#[test]
fn rests_stand_behind_calls(rt: HostRuntime) -> Result<(), Fail> {
    let alloc = rt.alloc();
    let d = types_of(alloc, b"sub [int -> bool] ns")?;
    let (ty, _) = first_of(&d)?;
    let procedure = paths_of(alloc, ty)?;
    let int = one_end(alloc, Atom::Int)?;
    assert!(rt; are_paths_below(alloc, &int, &int)?);
    let taken = takers(alloc, &int, &procedure)?;
    let rests = rests_of_takers(alloc, taken.as_slice(), &procedure)?;
    assert!(rt; matches!(rests.as_slice(), [rest] if rest.end == Atom::Bool));
    Ok(())
}

#[test]
fn rests_stand_behind_fields(rt: HostRuntime) -> Result<(), Fail> {
    let alloc = rt.alloc();
    let d = types_of(alloc, b"sub [putint : int] ns")?;
    let (ty, _) = first_of(&d)?;
    let record = paths_of(alloc, ty)?;
    assert!(rt; rests_of_field(alloc, 1, &record)?.len() == 1);
    assert!(rt; rests_of_field(alloc, 2, &record)?.len() == 0);
    assert!(rt; others(alloc, Demand::Call, record)?.len() == 1);
    Ok(())
}

// The beginning of a text, what stands in it so many times, and its end.
type Long = (&'static [u8], &'static [u8], usize, &'static [u8]);

fn long_types(alloc: Global, spelled: &Long) -> Result<Derivation, Fail> {
    let (head, piece, count, tail) = spelled;
    let mut text = Vec::new(alloc);
    text.extend_from_slice(head)?;
    for _ in 0..*count {
        text.extend_from_slice(piece)?;
    }
    text.extend_from_slice(tail)?;
    types_of(alloc, text.as_slice())
}

const MANY_INTS: Long = (b"sub [", b"int & ", 4096, b"int] ns");

const WITH_A_BOOL: Long = (b"sub [", b"int & ", 4096, b"bool] ns");

const FIELDS: Long = (b"sub [", b"x : ", 480, b"int] ns");

const MORE_FIELDS: Long = (b"sub [", b"x : ", 481, b"int] ns");

// Types with the length of their path forms, where these are within the limits.
const LENGTHS: &[(Long, Option<usize>)] = &[
    ((b"sub [", b"int & ", 4095, b"int] ns"), Some(4096)),
    (MANY_INTS, None),
    ((b"sub [(", b"int & ", 4096, b"int) -> ns] ns"), Some(0)),
    ((b"sub [", b"x : ", 479, b"int] ns"), Some(1)),
    (FIELDS, None),
];

#[test]
fn keeps_the_limits_of_path_forms(rt: HostRuntime) -> Result<(), Fail> {
    let alloc = rt.alloc();
    for (spelled, length) in LENGTHS {
        let d = long_types(alloc, spelled)?;
        let (ty, _) = first_of(&d)?;
        match paths_of(alloc, ty) {
            Ok(form) => assert!(rt; *length == Some(form.len())),
            Err(error) => assert!(rt; length.is_none() && error == TypeError::TypeTooLarge),
        }
    }
    Ok(())
}

// Types whose path forms are past the limits, and whether the first is below the second.
const COMPARED: &[(Long, Long, bool)] = &[
    (WITH_A_BOOL, MANY_INTS, true),
    (MANY_INTS, WITH_A_BOOL, false),
    (FIELDS, FIELDS, true),
    (FIELDS, MORE_FIELDS, false),
];

#[test]
fn compares_types_past_the_limits(rt: HostRuntime) -> Result<(), Fail> {
    let alloc = rt.alloc();
    for (low, high, answer) in COMPARED {
        let low = long_types(alloc, low)?;
        let high = long_types(alloc, high)?;
        let (low, _) = first_of(&low)?;
        let (high, _) = first_of(&high)?;
        assert!(rt; is_below(alloc, low, high)? == *answer);
    }
    Ok(())
}

#[test]
fn prints_a_sequence_type(rt: HostRuntime) -> Result<(), Fail> {
    let alloc = rt.alloc();
    let names = Names::new(alloc)?;
    let d = types_of(alloc, b"sub [(int -> int) & len : int] ns")?;
    let (intseq, _) = first_of(&d)?;
    let copy = copy_ty(alloc, intseq)?;
    let text = print_ty(alloc, &names, &copy)?;
    assert!(rt; text.as_slice() == b"(int -> int) & (len : int)".as_slice());
    Ok(())
}

// No text spells a field that has no name.
#[test]
fn prints_a_field_without_a_name(rt: HostRuntime) -> Result<(), Fail> {
    let alloc = rt.alloc();
    let names = Names::new(alloc)?;
    let nameless = Ty::Field(13, Rc::new(alloc, Ty::Ns)?);
    let text = print_ty(alloc, &names, &nameless)?;
    assert!(rt; text.as_slice() == b" : ns".as_slice());
    Ok(())
}

const TEXTS: &[(u32, Option<&[u8]>)] = &[(0, Some(b"len")), (13, Some(b"x")), (14, None)];

#[test]
fn numbers_texts_in_order(rt: HostRuntime) -> Result<(), Fail> {
    let mut names = Names::new(rt.alloc())?;
    let intvarseq = names.number(b"intvarseq")?;
    let x = names.number(b"x")?;
    let putint = names.number(b"putint")?;
    let again = names.number(b"x")?;
    assert!(rt; intvarseq == 12 && x == 13 && putint == 1 && again == 13);
    for (number, text) in TEXTS {
        assert!(rt; names.text(*number) == *text);
    }
    Ok(())
}
