use crate::{
    Applied, BinOp, Datum, Failed, FaultKind, FetchError, Files, KeepError, MemoryFiles,
    MemorySink, MemorySource, PutKind, RealFiles, RealSink, RealSource, Sink, Source, SteadyFiles,
    SteadySink, SteadySource, Text, TornSink, UnOp, apply_binary, apply_unary, put_text,
};
use std::test::Fail;

// The rules on data: ranges, truncation toward zero, the dividend's sign, and the three faults.
#[test]
fn data_follow_their_rules(rt: HostRuntime) {
    let overflow = Applied::Faults(FaultKind::Overflow);
    let zero = Applied::Faults(FaultKind::Zero);
    let table = [
        (BinOp::Add, i64::MAX, 1, overflow),
        (BinOp::Sub, i64::MIN, 1, overflow),
        (BinOp::Mul, i64::MIN, -1, overflow),
        (BinOp::Div, i64::MIN, -1, overflow),
        (BinOp::Rem, i64::MIN, -1, Applied::Gives(Datum::Int(0))),
        (BinOp::Div, -7, 2, Applied::Gives(Datum::Int(-3))),
        (BinOp::Rem, -7, 2, Applied::Gives(Datum::Int(-1))),
        (BinOp::Rem, 7, -2, Applied::Gives(Datum::Int(1))),
        (BinOp::Div, 1, 0, zero),
        (BinOp::Rem, 1, 0, zero),
        (BinOp::Le, 2, 2, Applied::Gives(Datum::Bool(true))),
        (BinOp::And, 1, 1, Applied::NoSense),
    ];
    for (op, x, y, want) in table {
        assert_eq!(rt; apply_binary(op, Datum::Int(x), Datum::Int(y)), want);
    }
    assert_eq!(rt; apply_unary(UnOp::Neg, Datum::Int(i64::MIN)), overflow);
    assert_eq!(rt;
        apply_unary(UnOp::Chr, Datum::Int(256)),
        Applied::Faults(FaultKind::Range)
    );
    assert_eq!(rt;
        apply_binary(BinOp::Eq, Datum::Int(1), Datum::Char(1)),
        Applied::NoSense
    );
}

#[test]
fn data_are_written(rt: HostRuntime) -> Result<(), Fail> {
    let alloc = rt.alloc();
    let mut written = Text::new(alloc);
    written.push(b'-')?;
    let least = put_text(alloc, PutKind::Int, Datum::Int(i64::MIN))?.ok_or("int")?;
    assert_eq!(rt; least.as_slice(), b"-9223372036854775808".as_slice());
    let truth = put_text(alloc, PutKind::Bool, Datum::Bool(false))?.ok_or("bool")?;
    assert_eq!(rt; truth.as_slice(), b"false".as_slice());
    assert!(rt; put_text(alloc, PutKind::Char, Datum::Int(65))?.is_none());
    Ok(())
}

#[test]
fn sources_give_and_fail(rt: HostRuntime) -> Result<(), Fail> {
    let alloc = rt.alloc();
    let mut room = [0; 2];
    let mut steady = SteadySource::new(b"abc".to_vec(alloc)?);
    assert_eq!(rt; steady.take(&mut room), Ok(2));
    assert_eq!(rt; room, *b"ab");
    let mut failing = MemorySource::new(b"abc".to_vec(alloc)?, vec![in alloc; 0u64]?);
    assert_eq!(rt; failing.take(&mut room), Err(Failed));
    assert_eq!(rt; failing.take(&mut room), Ok(2));
    let mut real = RealSource::new(b"xyz".as_slice());
    assert_eq!(rt; real.take(&mut room), Ok(2));
    assert_eq!(rt; real.take(&mut room), Ok(1));
    assert_eq!(rt; real.take(&mut room), Ok(0));
    Ok(())
}

#[test]
fn sinks_hold_and_fail(rt: HostRuntime) -> Result<(), Fail> {
    let alloc = rt.alloc();
    let mut steady = SteadySink::new(alloc, 3)?;
    assert_eq!(rt; steady.put(b"ab"), Ok(()));
    assert_eq!(rt; steady.put(b"cd"), Err(Failed));
    assert_eq!(rt; steady.bytes(), b"ab".as_slice());
    let mut failing = MemorySink::new(alloc, 3, vec![in alloc; 1u64]?)?;
    assert_eq!(rt; failing.put(b"a"), Ok(()));
    assert_eq!(rt; failing.put(b"b"), Err(Failed));
    assert_eq!(rt; failing.put(b"c"), Ok(()));
    assert_eq!(rt; failing.bytes(), b"ac".as_slice());
    let mut torn = TornSink::new(alloc, 5, 1, 2)?;
    assert_eq!(rt; torn.put(b"a"), Ok(()));
    assert_eq!(rt; torn.put(b"bcd"), Err(Failed));
    assert_eq!(rt; torn.put(b"ef"), Ok(()));
    assert_eq!(rt; torn.bytes(), b"abcef".as_slice());
    let mut real = RealSink::new(Vec::new(alloc));
    assert_eq!(rt; real.put(b"ab"), Ok(()));
    Ok(())
}

#[test]
fn files_hold_and_fail(rt: HostRuntime) -> Result<(), Fail> {
    let alloc = rt.alloc();
    let mut files = MemoryFiles::new(alloc, vec![in alloc; 2u64]?);
    files.hold(alloc, "a", b"first")?;
    assert!(rt; files.keep(alloc, "a", b"second").is_ok());
    assert_eq!(rt; files.fetch(alloc, "b", 9).err(), Some(FetchError::Missing));
    assert_eq!(rt; files.fetch(alloc, "a", 9).err(), Some(FetchError::Failed));
    assert_eq!(rt; files.fetch(alloc, "a", 5).err(), Some(FetchError::TooLong));
    assert_eq!(rt; files.content("a"), Some(b"second".as_slice()));
    let mut steady = SteadyFiles::new(alloc);
    steady.hold(alloc, "a", b"first")?;
    assert!(rt; steady.keep(alloc, "b", b"second").is_ok());
    assert_eq!(rt;
        steady.fetch(alloc, "c", 9).err(),
        Some(FetchError::Missing)
    );
    let bytes = steady.fetch(alloc, "a", 5).map_err(|_| "steady")?;
    assert_eq!(rt; bytes.as_slice(), b"first".as_slice());
    Ok(())
}

// A file without end is read one byte past the limit, and no further.
#[test]
fn real_files_stop_past_the_limit(rt: HostRuntime) -> Result<(), Fail> {
    let alloc = rt.alloc();
    let mut files = RealFiles::new(&rt);
    assert_eq!(rt;
        files.fetch(alloc, "/dev/zero", 1000).err(),
        Some(FetchError::TooLong)
    );
    assert_eq!(rt;
        files.fetch(alloc, "/no/such/file", 1000).err(),
        Some(FetchError::Missing)
    );
    assert_eq!(rt;
        files.fetch(alloc, "/", 1000).err(),
        Some(FetchError::Failed)
    );
    assert_eq!(rt; files.keep(alloc, "/", b"x").err(), Some(KeepError::Failed));
    assert!(rt; files.keep(alloc, "/dev/null", b"x").is_ok());
    let bytes = files.fetch(alloc, "/dev/null", 1000).map_err(|_| "null")?;
    assert!(rt; bytes.is_empty());
    Ok(())
}
