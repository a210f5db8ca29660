//! Texts put into a sink in memory that takes seven bytes at a time.
use super::*;
use crate::pieces::Piece::{Count, Number, Text};
use bz_io::{MemSink, PutFailed};
use std::alloc::Global;
use std::test::Fail;

/// The greatest number of a fraction.
const LARGEST: i128 = 170141183460469231731687303715884105727;

fn sink(alloc: Global) -> MemSink {
    MemSink::new(alloc, 7, Vec::new(alloc))
}

#[test]
fn whole_numbers_have_their_sign_and_digits(rt: HostRuntime) -> Result<(), Fail> {
    for (piece, want) in [
        (Number(0), "0"),
        (Number(1), "1"),
        (Number(-1), "-1"),
        (Number(LARGEST), "170141183460469231731687303715884105727"),
        (Number(-LARGEST), "-170141183460469231731687303715884105727"),
        (Count(0), "0"),
        (Count(usize::MAX), "18446744073709551615"),
    ] {
        let mut out = sink(rt.alloc());
        put_pieces(&mut out, &[piece])?;
        assert_eq!(rt; out.taken(), want.as_bytes());
    }
    Ok(())
}

#[test]
fn fractions_have_a_denominator_above_1(rt: HostRuntime) -> Result<(), Fail> {
    for (num, den, want) in [
        (0, 1, "value 0\n"),
        (-1, 1, "value -1\n"),
        (1, 2, "value 1/2\n"),
        (-3, 2, "value -3/2\n"),
        (
            1,
            LARGEST,
            "value 1/170141183460469231731687303715884105727\n",
        ),
        (
            -LARGEST,
            1,
            "value -170141183460469231731687303715884105727\n",
        ),
    ] {
        let mut out = sink(rt.alloc());
        put_fraction(&mut out, b"value", num, den)?;
        assert_eq!(rt; out.taken(), want.as_bytes());
    }
    Ok(())
}

#[test]
fn lines_have_a_blank_before_each_number(rt: HostRuntime) -> Result<(), Fail> {
    let mut out = sink(rt.alloc());
    put_line(&mut out, b"split: integer open ", b"x")?;
    put_numbered(&mut out, b"certificate: ", b"Cut", 0)?;
    put_numbered_twice(&mut out, b"split: joins ", b"ROW", 1, u32::MAX)?;
    assert_eq!(rt;
        out.taken(),
        b"split: integer open x\ncertificate: Cut 0\nsplit: joins ROW 1 4294967295\n".as_slice()
    );
    Ok(())
}

#[test]
fn nothing_is_put_after_a_failed_piece(rt: HostRuntime) -> Result<(), Fail> {
    let alloc = rt.alloc();
    let mut out = MemSink::new(alloc, 7, vec![in alloc; 2u64]?);
    let put = put_pieces(
        &mut out,
        &[Text(b"best "), Number(-2), Text(b"/"), Number(3)],
    );
    assert!(rt; put == Err(PutFailed));
    assert_eq!(rt; out.taken(), b"best -2".as_slice());
    Ok(())
}
