//! Worked lines and names.
use crate::names::Names;
use crate::reader::{Line, LineFault, Lines};
use std::alloc::{AllocError, Global};
use std::test::Fail;

/// A line as text: its number's last digit, `H` or `D`, and each field behind a bar.
fn show(shown: &mut Vec<u8>, line: &Line) -> Result<(), AllocError> {
    shown.push(b'0' + (line.number % 10) as u8)?;
    shown.push(if line.header { b'H' } else { b'D' })?;
    for field in line.fields.as_slice() {
        shown.push(b'|')?;
        shown.extend_from_slice(*field)?;
    }
    shown.push(b';')?;
    Ok(())
}

/// The lines of a text as text. A refused line is its number and `!`, and the count of all lines stands last.
fn lines_of(alloc: Global, text: &[u8]) -> Result<Vec<u8>, AllocError> {
    let mut shown = Vec::new(alloc);
    if text.len() > 100 {
        return Ok(shown);
    }
    let mut lines = Lines::new(text);
    for _ in 0..9 {
        match lines.next(alloc) {
            Ok(Some(line)) => show(&mut shown, &line)?,
            Ok(None) => break,
            Err(LineFault::NotText { line }) => {
                shown.push(b'0' + (line % 10) as u8)?;
                shown.push(b'!')?;
            }
            Err(LineFault::OutOfMemory) => {
                shown.push(b'm')?;
                break;
            }
        }
    }
    shown.push(b'0' + (lines.number() % 10) as u8)?;
    Ok(shown)
}

#[test]
fn reads_worked_lines(rt: HostRuntime) -> Result<(), Fail> {
    for (text, lines) in [
        (b"".as_slice(), b"0".as_slice()),
        (b"NAME X\n  a\tb \r\n", b"1H|NAME|X;2D|a|b;2"),
        (b"* any \x01 byte\n\n \t \r\n x", b"4D|x;4"),
        (b" *x\n*x\n", b"1D|*x;2"),
        (b"a\r", b"1!1"),
        (b"a\r\r\nb", b"1!2H|b;2"),
        (b"\x1f\n\n", b"1!2"),
        (b"\r\n", b"1"),
        (b"\x7f\xff a", b"1H|\x7f\xff|a;1"),
        (b"1 2 3 4 5 6 7 8 9 10", b"1H|1|2|3|4|5|6|7|8|9|10;1"),
    ] {
        let shown = lines_of(rt.alloc(), text)?;
        assert_eq!(rt; shown.as_slice(), lines);
    }
    Ok(())
}

#[test]
fn keeps_each_name_once(rt: HostRuntime) -> Result<(), Fail> {
    let mut names = Names::new(rt.alloc());
    for (name, place, new) in [
        (b"x".as_slice(), 0, true),
        (b"xy", 1, true),
        (b"x", 0, false),
        (b"X", 2, true),
        (b"\xff", 3, true),
        (b"xy", 1, false),
    ] {
        let added = names.add(name)?;
        assert_eq!(rt; added.place, place);
        assert_eq!(rt; added.new, new);
        assert_eq!(rt; names.find(name), Some(place));
    }
    assert_eq!(rt; names.len(), 4);
    assert_eq!(rt; names.find(b"y"), None);
    assert_eq!(rt; names.at(1), b"xy".as_slice());
    assert_eq!(rt; names.at(4), b"".as_slice());
    Ok(())
}

/// More names than are found by their hash, each of two bytes, and then all of them again.
#[test]
fn finds_names_past_those_with_a_hash(rt: HostRuntime) -> Result<(), Fail> {
    let texts: Vec<[u8; 2]> = two_bytes(rt.alloc())?;
    let mut names = Names::new(rt.alloc());
    for turn in 0..2 {
        for (place, text) in texts.iter().enumerate() {
            let added = names.add(text.as_slice())?;
            assert_eq!(rt; added.place, place);
            assert_eq!(rt; added.new, turn == 0);
        }
    }
    assert_eq!(rt; names.len(), 5000);
    assert_eq!(rt; names.at(4999), b"\x13\x87".as_slice());
    assert_eq!(rt; names.find(b"\x10\x00"), Some(4096));
    assert_eq!(rt; names.find(b"\x13\x88"), None);
    Ok(())
}

/// The numbers below 5,000, each as two bytes, the higher first.
fn two_bytes(alloc: Global) -> Result<Vec<[u8; 2]>, AllocError> {
    let mut texts = Vec::new(alloc);
    for number in 0..5000u16 {
        texts.push(number.to_be_bytes())?;
    }
    Ok(texts)
}
