//! Worked texts.
use crate::faults::{MpsFault, MpsKind, MpsStop};
use crate::reading::read_facts;
use crate::records::{BoundType, Facts};
use bz_num::OutOfMemory;
use std::alloc::{AllocError, Global};
use std::test::Fail;

/// The fault of a text, if it has one.
fn fault_of(alloc: Global, text: &[u8]) -> Result<Option<MpsFault>, OutOfMemory> {
    if text.len() > 1_000_000 {
        return Ok(None);
    }
    match read_facts(alloc, text) {
        Ok(_) => Ok(None),
        Err(MpsStop::Fault(fault)) => Ok(Some(fault)),
        Err(MpsStop::OutOfMemory) => Err(OutOfMemory),
    }
}

/// A text with its fault.
struct Faulty {
    text: &'static [u8],
    line: u32,
    kind: MpsKind,
}

/// Texts with their faults: ONE with one change each, and short ones.
const FAULTY: [Faulty; 30] = [
    Faulty {
        text: b"NAME ONE\nROWS\n N COST\n G LINK\nCOLUMNS\n M1 'MARKER' 'INTORG'\n x COST 2 LINKX 2\n M2 'MARKER' 'INTEND'\n y COST 3 LINK 1\nRHS\n RHS LINK 1\nBOUNDS\n UP BND x 1\nENDATA\n",
        line: 7,
        kind: MpsKind::UnknownRow,
    },
    Faulty {
        text: b"NAME ONE\nROWS\n N COST\n G LINK\nCOLUMNS\n M1 'MARKER' 'INTORG'\n x COST 2 LINK 2\n y COST 3 LINK 1\nRHS\n RHS LINK 1\nBOUNDS\n UP BND x 1\nENDATA\n",
        line: 9,
        kind: MpsKind::MarkerOpen,
    },
    Faulty {
        text: b"NAME ONE\nSOS1\n N COST\n G LINK\nCOLUMNS\n y COST 3 LINK 1\nENDATA\n",
        line: 2,
        kind: MpsKind::SectionOut,
    },
    Faulty {
        text: b"NAME ONE\nROWS\n N COST\n G LINK\nCOLUMNS\n M1 'MARKER' 'INTORG'\n x COST 2 LINK 2\n M2 'MARKER' 'INTEND'\n y COST 3 LINK 1\nRHS\n RHS LINK 1\nBOUNDS\n UP BND x 1\n",
        line: 13,
        kind: MpsKind::NoEnd,
    },
    Faulty {
        text: b"",
        line: 0,
        kind: MpsKind::NoEnd,
    },
    Faulty {
        text: b"OBJSENSE\nOBJSENSE MAX\nROWS\n",
        line: 2,
        kind: MpsKind::Sense,
    },
    Faulty {
        text: b"OBJSENSE\n MAXI\n",
        line: 2,
        kind: MpsKind::Sense,
    },
    Faulty {
        text: b"OBJSENSE MAX\n MAX\n",
        line: 2,
        kind: MpsKind::Section,
    },
    Faulty {
        text: b"COLUMNS\n",
        line: 1,
        kind: MpsKind::Order,
    },
    Faulty {
        text: b"ROWS\n N C\nENDATA\n",
        line: 3,
        kind: MpsKind::Order,
    },
    Faulty {
        text: b"ROWS\n G R\nCOLUMNS\n",
        line: 3,
        kind: MpsKind::NoObjective,
    },
    Faulty {
        text: b"ROWS\n N C\nCOLUMNS\n x C 1\n M 'MARKER' 'INTORG'\n x C 1\n",
        line: 6,
        kind: MpsKind::SplitColumn,
    },
    Faulty {
        text: b"ROWS\n N C\nCOLUMNS\n x C 1\n y C 1\n x UNKNOWN one\n",
        line: 6,
        kind: MpsKind::SplitColumn,
    },
    Faulty {
        text: b"* \x01\nROWS\n N C\x01\n",
        line: 3,
        kind: MpsKind::NotText,
    },
    Faulty {
        text: b" N COST\n",
        line: 1,
        kind: MpsKind::Section,
    },
    Faulty {
        text: b"ROWS\n X R\n",
        line: 2,
        kind: MpsKind::RowKind,
    },
    Faulty {
        text: b"ROWS\n N R\n G R\n",
        line: 3,
        kind: MpsKind::DoubleName,
    },
    Faulty {
        text: b"ROWS\n X R S\n",
        line: 2,
        kind: MpsKind::Fields,
    },
    Faulty {
        text: b"ROWS\n N C\n G R\nCOLUMNS\n x R 1 R 2\n",
        line: 5,
        kind: MpsKind::DoubleEntry,
    },
    Faulty {
        text: b"ROWS\n N C\nCOLUMNS\n x C 1.5.\n",
        line: 4,
        kind: MpsKind::Number,
    },
    Faulty {
        text: b"ROWS\n N C\nCOLUMNS\n x C 1e31\n",
        line: 4,
        kind: MpsKind::TooWide,
    },
    Faulty {
        text: b"ROWS\n N C\nCOLUMNS\n M 'MARKER' 'INTEND'\n",
        line: 4,
        kind: MpsKind::MarkerOpen,
    },
    Faulty {
        text: b"ROWS\n N C\nCOLUMNS\n M 'MARKER' INTORG\n",
        line: 4,
        kind: MpsKind::Marker,
    },
    Faulty {
        text: b"ROWS\n N C\n N D\nCOLUMNS\n x C 1\nRHS\n S D 1\n S D 2\n",
        line: 8,
        kind: MpsKind::DoubleEntry,
    },
    Faulty {
        text: b"ROWS\n N C\n N D\nCOLUMNS\n x C 1\nRANGES\n D 1\n S D 2\n D 2\n",
        line: 9,
        kind: MpsKind::DoubleEntry,
    },
    Faulty {
        text: b"ROWS\n N C\nCOLUMNS\n x C 1\nRHS\n S C 1\n T C 1 C 1 C\n",
        line: 7,
        kind: MpsKind::Fields,
    },
    Faulty {
        text: b"ROWS\n N C\nCOLUMNS\n x C 1\nBOUNDS\n UP S x 1\n XX T\n",
        line: 7,
        kind: MpsKind::BoundKind,
    },
    Faulty {
        text: b"ROWS\n N C\nCOLUMNS\n x C 1\nBOUNDS\n UP S y one\n",
        line: 6,
        kind: MpsKind::UnknownColumn,
    },
    Faulty {
        text: b"ROWS\n N C\nCOLUMNS\n x C 1\nBOUNDS\n UP x 1e20\n UP x -1e20\n",
        line: 7,
        kind: MpsKind::Number,
    },
    Faulty {
        text: b"ROWS\n N C\nCOLUMNS\n x C 1\nBOUNDS\n FR S x 1 2\n",
        line: 6,
        kind: MpsKind::Fields,
    },
];

#[test]
fn faults_are_the_worked_ones(rt: HostRuntime) -> Result<(), Fail> {
    for case in FAULTY.iter() {
        let fault = fault_of(rt.alloc(), case.text)?;
        assert_eq!(rt;
            fault,
            Some(MpsFault {
                line: case.line,
                kind: case.kind
            })
        );
    }
    Ok(())
}

/// Adds a line with a name of three letters, which is that of its number below 17,576.
fn add_line(
    text: &mut Vec<u8>,
    before: &[u8],
    number: usize,
    behind: &[u8],
) -> Result<(), AllocError> {
    text.extend_from_slice(before)?;
    text.push((number / 676 % 26) as u8 + b'a')?;
    text.push((number / 26 % 26) as u8 + b'a')?;
    text.push((number % 26) as u8 + b'a')?;
    text.extend_from_slice(behind)?;
    Ok(())
}

/// A text of so many rows that count.
fn with_rows(alloc: Global, rows: usize) -> Result<Vec<u8>, AllocError> {
    let mut text = Vec::from_slice(alloc, b"ROWS\n N C\n")?;
    for row in 0..rows {
        add_line(&mut text, b" G ", row, b"\n")?;
    }
    Ok(text)
}

/// A text of so many columns.
fn with_columns(alloc: Global, columns: usize) -> Result<Vec<u8>, AllocError> {
    let mut text = Vec::from_slice(alloc, b"ROWS\n N C\nCOLUMNS\n")?;
    for column in 0..columns {
        add_line(&mut text, b" ", column, b" C 1\n")?;
    }
    Ok(text)
}

#[test]
fn limits_are_told(rt: HostRuntime) -> Result<(), Fail> {
    let rows = with_rows(rt.alloc(), 2049)?;
    assert_eq!(rt;
        fault_of(rt.alloc(), rows.as_slice())?,
        Some(MpsFault {
            line: 2051,
            kind: MpsKind::Limit
        })
    );
    let columns = with_columns(rt.alloc(), 2049)?;
    assert_eq!(rt;
        fault_of(rt.alloc(), columns.as_slice())?,
        Some(MpsFault {
            line: 2052,
            kind: MpsKind::Limit
        })
    );
    Ok(())
}

/// How many rows, columns, entries, right sides, ranges and bound lines there are, and the line of ENDATA.
fn counts(facts: &Facts) -> [usize; 7] {
    [
        facts.row_names.len(),
        facts.columns.len(),
        facts.entries.as_slice().len(),
        facts.right_sides.as_slice().len(),
        facts.ranges.as_slice().len(),
        facts.bounds.as_slice().len(),
        facts.end as usize,
    ]
}

/// The counts of a text's facts, if it has any.
fn counts_of(alloc: Global, text: &[u8]) -> Result<Option<[usize; 7]>, OutOfMemory> {
    if text.len() > 1000 {
        return Ok(None);
    }
    match read_facts(alloc, text) {
        Ok(facts) => Ok(Some(counts(&facts))),
        Err(MpsStop::Fault(_)) => Ok(None),
        Err(MpsStop::OutOfMemory) => Err(OutOfMemory),
    }
}

#[test]
fn facts_are_counted(rt: HostRuntime) -> Result<(), Fail> {
    // comments, tabs, empty lines and carriage returns; what follows ENDATA is free
    let free =
        b"* a comment\r\nROWS\r\n\tN\tC\r\n\r\n G R\nCOLUMNS\n x C 1 R 2\n x \t \nENDATA\n\x01\n?\n".as_slice();
    assert_eq!(rt; counts_of(rt.alloc(), free)?, None);
    let free =
        b"* a comment\r\nROWS\r\n\tN\tC\r\n\r\n G R\nCOLUMNS\n x C 1 R 2\nENDATA\n\x01\n?\n".as_slice();
    assert_eq!(rt; counts_of(rt.alloc(), free)?, Some([2, 1, 2, 0, 0, 0, 8]));
    // a right side and ranges of N rows; a set name that is left out is another one
    let further =
        b"ROWS\n N C\n N D\nCOLUMNS\n x D 0\nRHS\n D 1\n T D two\nRANGES\n R D 1 C 2\n C two\nENDATA\n".as_slice();
    assert_eq!(rt;
        counts_of(rt.alloc(), further)?,
        Some([2, 1, 1, 1, 2, 0, 12])
    );
    // FR with four fields, and lines of two other sets
    let bounds =
        b"ROWS\n N C\nCOLUMNS\n x C 0\nBOUNDS\n FR S x 7\n UP T y one\n MI y\nENDATA\n".as_slice();
    assert_eq!(rt; counts_of(rt.alloc(), bounds)?, Some([1, 1, 1, 0, 0, 1, 9]));
    Ok(())
}

#[test]
fn facts_are_those_of_one(rt: HostRuntime) -> Result<(), Fail> {
    let one =
        b"NAME ONE\nOBJSENSE\n MAX\nROWS\n N COST\n G LINK\nCOLUMNS\n M1 'MARKER' 'INTORG'\n x COST 2 LINK -2.50\n M2 'MARKER' 'INTEND'\n y COST 3 LINK 1\nRHS\n RHS LINK 1\nBOUNDS\n UP BND x 1\n UP BND y 1e20\nENDATA\n".as_slice();
    let facts = read_facts(rt.alloc(), one)?;
    assert_eq!(rt; counts(&facts), [2, 2, 4, 1, 0, 2, 17]);
    assert!(rt; facts.maximise);
    assert_eq!(rt; facts.columns.at(1), b"y".as_slice());
    assert_eq!(rt; facts.integers.as_slice(), [true, false].as_slice());
    for entry in facts.entries.as_slice().iter().skip(1).take(1) {
        assert_eq!(rt; (entry.column, entry.row), (0, 1));
        assert_eq!(rt; (entry.number.mant, entry.number.exp), (-25, -1));
    }
    for bound in facts.bounds.as_slice() {
        assert_eq!(rt; bound.kind, BoundType::Up);
        assert_eq!(rt; bound.number.is_some(), bound.column == 0);
    }
    Ok(())
}
