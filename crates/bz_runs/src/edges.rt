//! Texts at the edges of what is read, with what the program prints of them.
use crate::checks::{CERT, Case, FIRST, MODEL, PART, ends};
use bz_top::Status;
use std::alloc::{AllocError, Global};
use std::test::Fail;

const HOLDS: &str = "certificate holds: optimal 1\n";

/// A text of the smallest check with other lines in the place of some, and how the check ends.
#[derive(Clone, Copy)]
struct Edge {
    old: &'static str,
    new: &'static str,
    status: Status,
    text: &'static str,
}

/// Models.
const MODEL_EDGES: [Edge; 33] = [
    // the last line feed is missing
    Edge {
        old: "ENDATA\n",
        new: "ENDATA",
        status: Status::Done,
        text: HOLDS,
    },
    // NAME is missing
    Edge {
        old: "NAME ONE\n",
        new: "",
        status: Status::Done,
        text: HOLDS,
    },
    // lines behind ENDATA are free
    Edge {
        old: "ENDATA\n",
        new: "ENDATA\n* \u{1} +1\nROWS\n",
        status: Status::Done,
        text: HOLDS,
    },
    // blank lines, tabs and carriage returns before line feeds
    Edge {
        old: " N COST\n",
        new: "\tN\tCOST\r\n\n  \t\r\n",
        status: Status::Done,
        text: HOLDS,
    },
    // a comment
    Edge {
        old: "NAME ONE\n",
        new: "* first \u{1}\nNAME ONE\n",
        status: Status::Done,
        text: HOLDS,
    },
    // the sense that holds without one
    Edge {
        old: "ROWS\n",
        new: "OBJSENSE\n MIN\nROWS\n",
        status: Status::Done,
        text: HOLDS,
    },
    // a right side of another set is tested for its fields alone
    Edge {
        old: " RHS LINK 1\n",
        new: " RHS LINK 1\n OTHER none +1\n",
        status: Status::Done,
        text: HOLDS,
    },
    // a bound of another set is tested for its kind and fields alone
    Edge {
        old: " UP BND x 1\n",
        new: " UP BND x 1\n UP OTHER none +1\n",
        status: Status::Done,
        text: HOLDS,
    },
    // a decimal with a sign, a point and an exponent
    Edge {
        old: " RHS LINK 1\n",
        new: " RHS LINK +0.10E+1\n",
        status: Status::Done,
        text: HOLDS,
    },
    // a set name that is left out
    Edge {
        old: " RHS LINK 1\n",
        new: " LINK 1\n",
        status: Status::Done,
        text: HOLDS,
    },
    // a bound that says what holds without it
    Edge {
        old: " UP BND x 1\n",
        new: " UP BND x 1\n LO BND x 0\n",
        status: Status::Done,
        text: HOLDS,
    },
    // a header that no section has
    Edge {
        old: "BOUNDS\n",
        new: "BOUND\n",
        status: Status::Model,
        text: "model line 12: 1 Section\n",
    },
    // RHS comes twice
    Edge {
        old: "BOUNDS\n",
        new: "RHS\nBOUNDS\n",
        status: Status::Model,
        text: "model line 12: 2 Order\n",
    },
    // no objective
    Edge {
        old: " N COST\n",
        new: "",
        status: Status::Model,
        text: "model line 4: 3 NoObjective\n",
    },
    // a row of another kind
    Edge {
        old: " G LINK\n",
        new: " Q LINK\n",
        status: Status::Model,
        text: "model line 4: 4 RowKind\n",
    },
    // a row that comes twice
    Edge {
        old: " G LINK\n",
        new: " G LINK\n G LINK\n",
        status: Status::Model,
        text: "model line 5: 5 DoubleName\n",
    },
    // a row that isn't there
    Edge {
        old: " RHS LINK 1\n",
        new: " RHS NONE 1\n",
        status: Status::Model,
        text: "model line 11: 6 UnknownRow\n",
    },
    // a column that isn't there
    Edge {
        old: " UP BND x 1\n",
        new: " UP BND z 1\n",
        status: Status::Model,
        text: "model line 13: 7 UnknownColumn\n",
    },
    // an entry that comes twice
    Edge {
        old: " x COST 1 LINK 1\n",
        new: " x COST 1 LINK 1\n x LINK 1\n",
        status: Status::Model,
        text: "model line 8: 8 DoubleEntry\n",
    },
    // an exponent without digits
    Edge {
        old: " RHS LINK 1\n",
        new: " RHS LINK 1e\n",
        status: Status::Model,
        text: "model line 11: 9 Number\n",
    },
    // an exponent above 30
    Edge {
        old: " RHS LINK 1\n",
        new: " RHS LINK 1e31\n",
        status: Status::Model,
        text: "model line 11: 10 TooWide\n",
    },
    // a header with a word more
    Edge {
        old: "BOUNDS\n",
        new: "BOUNDS BND\n",
        status: Status::Model,
        text: "model line 12: 11 Fields\n",
    },
    // a marker of another kind
    Edge {
        old: " M1 'MARKER' 'INTORG'\n",
        new: " M1 'MARKER' 'INTO'\n",
        status: Status::Model,
        text: "model line 6: 12 Marker\n",
    },
    // a marker that stays open
    Edge {
        old: " M2 'MARKER' 'INTEND'\n",
        new: "",
        status: Status::Model,
        text: "model line 9: 13 MarkerOpen\n",
    },
    // a bound of another kind
    Edge {
        old: " UP BND x 1\n",
        new: " XX BND x 1\n",
        status: Status::Model,
        text: "model line 13: 14 BoundKind\n",
    },
    // a negative upper bound
    Edge {
        old: " UP BND x 1\n",
        new: " UP BND x -1\n",
        status: Status::Model,
        text: "model line 13: 15 NegativeUpper\n",
    },
    // a lower bound above the upper
    Edge {
        old: " UP BND x 1\n",
        new: " UP BND x 1\n LO BND x 2\n",
        status: Status::Model,
        text: "model line 14: 16 Crossed\n",
    },
    // ENDATA is missing
    Edge {
        old: "ENDATA\n",
        new: "",
        status: Status::Model,
        text: "model line 13: 17 NoEnd\n",
    },
    // a carriage return at the end of the text
    Edge {
        old: "ENDATA\n",
        new: "ENDATA\r",
        status: Status::Model,
        text: "model line 14: 18 NotText\n",
    },
    // another sense
    Edge {
        old: "ROWS\n",
        new: "OBJSENSE MOST\nROWS\n",
        status: Status::Model,
        text: "model line 2: 20 Sense\n",
    },
    // a column that comes again behind a marker
    Edge {
        old: " M2 'MARKER' 'INTEND'\n",
        new: " M2 'MARKER' 'INTEND'\n x LINK 2\n",
        status: Status::Model,
        text: "model line 9: 21 SplitColumn\n",
    },
    // a section that isn't read
    Edge {
        old: "BOUNDS\n",
        new: "SOS\n",
        status: Status::Model,
        text: "model line 12: 22 SectionOut\n",
    },
    // a number of 18 digits, which no point meets
    Edge {
        old: " RHS LINK 1\n",
        new: " RHS LINK 999999999999999999\n",
        status: Status::Cert,
        text: "certificate: Point 1 0\n",
    },
];

/// Partitions.
const PART_EDGES: [Edge; 15] = [
    // the last line feed is missing
    Edge {
        old: "x 0\n",
        new: "x 0",
        status: Status::Done,
        text: HOLDS,
    },
    // blanks, tabs, a blank line and carriage returns
    Edge {
        old: "cpxBendersPartition 1\nx 0\n",
        new: "\n\t cpxBendersPartition\t1\r\n\n x  0\r\n",
        status: Status::Done,
        text: HOLDS,
    },
    // a comment
    Edge {
        old: "x 0\n",
        new: "* first\nx 0\n",
        status: Status::Done,
        text: HOLDS,
    },
    // a column that is named with the number of the first line
    Edge {
        old: "x 0\n",
        new: "x 0\ny 1\n",
        status: Status::Done,
        text: HOLDS,
    },
    // no text
    Edge {
        old: "cpxBendersPartition 1\nx 0\n",
        new: "",
        status: Status::Part,
        text: "partition line 0: 1 Head\n",
    },
    // a field more in the first line
    Edge {
        old: "Partition 1\n",
        new: "Partition 1 1\n",
        status: Status::Part,
        text: "partition line 1: 1 Head\n",
    },
    // a field more in a line
    Edge {
        old: "x 0\n",
        new: "x 0 0\n",
        status: Status::Part,
        text: "partition line 2: 2 Fields\n",
    },
    // a column that isn't there
    Edge {
        old: "x 0\n",
        new: "x 0\nz 0\n",
        status: Status::Part,
        text: "partition line 3: 3 Unknown\n",
    },
    // a name that comes twice
    Edge {
        old: "x 0\n",
        new: "x 0\nx 0\n",
        status: Status::Part,
        text: "partition line 3: 4 Double\n",
    },
    // a zero in front of a number
    Edge {
        old: "x 0\n",
        new: "x 00\n",
        status: Status::Part,
        text: "partition line 2: 5 Value\n",
    },
    // a block above 256
    Edge {
        old: "x 0\n",
        new: "x 257\n",
        status: Status::Part,
        text: "partition line 2: 6 Limit\n",
    },
    // a block without columns
    Edge {
        old: "Partition 1\n",
        new: "Partition 2\n",
        status: Status::Part,
        text: "partition line 0: 7 Gap\n",
    },
    // a byte that no text has
    Edge {
        old: "x 0\n",
        new: "x 0\u{1}\n",
        status: Status::Part,
        text: "partition line 2: 8 NotText\n",
    },
    // an integer column in the block
    Edge {
        old: "x 0\n",
        new: "",
        status: Status::Part,
        text: "split: integer in block x 1\n",
    },
    // no column in the block
    Edge {
        old: "x 0\n",
        new: "x 0\ny 0\n",
        status: Status::Part,
        text: "split: open master y\n",
    },
];

/// Certificates.
const CERT_EDGES: [Edge; 21] = [
    // the last line feed is missing
    Edge {
        old: "end\n",
        new: "end",
        status: Status::Cert,
        text: "certificate line 10: 7 End\n",
    },
    // a line behind the end
    Edge {
        old: "end\n",
        new: "end\n\n",
        status: Status::Cert,
        text: "certificate line 11: 7 End\n",
    },
    // a sign in front of a number
    Edge {
        old: "value 1\n",
        new: "value +1\n",
        status: Status::Cert,
        text: "certificate line 6: 4 Number\n",
    },
    // a zero in front of a number
    Edge {
        old: "value 1\n",
        new: "value 01\n",
        status: Status::Cert,
        text: "certificate line 6: 4 Number\n",
    },
    // a zero with a sign
    Edge {
        old: "eta 0\n",
        new: "eta -0\n",
        status: Status::Cert,
        text: "certificate line 4: 4 Number\n",
    },
    // a number of 19 digits, which is not the point's
    Edge {
        old: "value 1\n",
        new: "value 1000000000000000000\n",
        status: Status::Cert,
        text: "certificate: Value\n",
    },
    // a tab between fields
    Edge {
        old: "value 1\n",
        new: "value\t1\n",
        status: Status::Cert,
        text: "certificate line 6: 3 Line\n",
    },
    // a carriage return before a line feed
    Edge {
        old: "value 1\n",
        new: "value 1\r\n",
        status: Status::Cert,
        text: "certificate line 6: 4 Number\n",
    },
    // eta comes twice
    Edge {
        old: "eta 0\n",
        new: "eta 0\neta 0\n",
        status: Status::Cert,
        text: "certificate line 5: 3 Line\n",
    },
    // another verdict
    Edge {
        old: "verdict optimal\n",
        new: "verdict infeasible\n",
        status: Status::Cert,
        text: "certificate line 3: 3 Line\n",
    },
    // a list whose indexes do not rise
    Edge {
        old: "leaf 1 1 2 0 1 2 1\n",
        new: "leaf 1 1 2 2 1 0 1\n",
        status: Status::Cert,
        text: "certificate line 9: 5 Order\n",
    },
    // a list with a zero
    Edge {
        old: "leaf 1 1 2 0 1 2 1\n",
        new: "leaf 1 1 3 0 1 1 0 2 1\n",
        status: Status::Cert,
        text: "certificate line 9: 5 Order\n",
    },
    // a block that is numbered 2
    Edge {
        old: "block 1 1 0\n",
        new: "block 2 1 0\n",
        status: Status::Cert,
        text: "certificate line 5: 5 Order\n",
    },
    // one cut fewer than told
    Edge {
        old: "cuts 1\n",
        new: "cuts 2\n",
        status: Status::Cert,
        text: "certificate line 9: 3 Line\n",
    },
    // a cut of block 2, which no leaf uses
    Edge {
        old: "cuts 1\ncut 1 1 -2 1 1 0 -2 1 0 2\n",
        new: "cuts 2\ncut 1 1 -2 1 1 0 -2 1 0 2\ncut 2 0 0 1 0 0\n",
        status: Status::Cert,
        text: "certificate: Cut 1\n",
    },
    // a cut whose right side is too small, with the leaf that would follow
    Edge {
        old: "cut 1 1 -2 1 1 0 -2 1 0 2\nleaf 1 1 2 0 1 2 1\n",
        new: "cut 1 1 -3 1 1 0 -2 1 0 2\nleaf 1 2 2 0 1 2 1\n",
        status: Status::Cert,
        text: "certificate: Cut 0\n",
    },
    // a leaf with a multiplier of a side that isn't there
    Edge {
        old: "leaf 1 1 2 0 1 2 1\n",
        new: "leaf 1 1 3 0 1 2 1 3 1\n",
        status: Status::Cert,
        text: "certificate: Leaf 0\n",
    },
    // a leaf with a bound that its sides don't give
    Edge {
        old: "leaf 1 1 2 0 1 2 1\n",
        new: "leaf 1 1 2 0 1 2 2\n",
        status: Status::Cert,
        text: "certificate: Leaf 0\n",
    },
    // a value that isn't the point's
    Edge {
        old: "value 1\n",
        new: "value 0\n",
        status: Status::Cert,
        text: "certificate: Value\n",
    },
    // a point that misses the row
    Edge {
        old: "master 1 1\neta 0\nblock 1 1 0\nvalue 1\n",
        new: "master 1 0\neta 0\nblock 1 1 0\nvalue 0\n",
        status: Status::Cert,
        text: "certificate: Point 1 0\n",
    },
    // a point with a number more
    Edge {
        old: "master 1 1\n",
        new: "master 1 1 1\n",
        status: Status::Cert,
        text: "certificate: Shape\n",
    },
];

/// In the row LINK the sum of the point below is -(2^127 - 1): the row takes x = 1000/1000 170141183460469231 times, y 1000000000 times
/// and z once, and the numbers of y and z stand over 1000 * 999999999999999999.
const WIDE_MODEL: &str =
    "ROWS\n N COST\n G LINK\nCOLUMNS\n M1 'MARKER' 'INTORG'\n x COST -1 LINK 170141183460469231\n M2 'MARKER' 'INTEND'\n y LINK 1000000000\n z LINK 1\nRHS\n RHS LINK 1\nENDATA\n";

const WIDEST: &str =
    "bzcert 1\nverdict optimal\nmaster 1000 1000\neta 0\nblock 1 999999999999999999 901828487176 353336727\nvalue -1000\ncuts 1\ncut 1 1 0 1 0 0\nleaf 1 -1 2 0 1 2 1\nend\n";

const TOO_WIDE: &str =
    "bzcert 1\nverdict optimal\nmaster 1000 1000\neta 0\nblock 1 999999999999999999 901828487176 353336728\nvalue -1000\ncuts 1\ncut 1 1 0 1 0 0\nleaf 1 -1 2 0 1 2 1\nend\n";

/// A model in which y costs 1, and a certificate of its half point: of all tests only that x is whole refuses it.
const HALF_MODEL: &str =
    "ROWS\n N COST\n G LINK\nCOLUMNS\n M1 'MARKER' 'INTORG'\n x COST 1 LINK 1\n M2 'MARKER' 'INTEND'\n y COST 1 LINK 1\nRHS\n RHS LINK 1\nENDATA\n";

const HALF: &str =
    "bzcert 1\nverdict optimal\nmaster 2 1\neta 1\nblock 1 1 1\nvalue 2\ncuts 1\ncut 1 1 -1 1 1 0 -1 1 0 1\nleaf 1 1 1 2 1\nend\n";

/// The text with the new lines in the place of the old ones.
fn changed(alloc: Global, text: &str, edge: &Edge) -> Result<String, AllocError> {
    text.replace(alloc, edge.old, edge.new)
}

#[test]
fn models_end_as_their_texts_say(rt: HostRuntime) -> Result<(), Fail> {
    for edge in MODEL_EDGES {
        assert!(rt; MODEL.contains(edge.old), "no {}", edge.old);
        let text = changed(rt.alloc(), MODEL, &edge)?;
        let model = text.as_str();
        let (ended, printed) = ends(
            rt.alloc(),
            &["check", "m", "p", "c"],
            &Case { model, ..FIRST },
        )?;
        assert_eq!(rt; ended, edge.status);
        assert_eq!(rt; printed.as_slice(), edge.text.as_bytes());
    }
    Ok(())
}

#[test]
fn partitions_end_as_their_texts_say(rt: HostRuntime) -> Result<(), Fail> {
    for edge in PART_EDGES {
        assert!(rt; PART.contains(edge.old), "no {}", edge.old);
        let text = changed(rt.alloc(), PART, &edge)?;
        let part = text.as_str();
        let (ended, printed) = ends(
            rt.alloc(),
            &["check", "m", "p", "c"],
            &Case { part, ..FIRST },
        )?;
        assert_eq!(rt; ended, edge.status);
        assert_eq!(rt; printed.as_slice(), edge.text.as_bytes());
    }
    Ok(())
}

#[test]
fn certificates_end_as_their_texts_say(rt: HostRuntime) -> Result<(), Fail> {
    for edge in CERT_EDGES {
        assert!(rt; CERT.contains(edge.old), "no {}", edge.old);
        let text = changed(rt.alloc(), CERT, &edge)?;
        let cert = text.as_str();
        let (ended, printed) = ends(
            rt.alloc(),
            &["check", "m", "p", "c"],
            &Case { cert, ..FIRST },
        )?;
        assert_eq!(rt; ended, edge.status);
        assert_eq!(rt; printed.as_slice(), edge.text.as_bytes());
    }
    Ok(())
}

#[test]
fn takes_a_sum_at_the_limit_and_none_above(rt: HostRuntime) -> Result<(), Fail> {
    let all: [(&str, &str, Status, &[u8]); 3] = [
        (
            WIDE_MODEL,
            WIDEST,
            Status::Done,
            b"certificate holds: optimal -1\n",
        ),
        (
            WIDE_MODEL,
            TOO_WIDE,
            Status::Cert,
            b"certificate: Wide 5 0\n",
        ),
        (HALF_MODEL, HALF, Status::Cert, b"certificate: Point 0 0\n"),
    ];
    for (model, cert, status, text) in all {
        let case = Case {
            model,
            cert,
            ..FIRST
        };
        let (ended, printed) = ends(rt.alloc(), &["check", "m", "p", "c"], &case)?;
        assert_eq!(rt; ended, status);
        assert_eq!(rt; printed.as_slice(), text);
    }
    Ok(())
}

#[test]
fn takes_a_file_at_its_limit_and_none_above(rt: HostRuntime) -> Result<(), Fail> {
    let limit: usize = 16 * 1024 * 1024;
    let alloc = rt.alloc();
    let mut full = String::from_str(alloc, MODEL)?;
    full.push_str("x".repeat(alloc, limit - MODEL.len())?.as_str())?;
    let long = "x".repeat(alloc, limit + 1)?;
    let all: [(&str, &str, Status, &[u8]); 3] = [
        (
            full.as_str(),
            PART,
            Status::Done,
            b"certificate holds: optimal 1\n",
        ),
        (long.as_str(), PART, Status::TooLong, b"too long: m\n"),
        (MODEL, long.as_str(), Status::TooLong, b"too long: p\n"),
    ];
    for (model, part, status, text) in all {
        let case = Case {
            model,
            part,
            ..FIRST
        };
        let (ended, printed) = ends(alloc, &["check", "m", "p", "c"], &case)?;
        assert_eq!(rt; ended, status);
        assert_eq!(rt; printed.as_slice(), text);
    }
    Ok(())
}

#[test]
fn refuses_a_certificate_that_is_too_long(rt: HostRuntime) -> Result<(), Fail> {
    let long = "x".repeat(rt.alloc(), 64 * 1024 * 1024 + 1)?;
    let case = Case {
        cert: long.as_str(),
        ..FIRST
    };
    let (ended, printed) = ends(rt.alloc(), &["check", "m", "p", "c"], &case)?;
    assert_eq!(rt; ended, Status::TooLong);
    assert_eq!(rt; printed.as_slice(), b"too long: c\n".as_slice());
    let none = Case {
        model: "",
        part: "",
        ..FIRST
    };
    let (ended, printed) = ends(rt.alloc(), &["check", "m", "p", "c"], &none)?;
    assert_eq!(rt; ended, Status::Model);
    assert_eq!(rt; printed.as_slice(), b"model line 0: 17 NoEnd\n".as_slice());
    Ok(())
}
