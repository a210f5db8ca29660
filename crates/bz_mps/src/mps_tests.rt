//! Worked texts and their models. What each gives follows from docs/FORMATS.md.
use crate::mps_reading::read_mps;
use bz_facts::{MpsFault, MpsKind, MpsStop};
use bz_model::{Column, Model};
use bz_num::Frac;
use std::alloc::Global;
use std::test::Fail;

/// The model of a short text.
fn read(alloc: Global, text: &[u8]) -> Result<Model, MpsStop> {
    if text.len() > 1000 {
        return Err(MpsStop::OutOfMemory);
    }
    read_mps(alloc, text)
}

/// Texts with one row, and its sides.
const SIDES: [(&[u8], Option<i128>, Option<i128>); 6] = [
    (
        b"ROWS\n N C\n E R\nCOLUMNS\n x R 1\nRHS\n RHS R 4\nRANGES\n RNG R -3\nENDATA\n",
        Some(1),
        Some(4),
    ),
    (
        b"ROWS\n N C\n E R\nCOLUMNS\n x R 1\nRHS\n RHS R 4\nRANGES\n RNG R 0\nENDATA\n",
        Some(4),
        Some(4),
    ),
    (
        b"ROWS\n N C\n E R\nCOLUMNS\n x R 1\nRHS\n RHS R 4\nRANGES\n RNG R 3\nENDATA\n",
        Some(4),
        Some(7),
    ),
    (
        b"ROWS\n N C\n L R\nCOLUMNS\n x R 1\nRHS\n RHS R 1.5\nRANGES\n RNG R -2.25\nENDATA\n",
        Some(-75),
        Some(150),
    ),
    (
        b"ROWS\n N C\n G R\nCOLUMNS\n x R 1\nENDATA\n",
        Some(0),
        None,
    ),
    // The range is wide by itself, and neither side is.
    (
        b"ROWS\n N C\n G R\nCOLUMNS\n x C 1\nRHS\n RHS R -100000001e30\nRANGES\n RNG R 200000003e30\nENDATA\n",
        Some(-100000001000000000000000000000000000000),
        Some(100000002000000000000000000000000000000),
    ),
];

#[test]
fn sides_of_rows(rt: HostRuntime) -> Result<(), Fail> {
    for (at, (text, lower, upper)) in SIDES.into_iter().enumerate() {
        let model = read(rt.alloc(), text).ok().ok_or("it is refused")?;
        let [row] = model.rows.as_slice() else {
            return Err(Fail::from("it has no one row"));
        };
        assert!(rt; row.lower == lower && row.upper == upper, "at {at}");
    }
    Ok(())
}

/// The numerator and denominator of a bound.
fn parts(bound: Option<Frac>) -> Option<(i128, i128)> {
    match bound {
        Some(bound) => Some((bound.num, bound.den)),
        None => None,
    }
}

/// What a column is to be.
#[derive(Drop)]
struct Wanted {
    text: &'static [u8],
    integer: bool,
    lower: Option<(i128, i128)>,
    upper: Option<(i128, i128)>,
}

/// Texts with one column.
const COLUMNS: [Wanted; 6] = [
    Wanted {
        text: b"ROWS\n N C\nCOLUMNS\n M 'MARKER' 'INTORG'\n x C 1\n M 'MARKER' 'INTEND'\nENDATA\n",
        integer: true,
        lower: Some((0, 1)),
        upper: Some((1, 1)),
    },
    Wanted {
        text: b"ROWS\n N C\nCOLUMNS\n M 'MARKER' 'INTORG'\n x C 1\n M 'MARKER' 'INTEND'\nBOUNDS\n UP BND x 5\nENDATA\n",
        integer: true,
        lower: Some((0, 1)),
        upper: Some((5, 1)),
    },
    Wanted {
        text: b"ROWS\n N C\nCOLUMNS\n x C 1\nBOUNDS\n UP BND x 3\n UP BND x 1e20\nENDATA\n",
        integer: false,
        lower: Some((0, 1)),
        upper: None,
    },
    Wanted {
        text: b"ROWS\n N C\nCOLUMNS\n x C 1\nBOUNDS\n LO BND x -2.5\n UP BND x -1\nENDATA\n",
        integer: false,
        lower: Some((-5, 2)),
        upper: Some((-1, 1)),
    },
    Wanted {
        text: b"ROWS\n N C\nCOLUMNS\n x C 1\nBOUNDS\n LI BND x 1e-30\n UI BND x 12e18\nENDATA\n",
        integer: true,
        lower: Some((1, 1000000000000000000000000000000)),
        upper: Some((12000000000000000000, 1)),
    },
    Wanted {
        text: b"ROWS\n N C\nCOLUMNS\n x C 1\nBOUNDS\n FX BND x 7\n MI BND x\n UP ANOTHER x 1\nENDATA\n",
        integer: false,
        lower: None,
        upper: Some((7, 1)),
    },
];

#[test]
fn bounds_of_columns(rt: HostRuntime) -> Result<(), Fail> {
    for (at, wanted) in COLUMNS.into_iter().enumerate() {
        let model = read(rt.alloc(), wanted.text).ok().ok_or("it is refused")?;
        let [column] = model.columns.as_slice() else {
            return Err(Fail::from("it has no one column"));
        };
        let Column {
            integer,
            lower,
            upper,
            ..
        } = column;
        assert!(rt; *integer == wanted.integer, "at {at}");
        assert!(rt;
            parts(*lower) == wanted.lower && parts(*upper) == wanted.upper,
            "at {at}"
        );
    }
    Ok(())
}

/// Texts that fail an end test, with the line and the kind of the fault.
const FAULTY: [(&[u8], u32, MpsKind); 6] = [
    (
        b"ROWS\n N C\nCOLUMNS\n x C 1\nBOUNDS\n UP BND x -1\nENDATA\n",
        6,
        MpsKind::NegativeUpper,
    ),
    (
        b"ROWS\n N C\nCOLUMNS\n x C 1\nBOUNDS\n UP BND x -1\n PL BND x\n UP BND x -2\nENDATA\n",
        8,
        MpsKind::NegativeUpper,
    ),
    (
        b"ROWS\n N C\nCOLUMNS\n x C 1\nBOUNDS\n LO BND x 3\n UP BND x 2\nENDATA\n",
        7,
        MpsKind::Crossed,
    ),
    // The first column is tested before the second, whose line stands first.
    (
        b"ROWS\n N C\nCOLUMNS\n x C 1\n y C 1\nBOUNDS\n UP BND y -1\n LO BND x 1\n UP BND x 0.999\nENDATA\n",
        9,
        MpsKind::Crossed,
    ),
    (
        b"ROWS\n N C\nCOLUMNS\n x C 1e30\n y C 0.000000001\nENDATA\n",
        6,
        MpsKind::TooWide,
    ),
    (
        b"ROWS\n N C\n G R\nCOLUMNS\n x C 1\nRHS\n RHS R 100000001e30\nRANGES\n RNG R 100000001e30\nENDATA\n",
        10,
        MpsKind::TooWide,
    ),
];

#[test]
fn end_tests_fail(rt: HostRuntime) {
    for (at, (text, line, kind)) in FAULTY.into_iter().enumerate() {
        let stop = read(rt.alloc(), text).err();
        assert!(rt;
            stop == Some(MpsStop::Fault(MpsFault { line, kind })),
            "at {at}"
        );
    }
}

#[test]
fn the_objective_is_scaled(rt: HostRuntime) -> Result<(), Fail> {
    let text =
        b"OBJSENSE MAX\nROWS\n N COST\n N SPARE\nCOLUMNS\n x COST 0.1 SPARE 0.001\n y COST 0.2\n z COST 0\nRHS\n RHS COST 3\nENDATA\n";
    let model = read(rt.alloc(), text).ok().ok_or("it is refused")?;
    assert_eq!(rt; model.cost.as_slice(), [(0, 1), (1, 2)].as_slice());
    assert_eq!(rt; (model.constant, model.scale), (-30, 10));
    assert_eq!(rt; model.objective.as_slice(), b"COST".as_slice());
    assert!(rt; model.maximise && model.rows.as_slice().len() == 0);
    Ok(())
}
