//! The words `split m p` over whole texts: the parts that are printed, and why there are none.
use crate::checks::{Case, FIRST, PART, ends};
use bz_top::Status;
use std::alloc::{AllocError, Global};
use std::test::Fail;

/// Three facilities that may be opened for four customers: the master has the choice, and each block a customer.
const FACILITIES: &str =
    "NAME MODEL\nROWS\n N COST\n E DEMAND1\n E DEMAND2\n E DEMAND3\n E DEMAND4\n L L1_1\n L L2_1\n L L3_1\n L L1_2\n L L2_2\n L L3_2\n L L1_3\n L L2_3\n L L3_3\n L L1_4\n L L2_4\n L L3_4\nCOLUMNS\n MARKER 'MARKER' 'INTORG'\n x1 COST 1e1\n x1 L1_1 -1\n x1 L1_2 -1\n x1 L1_3 -1\n x1 L1_4 -1\n x2 COST 12\n x2 L2_1 -1\n x2 L2_2 -1\n x2 L2_3 -1\n x2 L2_4 -1\n x3 COST 8\n x3 L3_1 -1\n x3 L3_2 -1\n x3 L3_3 -1\n x3 L3_4 -1\n MARKER 'MARKER' 'INTEND'\n y1_1 COST 2\n y1_1 DEMAND1 1\n y1_1 L1_1 1\n y2_1 COST 5\n y2_1 DEMAND1 1\n y2_1 L2_1 1\n y3_1 COST 6\n y3_1 DEMAND1 1\n y3_1 L3_1 1\n y1_2 COST 4\n y1_2 DEMAND2 1\n y1_2 L1_2 1\n y2_2 COST 1\n y2_2 DEMAND2 1\n y2_2 L2_2 1\n y3_2 COST 7\n y3_2 DEMAND2 1\n y3_2 L3_2 1\n y1_3 COST 6\n y1_3 DEMAND3 1\n y1_3 L1_3 1\n y2_3 COST 3\n y2_3 DEMAND3 1\n y2_3 L2_3 1\n y3_3 COST 2\n y3_3 DEMAND3 1\n y3_3 L3_3 1\n y1_4 COST 3\n y1_4 DEMAND4 1\n y1_4 L1_4 1\n y2_4 COST 6\n y2_4 DEMAND4 1\n y2_4 L2_4 1\n y3_4 COST 2\n y3_4 DEMAND4 1\n y3_4 L3_4 1\nRHS\n RHS DEMAND1 1\n RHS DEMAND2 1\n RHS DEMAND3 1\n RHS DEMAND4 1\nRANGES\nBOUNDS\n LO BND x1 0\n UP BND x1 1\n LO BND x2 0\n UP BND x2 1\n LO BND x3 0\n UP BND x3 1\n LO BND y1_1 0\n PL BND y1_1\n LO BND y2_1 0\n PL BND y2_1\n LO BND y3_1 0\n PL BND y3_1\n LO BND y1_2 0\n PL BND y1_2\n LO BND y2_2 0\n PL BND y2_2\n LO BND y3_2 0\n PL BND y3_2\n LO BND y1_3 0\n PL BND y1_3\n LO BND y2_3 0\n PL BND y2_3\n LO BND y3_3 0\n PL BND y3_3\n LO BND y1_4 0\n PL BND y1_4\n LO BND y2_4 0\n PL BND y2_4\n LO BND y3_4 0\n PL BND y3_4\nENDATA\n";

/// Its partition: the columns that it does not name are in the master.
const BY_CUSTOMER: &str =
    "cpxBendersPartition 0\ny1_1 1\ny2_1 1\ny3_1 1\ny1_2 2\ny2_2 2\ny3_2 2\ny1_3 3\ny2_3 3\ny3_3 3\ny1_4 4\ny2_4 4\ny3_4 4\n";

const FIVE_PARTS: &str =
    "part 0 columns 3 rows 0 inequalities 6\npart 1 columns 3 rows 4 inequalities 8\npart 2 columns 3 rows 4 inequalities 8\npart 3 columns 3 rows 4 inequalities 8\npart 4 columns 3 rows 4 inequalities 8\n";

/// Minimise 2 x + 3 y, where 2 x + y is at least 1, x is 0 or 1, and y is not negative.
const ONE: &str =
    "NAME ONE\nROWS\n N COST\n G LINK\nCOLUMNS\n M1 'MARKER' 'INTORG'\n x COST 2 LINK 2\n M2 'MARKER' 'INTEND'\n y COST 3 LINK 1\nRHS\n RHS LINK 1\nBOUNDS\n UP BND x 1\nENDATA\n";

/// The same with a third column z in the row.
const JOINED: &str =
    "NAME ONE\nROWS\n N COST\n G LINK\nCOLUMNS\n M1 'MARKER' 'INTORG'\n x COST 2 LINK 2\n M2 'MARKER' 'INTEND'\n y COST 3 LINK 1\n z COST 1 LINK 1\nRHS\n RHS LINK 1\nBOUNDS\n UP BND x 1\nENDATA\n";

/// The same without an upper bound of x.
const OPEN: &str =
    "NAME ONE\nROWS\n N COST\n G LINK\nCOLUMNS\n M1 'MARKER' 'INTORG'\n x COST 2 LINK 2\n M2 'MARKER' 'INTEND'\n y COST 3 LINK 1\nRHS\n RHS LINK 1\nBOUNDS\n LO BND x 0\nENDATA\n";

/// The same without its last line.
const CUT_OFF: &str =
    "NAME ONE\nROWS\n N COST\n G LINK\nCOLUMNS\n M1 'MARKER' 'INTORG'\n x COST 2 LINK 2\n M2 'MARKER' 'INTEND'\n y COST 3 LINK 1\nRHS\n RHS LINK 1\nBOUNDS\n UP BND x 1\n";

/// A model and a partition with how the split of them ends.
struct Row {
    model: &'static str,
    part: &'static str,
    status: Status,
    text: &'static str,
}

const ROWS: [Row; 6] = [
    Row {
        model: FACILITIES,
        part: BY_CUSTOMER,
        status: Status::Done,
        text: FIVE_PARTS,
    },
    // the row has a column of block 1 and one of block 2
    Row {
        model: JOINED,
        part: "cpxBendersPartition 1\nx 0\nz 2\n",
        status: Status::Part,
        text: "split: joins LINK 1 2\n",
    },
    // every column is in block 1, the integer one too
    Row {
        model: ONE,
        part: "cpxBendersPartition 1\n",
        status: Status::Part,
        text: "split: integer in block x 1\n",
    },
    Row {
        model: OPEN,
        part: PART,
        status: Status::Part,
        text: "split: integer open x\n",
    },
    Row {
        model: CUT_OFF,
        part: PART,
        status: Status::Model,
        text: "model line 13: 17 NoEnd\n",
    },
    // a column that isn't there
    Row {
        model: ONE,
        part: "cpxBendersPartition 1\nx 0\nz 0\n",
        status: Status::Part,
        text: "partition line 3: 3 Unknown\n",
    },
];

#[test]
fn splits_end_as_their_texts_say(rt: HostRuntime) -> Result<(), Fail> {
    for row in &ROWS {
        let case = Case {
            model: row.model,
            part: row.part,
            ..FIRST
        };
        let (ended, printed) = ends(rt.alloc(), &["split", "m", "p"], &case)?;
        assert_eq!(rt; ended, row.status, "at {}", row.text);
        assert_eq!(rt; printed.as_slice(), row.text.as_bytes());
    }
    Ok(())
}

/// A model of the integer column x, from 0 to 1, and the column y, which is not negative and has so many rows.
fn with_rows(alloc: Global, count: u32) -> Result<String, AllocError> {
    let mut rows = String::from_str(alloc, "ROWS\n N COST\n")?;
    let mut terms = String::from_str(alloc, "")?;
    for row in 0..count {
        rows.push_str(format!(in alloc; " G R{row}\n")?.as_str())?;
        terms.push_str(format!(in alloc; " y R{row} 1\n")?.as_str())?;
    }
    rows.push_str("COLUMNS\n M1 'MARKER' 'INTORG'\n x COST 1\n M2 'MARKER' 'INTEND'\n y COST 1\n")?;
    rows.push_str(terms.as_str())?;
    rows.push_str("BOUNDS\n UP BND x 1\nENDATA\n")?;
    Ok(rows)
}

/// A part may have 1,024 inequalities: those of its rows, and here one more of the bound of y.
#[test]
fn takes_a_part_at_its_limit_and_none_above(rt: HostRuntime) -> Result<(), Fail> {
    let all: [(u32, Status, &str); 2] = [
        (
            1023,
            Status::Done,
            "part 0 columns 1 rows 0 inequalities 2\npart 1 columns 1 rows 1023 inequalities 1024\n",
        ),
        (1024, Status::Part, "split: too large 1 1025\n"),
    ];
    for (count, status, text) in all {
        let model = with_rows(rt.alloc(), count)?;
        let case = Case {
            model: model.as_str(),
            ..FIRST
        };
        let (ended, printed) = ends(rt.alloc(), &["split", "m", "p"], &case)?;
        assert_eq!(rt; ended, status, "at {count} rows");
        assert_eq!(rt; printed.as_slice(), text.as_bytes());
    }
    Ok(())
}
