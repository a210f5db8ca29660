//! Worked texts of partitions: minimise x + 2 y with x + y >= 1, x an integer from 0 to 1, and y at least 0.
ghost use Rattle.std.specs.Prelude.{◌≡◌, ◌<◌, IfOk, length};
ghost use Rattle.std.specs.Int.RustNames.{unsigned_abs};
ghost use Rattle.bz_algebra.specs.Numbers.{IsNarrow};

use crate::faults::{PartFault, PartKind, PartStop};
use crate::part_text::read_part;
use bz_model::{Column, Model, Row};
use bz_num::{Frac, Items, Name, SparseRow};
use std::alloc::{AllocError, Global};
use std::test::Fail;

fn columns(alloc: Global) -> Result<Items<Column>, AllocError>
    ensures { IfOk result (λ columns. length columns ≡ 2) }
{
    let x = Column {
        name: Name::from_vec(Vec::from_slice(alloc, b"x")?),
        integer: true,
        lower: Some(Frac { num: 0, den: 1 }),
        upper: Some(Frac { num: 1, den: 1 }),
    };
    let y = Column {
        name: Name::from_vec(Vec::from_slice(alloc, b"y")?),
        integer: false,
        lower: Some(Frac { num: 0, den: 1 }),
        upper: None,
    };
    let mut columns = Vec::with_capacity(alloc, 2)?;
    columns.push(x)?;
    columns.push(y)?;
    Ok(Items::from_vec(columns))
}

fn pairs(alloc: Global, first: i128, second: i128) -> Result<SparseRow, AllocError>
    requires some { (0 < unsigned_abs first) × (0 < unsigned_abs second) }
    requires narrow { IsNarrow first × IsNarrow second }
{
    let mut pairs = Vec::with_capacity(alloc, 2)?;
    pairs.push((0, first))?;
    pairs.push((1, second))?;
    Ok(SparseRow::from_vec(pairs))
}

fn rows(alloc: Global) -> Result<Items<Row>, AllocError>
    ensures { IfOk result (λ rows. length rows ≡ 1) }
{
    let link = Row {
        name: Name::from_vec(Vec::from_slice(alloc, b"LINK")?),
        terms: pairs(alloc, 1, 1)?,
        lower: Some(1),
        upper: None,
    };
    let mut rows = Vec::with_capacity(alloc, 1)?;
    rows.push(link)?;
    Ok(Items::from_vec(rows))
}

fn worked(alloc: Global) -> Result<Model, AllocError> {
    Ok(Model {
        columns: columns(alloc)?,
        rows: rows(alloc)?,
        objective: Name::from_vec(Vec::from_slice(alloc, b"COST")?),
        cost: pairs(alloc, 1, 2)?,
        constant: 0,
        scale: 1,
        maximise: false,
    })
}

fn read(alloc: Global, text: &[u8], model: &Model) -> Result<Vec<u32>, PartStop> {
    if text.len() > 100 {
        return Err(PartStop::OutOfMemory);
    }
    read_part(alloc, text, model)
}

#[test]
fn reads_partitions(rt: HostRuntime) -> Result<(), Fail> {
    let model = worked(rt.alloc())?;
    for (text, x, y) in [
        (b"cpxBendersPartition 1\nx 0\n".as_slice(), 0, 1),
        (b"* a comment\n\t cpxBendersPartition 0 \r\n\n y 1", 0, 1),
        (b"cpxBendersPartition 1\n", 1, 1),
        (b"cpxBendersPartition 0", 0, 0),
        (b"cpxBendersPartition 2\nx\t1", 1, 2),
        (b"cpxBendersPartition 1\ny 2\nx 1\n", 1, 2),
    ] {
        let part = read(rt.alloc(), text, &model);
        assert!(rt; part.is_ok());
        if let Ok(part) = part {
            assert_eq!(rt; part.as_slice(), [x, y].as_slice());
        }
    }
    Ok(())
}

#[test]
fn refuses_faults(rt: HostRuntime) -> Result<(), Fail> {
    let model = worked(rt.alloc())?;
    for (text, line, kind) in [
        (b"".as_slice(), 0, PartKind::Head),
        (b"cpxBendersPartition 1\nw 0\n", 2, PartKind::Unknown),
        (
            b"cpxBendersPartition 2\nx 0\n",
            0,
            PartKind::Gap { block: 1 },
        ),
        (b"cpxBendersPartition 257\n", 1, PartKind::Limit),
        (b"cpxBendersPartition 1\nx 01\n", 2, PartKind::Value),
        (b"\n*\n cpxBendersPartition\n", 3, PartKind::Head),
        (b"cpxBendersPartition 01\n", 1, PartKind::Head),
        (b"cpxbendersPartition 1\n", 1, PartKind::Head),
        (b"cpxBendersPartition 1\nx 0 0\n", 2, PartKind::Fields),
        (b"cpxBendersPartition 1\nx 0\n\nx 1\n", 4, PartKind::Double),
        (b"cpxBendersPartition 1\nx +1\n", 2, PartKind::Value),
        (
            b"cpxBendersPartition 1\nx 99999999999999999999\n",
            2,
            PartKind::Limit,
        ),
        (b"cpxBendersPartition 1\r", 1, PartKind::NotText),
        (b"cpxBendersPartition 300\nx \x01", 1, PartKind::Limit),
        (b"cpxBendersPartition 1\nw 0 0\x01", 2, PartKind::NotText),
        (
            b"cpxBendersPartition 3\nx 3\ny 2",
            0,
            PartKind::Gap { block: 1 },
        ),
    ] {
        match read(rt.alloc(), text, &model) {
            Ok(_) => assert!(rt; false, "at {line}"),
            Err(stop) => {
                assert_eq!(rt; stop, PartStop::Fault(PartFault { line, kind }));
            }
        }
    }
    Ok(())
}
