//! The top call over a desk and a sink in memory.
use bz_io::{MemDesk, MemSink};
use bz_top::{Status, run};
use std::alloc::{AllocError, Global};
use std::test::Fail;

pub(crate) const MODEL: &str =
    "NAME ONE\nROWS\n N COST\n G LINK\nCOLUMNS\n M1 'MARKER' 'INTORG'\n x COST 1 LINK 1\n M2 'MARKER' 'INTEND'\n y COST 2 LINK 1\nRHS\n RHS LINK 1\nBOUNDS\n UP BND x 1\nENDATA\n";

pub(crate) const PART: &str = "cpxBendersPartition 1\nx 0\n";

pub(crate) const CERT: &str =
    "bzcert 1\nverdict optimal\nmaster 1 1\neta 0\nblock 1 1 0\nvalue 1\ncuts 1\ncut 1 1 -2 1 1 0 -2 1 0 2\nleaf 1 1 2 0 1 2 1\nend\n";

const WRONG_LEAF: &str =
    "bzcert 1\nverdict optimal\nmaster 1 1\neta 0\nblock 1 1 0\nvalue 1\ncuts 1\ncut 1 1 -2 1 1 0 -2 1 0 2\nleaf 1 1 2 0 1 2 2\nend\n";

const USAGE: &str =
    "usage: solve MODEL PART CERT [--budget=N] [--workers=N] | check MODEL PART CERT | split MODEL PART | try N\n";

/// The files of a check, under the names m, p and c, and the numbers of the loads and puts that fail.
#[derive(Clone, Copy)]
pub(crate) struct Case<'a> {
    pub model: &'a str,
    pub part: &'a str,
    pub cert: &'a str,
    pub failing_load: Option<u64>,
    pub failing_put: Option<u64>,
}

pub(crate) const FIRST: Case<'static> = Case {
    model: MODEL,
    part: PART,
    cert: CERT,
    failing_load: None,
    failing_put: None,
};

fn bytes(alloc: Global, text: &str) -> Result<Vec<u8>, AllocError> {
    Vec::from_slice(alloc, text.as_bytes())
}

fn numbers(alloc: Global, number: Option<u64>) -> Result<Vec<u64>, AllocError> {
    let mut all = Vec::new(alloc);
    if let Some(number) = number {
        all.push(number)?;
    }
    Ok(all)
}

/// How the program ends on these words, and what it prints.
pub(crate) fn ends(
    alloc: Global,
    words: &[&str],
    case: &Case,
) -> Result<(Status, Vec<u8>), AllocError> {
    let mut files = Vec::new(alloc);
    files.push((bytes(alloc, "m")?, bytes(alloc, case.model)?))?;
    files.push((bytes(alloc, "p")?, bytes(alloc, case.part)?))?;
    files.push((bytes(alloc, "c")?, bytes(alloc, case.cert)?))?;
    let mut desk = MemDesk::new(alloc, files, numbers(alloc, case.failing_load)?);
    let mut out = MemSink::new(alloc, 7, numbers(alloc, case.failing_put)?);
    let mut given = Vec::new(alloc);
    for word in words {
        given.push(String::from_str(alloc, word)?)?;
    }
    let status = run(alloc, given.as_slice(), &mut desk, &mut out);
    Ok((status, Vec::from_slice(alloc, out.taken())?))
}

#[test]
fn checks_the_smallest_model(rt: HostRuntime) -> Result<(), Fail> {
    let (status, printed) = ends(rt.alloc(), &["check", "m", "p", "c"], &FIRST)?;
    assert_eq!(rt; status, Status::Done);
    assert_eq!(rt;
        printed.as_slice(),
        b"certificate holds: optimal 1\n".as_slice()
    );
    Ok(())
}

#[test]
fn prints_the_parts_of_the_smallest_model(rt: HostRuntime) -> Result<(), Fail> {
    let (status, printed) = ends(rt.alloc(), &["split", "m", "p"], &FIRST)?;
    assert_eq!(rt; status, Status::Done);
    assert_eq!(rt;
        printed.as_slice(),
        b"part 0 columns 1 rows 0 inequalities 2\npart 1 columns 1 rows 1 inequalities 2\n".as_slice()
    );
    Ok(())
}

#[test]
fn refuses_a_bound_that_the_leaf_does_not_show(rt: HostRuntime) -> Result<(), Fail> {
    let case = Case {
        cert: WRONG_LEAF,
        ..FIRST
    };
    let (status, printed) = ends(rt.alloc(), &["check", "m", "p", "c"], &case)?;
    assert_eq!(rt; status, Status::Cert);
    assert_eq!(rt; printed.as_slice(), b"certificate: Leaf 0\n".as_slice());
    Ok(())
}

#[test]
fn refuses_words_without_a_job(rt: HostRuntime) -> Result<(), Fail> {
    let all: [&[&str]; 7] = [
        &[],
        &["help"],
        &["check", "m", "p"],
        &["check", "m", "p", "c", "d"],
        &["check", "m", "", "c"],
        &["check", "m", "-p", "c"],
        &["solve", "m", "p", "c"],
    ];
    for words in all {
        let (status, printed) = ends(rt.alloc(), words, &FIRST)?;
        assert_eq!(rt; status, Status::Usage);
        assert_eq!(rt; printed.as_slice(), USAGE.as_bytes());
    }
    Ok(())
}

#[test]
fn tells_the_file_that_could_not_be_read(rt: HostRuntime) -> Result<(), Fail> {
    let all: [(u64, &[u8]); 3] = [
        (0, b"read fault: m\n"),
        (1, b"read fault: p\n"),
        (2, b"read fault: c\n"),
    ];
    for (number, text) in all {
        let case = Case {
            failing_load: Some(number),
            ..FIRST
        };
        let (status, printed) = ends(rt.alloc(), &["check", "m", "p", "c"], &case)?;
        assert_eq!(rt; status, Status::Read);
        assert_eq!(rt; printed.as_slice(), text);
    }
    Ok(())
}

#[test]
fn ends_with_a_write_fault_where_a_put_fails(rt: HostRuntime) -> Result<(), Fail> {
    let all: [(&str, u64, &[u8]); 4] = [
        (CERT, 0, b""),
        (CERT, 1, b"certifi"),
        (WRONG_LEAF, 0, b""),
        (WRONG_LEAF, 1, b"certifi"),
    ];
    for (cert, number, text) in all {
        let case = Case {
            cert,
            failing_put: Some(number),
            ..FIRST
        };
        let (status, printed) = ends(rt.alloc(), &["check", "m", "p", "c"], &case)?;
        assert_eq!(rt; status, Status::Write);
        assert_eq!(rt; printed.as_slice(), text);
    }
    Ok(())
}
