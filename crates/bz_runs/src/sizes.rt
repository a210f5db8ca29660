//! A model of 500 columns and one that is maximised: what a check and a split of them print.
use crate::checks::{CERT, Case, FIRST, ends};
use bz_top::Status;
use std::alloc::{AllocError, Global};
use std::test::Fail;

/// The smallest model with so many columns in the place of y, each with its cost and its number in the row.
fn wide_model(alloc: Global, count: u32) -> Result<String, AllocError> {
    let mut text = String::from_str(
        alloc,
        "ROWS\n N COST\n G LINK\nCOLUMNS\n M1 'MARKER' 'INTORG'\n x COST 1 LINK 1\n M2 'MARKER' 'INTEND'\n",
    )?;
    for column in 0..count {
        text.push_str(format!(in alloc; " y{column} COST 2 LINK 1\n")?.as_str())?;
    }
    text.push_str("RHS\n RHS LINK 1\nBOUNDS\n UP BND x 1\nENDATA\n")?;
    Ok(text)
}

/// The smallest certificate with as many zeros in the place of its y.
fn wide_certificate(alloc: Global, count: usize) -> Result<String, AllocError> {
    let mut block = String::from_str(alloc, "block 1 1")?;
    block.push_str(" 0".repeat(alloc, count)?.as_str())?;
    CERT.replace(alloc, "block 1 1 0", block.as_str())
}

/// The smallest model with its cost turned round: maximise 3 - x - 2 y.
const MAXIMISED: &str =
    "NAME ONE\nOBJSENSE\n MAX\nROWS\n N COST\n G LINK\nCOLUMNS\n M1 'MARKER' 'INTORG'\n x COST -1 LINK 1\n M2 'MARKER' 'INTEND'\n y COST -2 LINK 1\nRHS\n RHS LINK 1 COST -3\nBOUNDS\n UP BND x 1\nENDATA\n";

const TWO_PARTS: &str =
    "part 0 columns 1 rows 0 inequalities 2\npart 1 columns 1 rows 1 inequalities 2\n";

const WIDE_PARTS: &str =
    "part 0 columns 1 rows 0 inequalities 2\npart 1 columns 499 rows 1 inequalities 500\n";

/// That the check of a case and its split print these.
fn prints(alloc: Global, case: &Case, checked: &str, parts: &str) -> Result<bool, AllocError> {
    let (ended, printed) = ends(alloc, &["check", "m", "p", "c"], case)?;
    let checks = ended == Status::Done && printed.as_slice() == checked.as_bytes();
    let (ended, printed) = ends(alloc, &["split", "m", "p"], case)?;
    Ok(checks && ended == Status::Done && printed.as_slice() == parts.as_bytes())
}

/// A model and a certificate, as texts.
#[derive(Drop)]
struct Texts {
    model: String,
    cert: String,
}

/// The case of these texts, with the smallest model's partition.
fn case_of(texts: &Texts) -> Case<'_> {
    Case {
        model: texts.model.as_str(),
        cert: texts.cert.as_str(),
        ..FIRST
    }
}

#[test]
fn checks_and_splits_500_columns(rt: HostRuntime) -> Result<(), Fail> {
    let texts = Texts {
        model: wide_model(rt.alloc(), 499)?,
        cert: wide_certificate(rt.alloc(), 499)?,
    };
    let case = case_of(&texts);
    assert!(rt;
        prints(
            rt.alloc(),
            &case,
            "certificate holds: optimal 1\n",
            WIDE_PARTS
        )?
    );
    Ok(())
}

#[test]
fn checks_and_splits_a_maximised_model(rt: HostRuntime) -> Result<(), Fail> {
    let case = Case {
        model: MAXIMISED,
        ..FIRST
    };
    assert!(rt;
        prints(
            rt.alloc(),
            &case,
            "certificate holds: optimal 2\n",
            TWO_PARTS
        )?
    );
    Ok(())
}
