//! Worked certificates of the three verdicts through the top call, and what is printed of them.
use crate::checks::{Case, FIRST, ends};
use bz_top::Status;
use std::alloc::{AllocError, Global};
use std::test::Fail;

/// Minimise 2 x + 3 y, where 2 x + y is at least 1, x is 0 or 1 in the master, and y in block 1 is not negative.
const MODEL: &str =
    "NAME ONE\nROWS\n N COST\n G LINK\nCOLUMNS\n M1 'MARKER' 'INTORG'\n x COST 2 LINK 2\n M2 'MARKER' 'INTEND'\n y COST 3 LINK 1\nRHS\n RHS LINK 1\nBOUNDS\n UP BND x 1\nENDATA\n";

/// Its optimum, with a cut for each side of x and a split between them.
const TWO_LEAVES: &str =
    "bzcert 1\nverdict optimal\nmaster 1 1\neta 0\nblock 1 1 0\nvalue 2\ncuts 2\ncut 1 1 0 1 0 1 1 3\ncut 1 1 -3 1 1 0 -6 1 0 3\nsplit 0 0 1\nleaf 1 3 2 0 4 3 1\nleaf 1 2 2 1 2 2 1\nend\n";

/// Texts in the place of others in that certificate, how the check ends, and what is printed.
const CHANGES: [(&str, &str, Status, &str); 22] = [
    // the text as it is
    (
        "bzcert 1\n",
        "bzcert 1\n",
        Status::Done,
        "certificate holds: optimal 2\n",
    ),
    // the sum has -3 at x where -2 is needed
    ("0 4 3 1", "0 3 3 1", Status::Cert, "certificate: Leaf 1\n"),
    // the delta is below 0, which is told before any sum with it is made
    (
        "leaf 1 3 2 0 4 3 1",
        "leaf -170141183460469231731687303715884105727 0 0",
        Status::Cert,
        "certificate: Leaf 1\n",
    ),
    // the two sides don't meet
    (
        "split 0 0 1",
        "split 0 0 2",
        Status::Cert,
        "certificate: Cover 0\n",
    ),
    // no integer column stands there
    (
        "split 0 0 1",
        "split 1 0 1",
        Status::Cert,
        "certificate: Cover 0\n",
    ),
    (
        "master 1 1",
        "master +1 1",
        Status::Cert,
        "certificate line 3: 4 Number\n",
    ),
    (
        "master 1 1",
        "master 01 1",
        Status::Cert,
        "certificate line 3: 4 Number\n",
    ),
    (
        "value 2",
        "value -0",
        Status::Cert,
        "certificate line 6: 4 Number\n",
    ),
    // the last line is missing
    ("end\n", "", Status::Cert, "certificate line 12: 7 End\n"),
    // one leaf is missing
    (
        "leaf 1 2 2 1 2 2 1\n",
        "",
        Status::Cert,
        "certificate line 12: 6 Tree\n",
    ),
    // one leaf too many
    (
        "end\n",
        "leaf 1 2 2 1 2 2 1\nend\n",
        Status::Cert,
        "certificate line 13: 6 Tree\n",
    ),
    (
        "end\n",
        "end x\n",
        Status::Cert,
        "certificate line 13: 4 Number\n",
    ),
    (
        "value 2",
        "value 2 2",
        Status::Cert,
        "certificate line 6: 3 Line\n",
    ),
    (
        "leaf 1 3 2 0 4 3 1",
        "leaf 0 1 1 -2",
        Status::Cert,
        "certificate line 11: 4 Number\n",
    ),
    (
        "cuts 2",
        "cuts 65536",
        Status::Cert,
        "certificate line 7: 8 Limit\n",
    ),
    // the inner cost of the block is above its eta
    (
        "eta 0\nblock 1 1 0\nvalue 2",
        "eta 0\nblock 1 1 1\nvalue 2",
        Status::Cert,
        "certificate: Cost 1\n",
    ),
    // below 0 in the block's inequality 1, -y <= 0
    (
        "block 1 1 0",
        "block 1 1 -1",
        Status::Cert,
        "certificate: Point 1 1\n",
    ),
    // the cut's sum has -2 at y, and -3 is needed
    (
        "cut 1 1 0 1 0 1 1 3",
        "cut 1 1 0 1 0 1 1 2",
        Status::Cert,
        "certificate: Cut 0\n",
    ),
    // lists that say they are as long as a list can be
    (
        "leaf 1 3 2 0 4 3 1",
        "leaf 1 3 4294967295 0 1",
        Status::Cert,
        "certificate line 11: 3 Line\n",
    ),
    (
        "cut 1 1 0 1 0 1 1 3",
        "cut 1 1 0 1 4294967295 0 1",
        Status::Cert,
        "certificate line 8: 3 Line\n",
    ),
    // a factor of a block that makes a product wide
    (
        "block 1 1 0",
        "block 1 170141183460469231731687303715884105727 0",
        Status::Cert,
        "certificate: Wide 5 0\n",
    ),
    (
        "master 1 1",
        "master 2 2",
        Status::Cert,
        "certificate: Value\n",
    ),
];

/// The certificate with the new text in the place of the old one.
fn changed(alloc: Global, old: &str, new: &str) -> Result<String, AllocError> {
    TWO_LEAVES.replace(alloc, old, new)
}

#[test]
fn checks_a_tree_of_two_leaves(rt: HostRuntime) -> Result<(), Fail> {
    for (old, new, status, text) in CHANGES {
        assert!(rt; TWO_LEAVES.contains(old), "no {old}");
        let cert = changed(rt.alloc(), old, new)?;
        let case = Case {
            model: MODEL,
            cert: cert.as_str(),
            ..FIRST
        };
        let (ended, printed) = ends(rt.alloc(), &["check", "m", "p", "c"], &case)?;
        assert_eq!(rt; ended, status, "at {new}");
        assert_eq!(rt; printed.as_slice(), text.as_bytes());
    }
    Ok(())
}

/// Minimise -y, where x is at least 1 (row A) and at most the right side of row B, x is from 0 to 5 in the master, and y
/// in block 1 is not negative.
const RAY: &str =
    "ROWS\n N COST\n G A\n L B\nCOLUMNS\n x A 1 B 1\n y COST -1\nRHS\n RHS A 1 B 1\nBOUNDS\n UP BND x 5\nENDATA\n";

const NO_POINT: &str =
    "ROWS\n N COST\n G A\n L B\nCOLUMNS\n x A 1 B 1\n y COST -1\nRHS\n RHS A 1\nBOUNDS\n UP BND x 5\nENDATA\n";

const EMPTY_LEAF: &str = "bzcert 1\nverdict infeasible\ncuts 0\nleaf 0 1 2 0 1 1 1\nend\n";

const FALLS: &str = "bzcert 1\nverdict unbounded\nmaster 1 1\nblock 1 1 0\nray 0 1\nend\n";

#[test]
fn checks_the_other_verdicts(rt: HostRuntime) -> Result<(), Fail> {
    let all: [(&str, &str, Status, &str); 7] = [
        (
            NO_POINT,
            EMPTY_LEAF,
            Status::Done,
            "certificate holds: infeasible\n",
        ),
        (RAY, FALLS, Status::Done, "certificate holds: unbounded\n"),
        // with the right side 1 of row B the sides add up to 0 <= 0
        (RAY, EMPTY_LEAF, Status::Cert, "certificate: Leaf 0\n"),
        // without a feasible point nothing is unbounded: x <= 0 is inequality 1
        (NO_POINT, FALLS, Status::Cert, "certificate: Point 0 1\n"),
        // along x the row B rises
        (
            RAY,
            "bzcert 1\nverdict unbounded\nmaster 1 1\nblock 1 1 0\nray 1 1\nend\n",
            Status::Cert,
            "certificate: Ray\n",
        ),
        // a leaf that is not empty shows nothing here
        (
            NO_POINT,
            "bzcert 1\nverdict infeasible\ncuts 0\nleaf 1 0 0\nend\n",
            Status::Cert,
            "certificate: Leaf 0\n",
        ),
        (
            RAY,
            "bzcert 1\nverdict unbounded\nmaster 1 1\nblock 1 1 0\nray 0 1\nleaf 0 1 0\nend\n",
            Status::Cert,
            "certificate line 6: 3 Line\n",
        ),
    ];
    for (model, cert, status, text) in all {
        let case = Case {
            model,
            cert,
            ..FIRST
        };
        let (ended, printed) = ends(rt.alloc(), &["check", "m", "p", "c"], &case)?;
        assert_eq!(rt; ended, status);
        assert_eq!(rt; printed.as_slice(), text.as_bytes());
    }
    Ok(())
}
