//! Worked texts of certificates, and what is wrong with other ones.
use crate::faults::{CertFault, CertKind, CertStop};
use crate::reader::read_cert;
use crate::records::{Certificate, Verdict};
use bz_tree::TreeNode;
use std::alloc::{AllocError, Global};
use std::test::Fail;

/// The lines of the certificate of examples/one.mps: a split root.
const ONE: [&[u8]; 13] = [
    b"bzcert 1",
    b"verdict optimal",
    b"master 1 1",
    b"eta 0",
    b"block 1 1 0",
    b"value 2",
    b"cuts 2",
    b"cut 1 1 0 1 0 1 1 3",
    b"cut 1 1 -3 1 1 0 -6 1 0 3",
    b"split 0 0 1",
    b"leaf 1 3 2 0 4 3 1",
    b"leaf 1 2 2 1 2 2 1",
    b"end",
];

/// The text of these lines, with other bytes in place of one of them and its line feed.
fn text_with(alloc: Global, place: usize, bytes: &[u8]) -> Result<Vec<u8>, AllocError> {
    let mut text = Vec::new(alloc);
    for (at, line) in ONE.iter().enumerate() {
        if at == place {
            text.extend_from_slice(bytes)?;
        } else {
            text.extend_from_slice(line)?;
            text.push(b'\n')?;
        }
    }
    Ok(text)
}

/// Whether the text has this fault.
fn has_fault(alloc: Global, text: &[u8], line: u32, kind: CertKind) -> bool {
    if text.len() >= 4294967295 {
        return false;
    }
    match read_cert(alloc, text) {
        Ok(_) => false,
        Err(stop) => stop == CertStop::Fault(CertFault { line, kind }),
    }
}

#[test]
fn a_text_has_its_first_fault(rt: HostRuntime) -> Result<(), Fail> {
    for (place, bytes, line, kind) in [
        (0, b"bzcert 2\n".as_slice(), 1, CertKind::Head),
        (0, b"bzcert 1\r\n".as_slice(), 1, CertKind::Head),
        (1, b"verdict none\n".as_slice(), 2, CertKind::Verdict),
        (2, b"master +1 1\n".as_slice(), 3, CertKind::Number),
        (2, b"master 01 1\n".as_slice(), 3, CertKind::Number),
        (2, b"master\n".as_slice(), 3, CertKind::Line),
        (3, b"".as_slice(), 4, CertKind::Line),
        (4, b"block 2 1 0\n".as_slice(), 5, CertKind::Order),
        (4, b"block 1\n".as_slice(), 5, CertKind::Line),
        (5, b"value -0\n".as_slice(), 6, CertKind::Number),
        (5, b"value 2 x\n".as_slice(), 6, CertKind::Number),
        (5, b"value 2 \n".as_slice(), 6, CertKind::Number),
        (5, b"value  2\n".as_slice(), 6, CertKind::Number),
        (5, b"value 2 1\n".as_slice(), 6, CertKind::Line),
        (
            5,
            b"value 170141183460469231731687303715884105728\n".as_slice(),
            6,
            CertKind::Number,
        ),
        (6, b"cuts 65536\n".as_slice(), 7, CertKind::Limit),
        (6, b"cuts 65536 1\n".as_slice(), 7, CertKind::Limit),
        (6, b"cuts 4294967295\n".as_slice(), 7, CertKind::Limit),
        (6, b"cuts 4294967296\n".as_slice(), 7, CertKind::Number),
        (6, b"cuts -1\n".as_slice(), 7, CertKind::Number),
        (6, b"cuts 3\n".as_slice(), 10, CertKind::Line),
        (
            7,
            b"cut 1 1 0 1 1 0 0 1 1 3\n".as_slice(),
            8,
            CertKind::Order,
        ),
        (
            8,
            b"cut 1 1 -3 1 1 0 -6 2 1 3 0 1\n".as_slice(),
            9,
            CertKind::Order,
        ),
        (
            8,
            b"cut 1 1 -3 1 1 0 -6 1 0 3 0\n".as_slice(),
            9,
            CertKind::Line,
        ),
        (
            9,
            b"leaf 1 3 0\nsplit 0 0 1\n".as_slice(),
            11,
            CertKind::Tree,
        ),
        (10, b"".as_slice(), 12, CertKind::Tree),
        (10, b"leaf 0 1 1 -2\n".as_slice(), 11, CertKind::Number),
        (10, b"leaf 1 3 2 0 1\n".as_slice(), 11, CertKind::Line),
        (12, b"".as_slice(), 12, CertKind::End),
        (12, b"end".as_slice(), 13, CertKind::End),
        (12, b"end x\n".as_slice(), 13, CertKind::Number),
        (12, b"end\nend\n".as_slice(), 14, CertKind::End),
        (12, b"end\n\n".as_slice(), 14, CertKind::End),
        (12, b"end\nx".as_slice(), 14, CertKind::End),
    ] {
        let text = text_with(rt.alloc(), place, bytes)?;
        assert!(rt; has_fault(rt.alloc(), text.as_slice(), line, kind));
    }
    Ok(())
}

#[test]
fn a_short_text_has_its_first_fault(rt: HostRuntime) {
    for (text, line, kind) in [
        (b"".as_slice(), 0, CertKind::End),
        (b"\n".as_slice(), 1, CertKind::Head),
        (b"bzcert 1".as_slice(), 1, CertKind::End),
        (b"bzcert 1\n".as_slice(), 1, CertKind::End),
        (b"bzcert 1\nverdict optimal".as_slice(), 2, CertKind::End),
        (b"bzcert 1\nverdict optimal\n".as_slice(), 2, CertKind::End),
        (
            b"bzcert 1\nverdict optimal\ncuts 0\n".as_slice(),
            3,
            CertKind::Line,
        ),
        (
            b"bzcert 1\nverdict unbounded\nmaster 1 1\nblock 1 1 0\nray 0 1\nleaf 0 1 0\n".as_slice(),
            6,
            CertKind::Line,
        ),
    ] {
        assert!(rt; has_fault(rt.alloc(), text, line, kind));
    }
}

/// The certificate of a text.
fn read(alloc: Global, text: &[u8]) -> Result<Certificate, Fail> {
    if text.len() >= 4294967295 {
        return Err("the text is too long".into());
    }
    Ok(read_cert(alloc, text).ok().ok_or("it is refused")?)
}

#[test]
fn the_point_of_a_worked_certificate_is_read(rt: HostRuntime) -> Result<(), Fail> {
    let text = text_with(rt.alloc(), 12, b"end\n")?;
    assert_eq!(rt; text.len(), 169);
    let certificate = read(rt.alloc(), text.as_slice())?;
    assert!(rt; certificate.verdict == Verdict::Optimal);
    assert_eq!(rt; certificate.value, 2);
    let parts = certificate.parts.as_ref().ok_or("it has no parts")?;
    assert_eq!(rt; parts.master.den, 1);
    assert_eq!(rt; parts.master.x.as_slice(), [1].as_slice());
    assert_eq!(rt; parts.master.eta.as_slice(), [0].as_slice());
    assert_eq!(rt; parts.blocks.as_slice().len(), 1);
    Ok(())
}

#[test]
fn the_cuts_of_a_worked_certificate_are_read(rt: HostRuntime) -> Result<(), Fail> {
    let text = text_with(rt.alloc(), 12, b"end\n")?;
    let certificate = read(rt.alloc(), text.as_slice())?;
    let [first, second] = certificate.cuts.as_slice() else {
        return Err("it has not two cuts".into());
    };
    assert_eq!(rt;
        (first.block, first.p0, first.beta, first.gcd),
        (1, 1, 0, 1)
    );
    assert_eq!(rt; first.mu.as_slice(), [(1, 3)].as_slice());
    assert_eq!(rt; second.alpha.as_slice(), [(0, -6)].as_slice());
    assert_eq!(rt; second.beta, -3);
    Ok(())
}

#[test]
fn the_tree_of_a_worked_certificate_is_read(rt: HostRuntime) -> Result<(), Fail> {
    let text = text_with(rt.alloc(), 12, b"end\n")?;
    let certificate = read(rt.alloc(), text.as_slice())?;
    let [
        TreeNode::Split {
            position,
            left,
            right,
        },
        TreeNode::Leaf(leaf),
        _,
    ] = certificate.tree.as_slice()
    else {
        return Err("it has not a split and two leaves".into());
    };
    assert_eq!(rt; (*position, *left, *right), (0, 0, 1));
    assert_eq!(rt; (leaf.delta, leaf.bound), (1, 3));
    assert_eq!(rt; leaf.lambda.as_slice(), [(0, 4), (3, 1)].as_slice());
    Ok(())
}

#[test]
fn certificates_of_each_verdict_are_read(rt: HostRuntime) -> Result<(), Fail> {
    let text = b"bzcert 1\nverdict infeasible\ncuts 0\nleaf 0 1 2 0 1 1 1\nend\n";
    let infeasible = read(rt.alloc(), text)?;
    assert!(rt; infeasible.verdict == Verdict::Infeasible);
    assert!(rt; infeasible.parts.is_none());
    assert_eq!(rt; infeasible.tree.as_slice().len(), 1);
    let text = b"bzcert 1\nverdict unbounded\nmaster 1 1\nblock 1 1 0\nray 0 1\nend\n";
    let unbounded = read(rt.alloc(), text)?;
    assert!(rt; unbounded.verdict == Verdict::Unbounded);
    assert_eq!(rt; unbounded.ray.as_slice(), [0, 1].as_slice());
    assert_eq!(rt; unbounded.tree.as_slice().len(), 0);
    let text = b"bzcert 1\nverdict optimal\nmaster 1\neta\nvalue 0\ncuts 0\nleaf 1 0 0\nend\n";
    let empty = read(rt.alloc(), text)?;
    assert!(rt; empty.verdict == Verdict::Optimal);
    assert_eq!(rt; empty.cuts.as_slice().len(), 0);
    Ok(())
}

/// The text of a tree in one branch: so many splits, and then so many leaves.
fn branch(alloc: Global, splits: u32, leaves: u32) -> Result<Vec<u8>, AllocError> {
    let mut text = Vec::from_slice(alloc, b"bzcert 1\nverdict infeasible\ncuts 0\n")?;
    for _ in 0..splits {
        text.extend_from_slice(b"split 0 0 1\n")?;
    }
    for _ in 0..leaves {
        text.extend_from_slice(b"leaf 0 1 0\n")?;
    }
    text.extend_from_slice(b"end\n")?;
    Ok(text)
}

#[test]
fn a_tree_has_at_most_65535_nodes(rt: HostRuntime) -> Result<(), Fail> {
    let most = branch(rt.alloc(), 32767, 32768)?;
    let certificate = read(rt.alloc(), most.as_slice())?;
    assert_eq!(rt; certificate.tree.as_slice().len(), 65535);
    let more = branch(rt.alloc(), 65536, 0)?;
    assert!(rt; has_fault(rt.alloc(), more.as_slice(), 65539, CertKind::Limit));
    let partial = branch(rt.alloc(), 65535, 0)?;
    assert!(rt; has_fault(rt.alloc(), partial.as_slice(), 65539, CertKind::Tree));
    Ok(())
}
