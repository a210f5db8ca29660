//! Worked texts of certificates, written.
use crate::reader::read_cert;
use crate::writing::write_cert;
use std::alloc::Global;

/// Whether the text is some certificate's, and that one is written as this text.
fn is_written(alloc: Global, text: &[u8]) -> bool {
    if text.len() >= 4294967295 {
        return false;
    }
    match read_cert(alloc, text) {
        Ok(c) => match write_cert(alloc, &c) {
            Ok(written) => written.as_slice() == text,
            Err(_) => false,
        },
        Err(_) => false,
    }
}

#[test]
fn worked_certificates_are_written(rt: HostRuntime) {
    let one =
        b"bzcert 1\nverdict optimal\nmaster 1 1\neta 0\nblock 1 1 0\nvalue 2\ncuts 2\ncut 1 1 0 1 0 1 1 3\ncut 1 1 -3 1 1 0 -6 1 0 3\nsplit 0 0 1\nleaf 1 3 2 0 4 3 1\nleaf 1 2 2 1 2 2 1\nend\n";
    let empty = b"bzcert 1\nverdict optimal\nmaster 1\neta\nvalue 0\ncuts 0\nleaf 1 0 0\nend\n";
    let infeasible = b"bzcert 1\nverdict infeasible\ncuts 0\nleaf 0 1 2 0 1 1 1\nend\n";
    assert_eq!(rt; (one.len(), empty.len(), infeasible.len()), (169, 68, 58));
    for text in [
        one.as_slice(),
        empty.as_slice(),
        infeasible.as_slice(),
        b"bzcert 1\nverdict unbounded\nmaster 1 1\nblock 1 1 0\nray 0 1\nend\n".as_slice(),
        b"bzcert 1\nverdict unbounded\nmaster 3 -170141183460469231731687303715884105727\nblock 1 10 7 -1\nblock 2 1\nray\nend\n".as_slice(),
    ] {
        assert!(rt; is_written(rt.alloc(), text));
    }
}
