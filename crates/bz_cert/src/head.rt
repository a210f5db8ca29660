//! The two first lines of a certificate's text.
ghost use Rattle.std.specs.Prelude.{[], ◌≡◌, ◌≢◌, ◌∷◌, ◌++◌, ◌+◌, ◌<◌, ◌-◌, ◌^◌, IfNone, IfSome, length};
ghost use Rattle.bz_cert.specs.declared.records.Verdict.{Verdict};
ghost use Rattle.bz_cert.specs.CertFaults.{IsCertFault};
ghost use Rattle.bz_cert.specs.CertReading.{Answers};
ghost use Rattle.bz_cert.specs.CertText.{first_line, head_bytes, verdict_line};

use crate::faults::{CertKind, CertStop, fault};
use crate::places::Place;
use crate::records::Verdict;
use crate::spelling::{cut_at, same_bytes, text_behind};

/// The verdict of a second line.
fn verdict_of(line: &[u8]) -> Option<Verdict>
    ensures found { IfSome result (λ verdict. line.now ≡ verdict_line verdict) }
    ensures none { IfNone result ((verdict : Verdict) → line.now ≡ verdict_line verdict → ⊥) }
{
    if same_bytes(line, b"verdict optimal") {
        return Some(Verdict::Optimal);
    }
    if same_bytes(line, b"verdict infeasible") {
        return Some(Verdict::Infeasible);
    }
    if same_bytes(line, b"verdict unbounded") {
        return Some(Verdict::Unbounded);
    }
    None
}

/// What is left behind the first line.
fn read_first(text: &[u8]) -> Result<&[u8], CertStop>
    ensures { Answers (λ rest. (text.now ≡ first_line ++ 10 ∷ rest.now) × (rest.now ≢ []))
        (IsCertFault text.now) result }
{
    if text.is_empty() {
        return Err(fault(0, CertKind::End));
    }
    let (line, from_feed) = cut_at(text, b'\n');
    if !same_bytes(line, b"bzcert 1") {
        return Err(fault(1, CertKind::Head));
    }
    let Some(rest) = text_behind(from_feed, b"\n") else {
        return Err(fault(1, CertKind::End));
    };
    if rest.is_empty() {
        return Err(fault(1, CertKind::End));
    }
    Ok(rest)
}

/// The verdict, and the place behind its line.
pub(crate) fn read_head(text: &[u8]) -> Result<(Verdict, Place<'_>), CertStop>
    requires { length text.now < 2 ^ 32 - 1 }
    ensures { Answers (λ r. (text.now ≡ head_bytes r.0 ++ r.1.rest.now) × (r.1.lines ≡ 2))
        (IsCertFault text.now) result }
{
    let rest = read_first(text)?;
    let (line, from_feed) = cut_at(rest, b'\n');
    let Some(verdict) = verdict_of(line) else {
        return Err(fault(2, CertKind::Verdict));
    };
    let Some(rest) = text_behind(from_feed, b"\n") else {
        return Err(fault(2, CertKind::End));
    };
    Ok((verdict, Place { rest, lines: 2 }))
}
