//! The reader of a certificate's text.
ghost use Rattle.std.specs.Prelude.{◌<◌, ◌-◌, ◌^◌, length};
ghost use Rattle.bz_cert.specs.CertFaults.{IsCertFault};
ghost use Rattle.bz_cert.specs.CertReading.{Answers};
ghost use Rattle.bz_cert.specs.CertText.{IsCertText};

use crate::body::read_body;
use crate::faults::CertStop;
use crate::head::read_head;
use crate::records::Certificate;
use std::alloc::Global;

/// The certificate of a text of fewer than 2^32 - 1 bytes. A fault names the first line that fails, and what it breaks
/// first.
pub fn read_cert(alloc: Global, text: &[u8]) -> Result<Certificate, CertStop>
    requires { length text.now < 2 ^ 32 - 1 }
    ensures { Answers (IsCertText text.now) (IsCertFault text.now) result }
{
    let (verdict, at) = read_head(text)?;
    read_body(alloc, at, verdict)
}
