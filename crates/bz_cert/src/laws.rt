//! What is proved of the texts of certificates.
ghost use Rattle.std.specs.Prelude.{ℕ, List, Result, Ok, Err, ◌≡◌, ◌⊎◌};
ghost use Rattle.bz_cert.specs.CertFaults.{IsCertFault};
ghost use Rattle.bz_cert.specs.CertReading.{Answers};
ghost use Rattle.bz_cert.specs.CertText.{IsCertText};
ghost use Rattle.bz_cert.specs.CertWriting.{PassingIsShort};
ghost use Rattle.bz_cert.specs.declared.faults.CertKind.{CertKind};
ghost use Rattle.bz_cert.specs.declared.faults.CertStop.{CertStop};
ghost use Rattle.bz_cert.specs.declared.records.Certificate.{Certificate};

/// A text is the text of at most one certificate, and a certificate has at most one text. Nothing runs.
pub fn text_has_one_certificate()
    ensures certificate { (text : List ℕ) (c d : Certificate) → IsCertText text c → IsCertText text d → c ≡ d }
    ensures text { (text other : List ℕ) (c : Certificate) → IsCertText text c → IsCertText other c → text ≡ other }
{}

/// A text is that of a certificate, or it has a fault. Nothing runs.
pub fn each_text_has_an_outcome()
    ensures { (text : List ℕ) →
        ((c : Certificate) × IsCertText text c) ⊎ ((number : ℕ) × (kind : CertKind) × IsCertFault text number kind) }
{}

/// A certificate's text has no fault. Nothing runs.
pub fn texts_have_no_fault()
    ensures { (text : List ℕ) (c : Certificate) (number : ℕ) (kind : CertKind) →
        IsCertText text c → IsCertFault text number kind → ⊥ }
{}

/// A text has at most one fault. Nothing runs.
pub fn text_has_one_fault()
    ensures { (text : List ℕ) (n m : ℕ) (j k : CertKind) →
        IsCertFault text n j → IsCertFault text m k → (n ≡ m) × (j ≡ k) }
{}

/// What `read_cert` answers on the text of a certificate, as `write_cert` gives it, is the certificate itself, or that
/// there was no memory. Nothing runs.
pub fn what_is_written_is_read()
    ensures { (text : List ℕ) (c : Certificate) (r : Result Certificate CertStop) →
        IsCertText text c → Answers (IsCertText text) (IsCertFault text) r →
        (r ≡ Ok c) ⊎ (r ≡ Err CertStop.OutOfMemory) }
{}

/// A certificate that passes over a split is short enough for its text: it has fewer than 2^32 blocks, and as many pairs in
/// each sparse list. Nothing runs.
pub fn what_passes_is_short()
    ensures { PassingIsShort }
{}
