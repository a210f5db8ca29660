//! The check of a certificate, from the files of a job.
ghost use Rattle.std.specs.Prelude.{IfErr, IfOk};
ghost use Rattle.bz_cert.specs.Shapes.{IsShaped};
ghost use Rattle.bz_cert.specs.Fits.{Fits};
ghost use Rattle.bz_cert.specs.Passing.{Passes};
ghost use Rattle.bz_io.specs.Desk.{IsAfterLoads, IsSame};
ghost use Rattle.bz_io.specs.Told.{KeepsTelling};
ghost use Rattle.bz_model.specs.Splits.{IsSplit};
ghost use Rattle.bz_top.specs.Claims.{CountsFiles, HasCert, IsCause};
ghost use Rattle.bz_top.specs.Loads.{Certified, EndsDecomposed, Reached, RefusesCheck, Says, ShownHolding, SinceFirst};
ghost use Rattle.bz_top.specs.declared.status.File.TheVariants.{Cert as CertFile};

use crate::job::Job;
use crate::loading::{load_file, load_split};
use crate::said::Holding;
use crate::status::{File, Refusal};
use bz_cert::{CertStop, Certificate, Verdict, read_cert};
use bz_check::{CheckFault, check, stated_of};
use bz_io::Desk;
use bz_model::Split;
use std::alloc::Global;

/// The job's certificate.
fn load_cert<D: Desk>(alloc: Global, job: &Job, desk: &mut D) -> Result<Certificate, Refusal>
    requires { HasCert job.now }
    ensures reads { SinceFirst 2 (D.told desk.old) (λ told. IfOk result (Certified told job.now)) }
    ensures shaped { IfOk result IsShaped }
    ensures cause { SinceFirst 2 (D.told desk.old) (λ told. Reached told job.now CertFile → IfErr result (IsCause told job.now)) }
    ensures kept { KeepsTelling (IsAfterLoads 1) (D.told desk.old) (D.told desk.new) }
    ensures count { CountsFiles result (D.faults desk.old) (D.faults desk.new) }
{
    let text = load_file(alloc, job, File::Cert, desk)?;
    match read_cert(alloc, text.as_slice()) {
        Ok(certificate) => Ok(certificate),
        Err(CertStop::Fault(fault)) => Err(Refusal::Cert(fault)),
        Err(CertStop::OutOfMemory) => Err(Refusal::Memory),
    }
}

/// What a certificate that passes and fits says.
fn holding_of(split: &Split, certificate: &Certificate) -> Holding
    requires passes { Passes split.now.model split.now.part certificate.now }
    requires fits { Fits split.now.model split.now.part certificate.now }
    ensures says { Says split.now certificate.now result }
    ensures split { IsSplit split.now }
{
    let model = split.model();
    match (certificate.verdict, &certificate.parts) {
        (Verdict::Optimal, Some(parts)) => {
            match stated_of(model, certificate.value, parts.master.den) {
                Some(stated) => Holding::Optimal(stated),
                None => unreachable!(),
            }
        },
        (Verdict::Optimal, None) => unreachable!(),
        (Verdict::Infeasible, _) => Holding::Infeasible,
        (Verdict::Unbounded, _) => Holding::Unbounded,
    }
}

/// What the certificate says, where it passes and fits.
fn judge(alloc: Global, split: &Split, certificate: &Certificate) -> Result<Holding, Refusal>
    requires { IsShaped certificate.now }
    ensures passes { IfOk result (λ _. Passes split.now.model split.now.part certificate.now) }
    ensures fits { IfOk result (λ _. Fits split.now.model split.now.part certificate.now) }
    ensures says { IfOk result (Says split.now certificate.now) }
    ensures split { IfOk result (λ _. IsSplit split.now) }
    ensures refused { IfErr result (RefusesCheck split.now certificate.now) }
{
    match check(alloc, split, certificate) {
        Ok(()) => Ok(holding_of(split, certificate)),
        Err(CheckFault::OutOfMemory) => Err(Refusal::Memory),
        Err(fault) => Err(Refusal::Check(fault)),
    }
}

/// What the job's certificate says, where the files show it.
pub(crate) fn check_files<D: Desk>(
    alloc: Global,
    job: &Job,
    desk: &mut D,
) -> Result<Holding, Refusal>
    requires { HasCert job.now }
    ensures shown { IfOk result (ShownHolding (D.told desk.old) job.now) }
    ensures cause { IfErr result (IsCause (D.told desk.old) job.now) }
    ensures decomposed { EndsDecomposed (D.told desk.old) job.now result }
    ensures kept { KeepsTelling IsSame (D.told desk.old) (D.told desk.new) }
    ensures count { CountsFiles result (D.faults desk.old) (D.faults desk.new) }
{
    let split = load_split(alloc, job, desk)?;
    let certificate = load_cert(alloc, job, desk)?;
    judge(alloc, &split, &certificate)
}
