//! The model, the partition and the split of a job, from its files.
ghost use Rattle.std.specs.Prelude.{◌≡◌, ◌≤◌, length, IfErr, IfOk, OnOk};
ghost use Rattle.bz_io.specs.Desk.{IsAfterLoads, IsSame};
ghost use Rattle.bz_io.specs.Told.{KeepsTelling};
ghost use Rattle.bz_model.specs.Splits.{IsSplit};
ghost use Rattle.bz_model.specs.Strict.{HasItsColumns, IsPartition};
ghost use Rattle.bz_top.specs.Claims.{CountsFiles, IsCause, limit_of, load_of};
ghost use Rattle.bz_top.specs.Ends.{name_of};
ghost use Rattle.bz_top.specs.Loads.{Accepted, AnswersFile, IsEarly, Modelled, Parted, SinceFirst, Splits};

use crate::job::Job;
use crate::status::{File, Refusal};
use bz_io::{Desk, LoadError};
use bz_model::{Model, Split};
use bz_mps::{MpsStop, read_mps};
use bz_num::Items;
use bz_part::{PartStop, read_part};
use bz_split::{SplitFault, split};
use std::alloc::Global;

/// The most bytes that a file may have.
fn limit(file: File) -> usize
    ensures { result ≡ limit_of file }
{
    match file {
        File::Model | File::Part => 16 * 1024 * 1024,
        File::Cert => 64 * 1024 * 1024,
    }
}

/// The name of a file of the job, empty where it has no such file.
pub(crate) fn file_name(job: &Job, file: File) -> &str
    ensures { result.now ≡ name_of job.now file }
{
    match (job, file) {
        (Job::Check { model, .. } | Job::Split { model, .. }, File::Model) => model.as_str(),
        (Job::Check { part, .. } | Job::Split { part, .. }, File::Part) => part.as_str(),
        (Job::Check { cert, .. }, File::Cert) => cert.as_str(),
        (Job::Split { .. }, File::Cert) => "",
    }
}

/// The bytes of a file of the job.
pub(crate) fn load_file<D: Desk>(
    alloc: Global,
    job: &Job,
    file: File,
    desk: &mut D,
) -> Result<Vec<u8>, Refusal>
    ensures within { IfOk result (λ bytes. length bytes.items ≤ limit_of file) }
    ensures answer { SinceFirst (load_of file) (D.told desk.old) (λ told. AnswersFile told job.now file result) }
    ensures kept { KeepsTelling (IsAfterLoads 1) (D.told desk.old) (D.told desk.new) }
    ensures count { CountsFiles result (D.faults desk.old) (D.faults desk.new) }
{
    match desk.load(alloc, file_name(job, file), limit(file)) {
        Ok(bytes) => Ok(bytes),
        Err(LoadError::Failed) => Err(Refusal::Read(file)),
        Err(LoadError::TooLong) => Err(Refusal::TooLong(file)),
        Err(LoadError::OutOfMemory) => Err(Refusal::Memory),
    }
}

/// The job's model.
pub(crate) fn load_model<D: Desk>(alloc: Global, job: &Job, desk: &mut D) -> Result<Model, Refusal>
    ensures reads { IfOk result (Modelled (D.told desk.old) job.now) }
    ensures columns { IfOk result HasItsColumns }
    ensures cause { IfErr result (IsCause (D.told desk.old) job.now) }
    ensures early { IfErr result IsEarly }
    ensures kept { KeepsTelling (IsAfterLoads 1) (D.told desk.old) (D.told desk.new) }
    ensures count { CountsFiles result (D.faults desk.old) (D.faults desk.new) }
{
    let text = load_file(alloc, job, File::Model, desk)?;
    match read_mps(alloc, text.as_slice()) {
        Ok(model) => Ok(model),
        Err(MpsStop::Fault(fault)) => Err(Refusal::Model(fault)),
        Err(MpsStop::OutOfMemory) => Err(Refusal::Memory),
    }
}

/// The job's partition of the model.
pub(crate) fn load_part<D: Desk>(
    alloc: Global,
    job: &Job,
    desk: &mut D,
    model: &Model,
) -> Result<Items<u32>, Refusal>
    ensures reads { SinceFirst 1 (D.told desk.old) (λ told. Modelled told job.now model.now
        → IfOk result (λ part. Parted told job.now (record { model = model.now; part = part }))) }
    ensures cause { SinceFirst 1 (D.told desk.old) (λ told. Modelled told job.now model.now → IfErr result (IsCause told job.now)) }
    ensures partition { IfOk result (IsPartition model.now) }
    ensures early { IfErr result IsEarly }
    ensures kept { KeepsTelling (IsAfterLoads 1) (D.told desk.old) (D.told desk.new) }
    ensures count { CountsFiles result (D.faults desk.old) (D.faults desk.new) }
{
    let text = load_file(alloc, job, File::Part, desk)?;
    match read_part(alloc, text.as_slice(), model) {
        Ok(part) => Ok(Items::from_vec(part)),
        Err(PartStop::Fault(fault)) => Err(Refusal::Part(fault)),
        Err(PartStop::OutOfMemory) => Err(Refusal::Memory),
    }
}

/// The split of the model by the partition, where it is strict.
pub(crate) fn split_of(alloc: Global, model: Model, part: Items<u32>) -> Result<Split, Refusal>
    requires columns { HasItsColumns model }
    requires partition { IsPartition model part }
    ensures { Splits (record { model = model; part = part }) result }
{
    match split(alloc, model, part) {
        Ok(split) => Ok(split),
        Err(unsplit) => match unsplit.fault {
            SplitFault::OutOfMemory => Err(Refusal::Memory),
            _ => Err(Refusal::Split(unsplit)),
        },
    }
}

/// The split of the job's model by its partition.
pub(crate) fn load_split<D: Desk>(alloc: Global, job: &Job, desk: &mut D) -> Result<Split, Refusal>
    ensures accepted { IfOk result (Accepted (D.told desk.old) job.now) }
    ensures split { IfOk result IsSplit }
    ensures cause { IfErr result (IsCause (D.told desk.old) job.now) }
    ensures early { IfErr result IsEarly }
    ensures loads { OnOk result (KeepsTelling (IsAfterLoads 2) (D.told desk.old) (D.told desk.new)) }
    ensures kept { KeepsTelling IsSame (D.told desk.old) (D.told desk.new) }
    ensures count { CountsFiles result (D.faults desk.old) (D.faults desk.new) }
{
    let model = load_model(alloc, job, desk)?;
    let part = load_part(alloc, job, desk, &model)?;
    split_of(alloc, model, part)
}
