//! The parts of a split, from the files of a job.
ghost use Rattle.std.specs.Prelude.{IfErr, IfOk};
ghost use Rattle.bz_io.specs.Desk.{IsSame};
ghost use Rattle.bz_io.specs.Told.{KeepsTelling};
ghost use Rattle.bz_model.specs.Splits.{IsSplit};
ghost use Rattle.bz_split.specs.Counts.{AreRowCounts};
ghost use Rattle.bz_top.specs.Claims.{CountsFiles, HasNoCert, IsCause};
ghost use Rattle.bz_top.specs.Loads.{EndsDecomposed, ShownParts};

use crate::job::Job;
use crate::loading::{load_model, load_part, split_of};
use crate::status::Refusal;
use bz_io::Desk;
use bz_model::Split;
use bz_split::rows_by_part;
use std::alloc::Global;

/// The split of the job's model, and how many rows each part has, the master's first.
pub(crate) fn split_files<D: Desk>(
    alloc: Global,
    job: &Job,
    desk: &mut D,
) -> Result<(Split, Vec<u32>), Refusal>
    requires { HasNoCert job.now }
    ensures shown { IfOk result (λ r. ShownParts (D.told desk.old) job.now r.0) }
    ensures split { IfOk result (λ r. IsSplit r.0) }
    ensures rows { IfOk result (λ r. AreRowCounts r.0 r.1.items) }
    ensures cause { IfErr result (IsCause (D.told desk.old) job.now) }
    ensures decomposed { EndsDecomposed (D.told desk.old) job.now result }
    ensures kept { KeepsTelling IsSame (D.told desk.old) (D.told desk.new) }
    ensures count { CountsFiles result (D.faults desk.old) (D.faults desk.new) }
{
    let model = load_model(alloc, job, desk)?;
    let part = load_part(alloc, job, desk, &model)?;
    let split = split_of(alloc, model, part)?;
    let Ok(rows) = rows_by_part(alloc, &split) else {
        return Err(Refusal::Memory);
    };
    Ok((split, rows))
}
