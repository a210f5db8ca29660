//! The top call.
ghost use Rattle.std.specs.Prelude.{◌≡◌, ◌≢◌, ◌≤◌, ◌⊎◌, map, IfErr, IfOk};
ghost use Rattle.std.specs.String.{string_bytes};
ghost use Rattle.bz_io.specs.Desk.{IsSame};
ghost use Rattle.bz_io.specs.Faults.{HasRisen};
ghost use Rattle.bz_io.specs.Sink.{Takes};
ghost use Rattle.bz_io.specs.Told.{KeepsTelling, WhereTold};
ghost use Rattle.bz_top.specs.Claims.{BreaksOff, BreaksOffAsked, BreaksOffUsage, CountsFiles, EndsSettled, EndsSettledAsked, IsCause, IsOfJob, RefusesAsked, RefusesJob, Shown, ShowsAsked, ShowsOf};
ghost use Rattle.bz_top.specs.Ends.{status_after as after_put, IsRefused};
ghost use Rattle.bz_top.specs.Jobs.{IsJobless};
ghost use Rattle.bz_top.specs.Loads.{EndsDecomposed, IsWhole};
ghost use Rattle.bz_top.specs.Putting.{Puts};
ghost use Rattle.bz_top.specs.Refusing.{Refuses};
ghost use Rattle.bz_top.specs.Texts.{said_text, usage_text};

use crate::check::check_files;
use crate::job::Job;
use crate::parting::split_files;
use crate::print::{put_holds, put_out_of_memory, put_refusal, put_usage};
use crate::put_parts::put_parts;
use crate::said::Said;
use crate::status::{Refusal, Status};
use crate::words::{WordsFault, read_words};
use bz_io::{Desk, PutFailed, Sink};
use bz_num::Items;
use std::alloc::Global;

/// The status after the last text: that of a write where the text could not be put whole.
fn status_after(put: Result<(), PutFailed>, status: Status) -> Status
    ensures { result ≡ after_put put status }
{
    match put {
        Ok(()) => status,
        Err(_) => Status::Write,
    }
}

/// Puts the text of a refusal: the status after it.
fn refuse<O: Sink>(out: &mut O, job: &Job, refusal: &Refusal) -> Status
    ensures { Refuses job.now refusal.now (O.taken out.old) (O.taken out.new) (O.faults out.old) (O.faults out.new) result }
{
    status_after(put_refusal(out, job, refusal), refusal.status())
}

/// What the job comes to, from its files.
fn outcome<D: Desk>(alloc: Global, job: &Job, desk: &mut D) -> Result<Said, Refusal>
    ensures of_job { IfOk result (IsOfJob job.now) }
    ensures whole { IfOk result IsWhole }
    ensures shown { IfOk result (Shown (D.told desk.old) job.now) }
    ensures cause { IfErr result (IsCause (D.told desk.old) job.now) }
    ensures decomposed { EndsDecomposed (D.told desk.old) job.now result }
    ensures kept { KeepsTelling IsSame (D.told desk.old) (D.told desk.new) }
    ensures count { CountsFiles result (D.faults desk.old) (D.faults desk.new) }
{
    match job {
        Job::Check { .. } => Ok(Said::Holds(check_files(alloc, job, desk)?)),
        Job::Split { .. } => {
            let (split, rows) = split_files(alloc, job, desk)?;
            let rows = Items::from_vec(rows);
            Ok(Said::Parts { split, rows })
        },
    }
}

/// Puts what a job comes to.
fn put_said<O: Sink>(out: &mut O, said: &Said) -> Result<(), PutFailed>
    requires { IsWhole said.now }
    ensures { Puts O.taken O.faults out.old out.new (said_text said.now) result }
{
    match said {
        Said::Holds(holding) => put_holds(out, *holding),
        Said::Parts { split, rows } => put_parts(out, split, rows.as_slice()),
    }
}

/// Does the job: checks the certificate and prints whether it holds, or prints the parts of the split.
pub fn do_alone<D: Desk, O: Sink>(alloc: Global, job: &Job, desk: &mut D, out: &mut O) -> Status
    // What is printed is what the files show. What a certificate is said to show is true of the model: its point is optimal
    // and the printed number is its objective, or no point is feasible, or for each number some feasible point is better.
    ensures done { result ≡ Status.Done → ShowsOf (D.told desk.old) job.now (O.taken out.old) (O.taken out.new) }

    // Every other status is that of a refusal with its cause and its text, or a text could not be put whole.
    ensures never { (result ≢ Status.Usage) × (result ≢ Status.Unresolved) }
    ensures refused { IsRefused result → RefusesJob (D.told desk.old) job.now result (O.taken out.old) (O.taken out.new) }
    ensures written { result ≡ Status.Write
        → BreaksOff (D.told desk.old) job.now (O.taken out.old) (O.taken out.new)
        (D.faults desk.old) (D.faults desk.new) }

    // The status that the desk settles comes, unless a write failed or there is no memory: so that of a file that can't be
    // read comes exactly where its load fails.
    ensures settled { EndsSettled (D.told desk.old) job.now result }

    // The desk's count of faults rises by one where a load failed, of which the status tells, or, where a write failed,
    // the text that could not be put; else it stays. As any load may fail, none is made after one that failed or after a
    // failed put. The sink's count rises by one where a write failed, and nothing is put after that; else it stays.
    ensures read { result ≡ Status.Read → HasRisen (D.faults desk.old) (D.faults desk.new) }
    ensures read_well { result ≢ Status.Read → result ≢ Status.Write → (D.faults desk.new).number ≡ (D.faults desk.old).number }
    ensures no_fall { (D.faults desk.old).number ≤ (D.faults desk.new).number }
    ensures write { result ≡ Status.Write → HasRisen (O.faults out.old) (O.faults out.new) }
    ensures written_well { result ≢ Status.Write → (O.faults out.new).number ≡ (O.faults out.old).number }

    // No name is changed.
    ensures kept { KeepsTelling IsSame (D.told desk.old) (D.told desk.new) }
{
    match outcome(alloc, job, desk) {
        Ok(said) => status_after(put_said(out, &said), Status::Done),
        Err(refusal) => refuse(out, job, &refusal),
    }
}

/// Does what the words ask for, and answers how the program ends: by `Done`, or by the status of the refusal whose text it
/// put, or by `Write` where a put failed. This is all that the program does.
pub fn run<D: Desk, O: Sink>(alloc: Global, words: &[String], desk: &mut D, out: &mut O) -> Status
    // What is printed is what the files of the job show that the words ask for. What a certificate is said to show is true
    // of the model: its point is optimal and the printed number is its objective, or no point is feasible, or for each
    // number some feasible point is better.
    ensures done { result ≡ Status.Done → ShowsAsked (map string_bytes words.now) (D.told desk.old) (O.taken out.old) (O.taken out.new) }

    // Words without a job are refused, and no others. The desk then has no fault; as any load may have one, none is made.
    ensures usage { result ≡ Status.Usage → IsJobless (map string_bytes words.now) }
    ensures usage_text { result ≡ Status.Usage → WhereTold (Takes usage_text) (O.taken out.old) (O.taken out.new) }
    ensures jobless { IsJobless (map string_bytes words.now) → (result ≡ Status.Usage) ⊎ (result ≡ Status.Write) }
    ensures untouched { IsJobless (map string_bytes words.now) → D.faults desk.new ≡ D.faults desk.old }

    // Every other status is that of a refusal with its cause and its text, or a text could not be put whole.
    ensures never { result ≢ Status.Unresolved }
    ensures refused { IsRefused result → RefusesAsked (map string_bytes words.now) (D.told desk.old) result (O.taken out.old) (O.taken out.new) }
    ensures written { result ≡ Status.Write →
        BreaksOffAsked (map string_bytes words.now) (D.told desk.old) (O.taken out.old) (O.taken out.new)
        (D.faults desk.old) (D.faults desk.new)
        ⊎ BreaksOffUsage (map string_bytes words.now) (O.taken out.old) (O.taken out.new) }

    // The status that the desk settles comes, unless a write failed or there is no memory: so that of a file that can't be
    // read comes exactly where its load fails.
    ensures settled { EndsSettledAsked (map string_bytes words.now) (D.told desk.old) result }

    // The desk's count of faults rises by one where a load failed, of which the status tells, or, where a write failed,
    // the text that could not be put; else it stays. As any load may fail, none is made after one that failed or after a
    // failed put. The sink's count rises by one where a write failed, and nothing is put after that; else it stays.
    ensures read { result ≡ Status.Read → HasRisen (D.faults desk.old) (D.faults desk.new) }
    ensures read_well { result ≢ Status.Read → result ≢ Status.Write → (D.faults desk.new).number ≡ (D.faults desk.old).number }
    ensures no_fall { (D.faults desk.old).number ≤ (D.faults desk.new).number }
    ensures write { result ≡ Status.Write → HasRisen (O.faults out.old) (O.faults out.new) }
    ensures written_well { result ≢ Status.Write → (O.faults out.new).number ≡ (O.faults out.old).number }

    // No name is changed.
    ensures kept { KeepsTelling IsSame (D.told desk.old) (D.told desk.new) }
{
    match read_words(alloc, words) {
        Ok(job) => do_alone(alloc, &job, desk, out),
        Err(WordsFault::Usage) => status_after(put_usage(out), Status::Usage),
        Err(WordsFault::OutOfMemory) => { status_after(put_out_of_memory(out), Status::Memory) }
    }
}
