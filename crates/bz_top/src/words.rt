//! The words of the program.
ghost use Rattle.std.specs.Prelude.{◌≡◌, codes, map, IfOk, IsTrue, ◌↔◌, [], ◌∷◌};
ghost use Rattle.std.specs.String.{string_bytes};
ghost use Rattle.bz_top.specs.Jobs.{IsFileName};
ghost use Rattle.bz_top.specs.Words.{ReadsWords};

use crate::job::{FileName, Job};
use std::alloc::{AllocError, Global};

/// Why words have no job.
#[derive(Clone, Copy, Debug, PartialEq, Eq)]
pub(crate) enum WordsFault {
    /// They are of no form that the program knows.
    Usage,
    /// There is no memory for the names.
    OutOfMemory,
}

/// Whether the word is the command of a check.
fn is_check(word: &str) -> bool
    ensures { IsTrue result ↔ (word.now ≡ codes "check") }
{
    word == "check"
}

/// Whether the word is the command of a split.
fn is_split(word: &str) -> bool
    ensures { IsTrue result ↔ (word.now ≡ codes "split") }
{
    word == "split"
}

/// Whether the word names a file: it isn't empty, and doesn't begin with `-`.
fn is_file_name(word: &str) -> bool
    ensures { IsTrue result ↔ IsFileName word.now }
{
    match word.as_bytes() {
        [] => false,
        [first, ..] => *first != b'-',
    }
}

/// The file name of a word.
fn file_name(alloc: Global, word: &str) -> Result<FileName, AllocError>
    ensures { IfOk result (λ name. name ≡ word.now) }
{
    let text = String::from_str(alloc, word)?;
    Ok(FileName::from_string(text))
}

/// The job of checking these files.
fn check_job(alloc: Global, model: &str, part: &str, cert: &str) -> Result<Job, AllocError>
    ensures { IfOk result (λ job. job ≡ Job.Check model.now part.now cert.now) }
{
    let model = file_name(alloc, model)?;
    let part = file_name(alloc, part)?;
    let cert = file_name(alloc, cert)?;
    Ok(Job::Check { model, part, cert })
}

/// The job of splitting a model.
fn split_job(alloc: Global, model: &str, part: &str) -> Result<Job, AllocError>
    ensures { IfOk result (λ job. job ≡ Job.Split model.now part.now) }
{
    let model = file_name(alloc, model)?;
    let part = file_name(alloc, part)?;
    Ok(Job::Split { model, part })
}

/// The job of four words.
fn of_four(
    alloc: Global,
    command: &str,
    model: &str,
    part: &str,
    cert: &str,
) -> Result<Job, WordsFault>
    ensures { ReadsWords (command.now ∷ model.now ∷ part.now ∷ cert.now ∷ []) result }
{
    if !is_check(command) || !is_file_name(model) || !is_file_name(part) || !is_file_name(cert) {
        return Err(WordsFault::Usage);
    }
    match check_job(alloc, model, part, cert) {
        Ok(job) => Ok(job),
        Err(_) => Err(WordsFault::OutOfMemory),
    }
}

/// The job of three words.
fn of_three(alloc: Global, command: &str, model: &str, part: &str) -> Result<Job, WordsFault>
    ensures { ReadsWords (command.now ∷ model.now ∷ part.now ∷ []) result }
{
    if !is_split(command) || !is_file_name(model) || !is_file_name(part) {
        return Err(WordsFault::Usage);
    }
    match split_job(alloc, model, part) {
        Ok(job) => Ok(job),
        Err(_) => Err(WordsFault::OutOfMemory),
    }
}

/// The job that the words ask for.
pub(crate) fn read_words(alloc: Global, words: &[String]) -> Result<Job, WordsFault>
    ensures { ReadsWords (map string_bytes words.now) result }
{
    match words {
        [command, model, part, cert] => of_four(
            alloc,
            command.as_str(),
            model.as_str(),
            part.as_str(),
            cert.as_str(),
        ),
        [command, model, part] => of_three(alloc, command.as_str(), model.as_str(), part.as_str()),
        _ => Err(WordsFault::Usage),
    }
}
