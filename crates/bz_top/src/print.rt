//! The texts that the program prints. None of them takes memory.
ghost use Rattle.std.specs.Prelude.{◌≡◌, ◌++◌, ◌<◌, codes, length};
ghost use Rattle.bz_text.specs.Putting.{Puts};
ghost use Rattle.bz_text.specs.Texts.{line};
ghost use Rattle.bz_top.specs.Ends.{refusal_text};
ghost use Rattle.bz_top.specs.Texts.{cert_fault, check_fault, check_word, column_named, holds_text, memory_text, mps_fault, part_fault, row_named, split_fault, text_fault, usage_text};

use crate::job::Job;
use crate::loading::file_name;
use crate::said::Holding;
use crate::status::Refusal;
use bz_cert::CertFault;
use bz_check::CheckFault;
use bz_facts::MpsFault;
use bz_io::{PutFailed, Sink, put_all};
use bz_model::Model;
use bz_part::PartFault;
use bz_split::{SplitFault, Unsplit};
use bz_text::Piece::{Count, Text};
use bz_text::{put_fraction, put_line, put_numbered, put_numbered_twice, put_pieces};

/// Puts the line of a certificate that holds.
pub(crate) fn put_holds<O: Sink>(out: &mut O, holding: Holding) -> Result<(), PutFailed>
    ensures { Puts O.taken O.faults out.old out.new (holds_text holding) result }
{
    match holding {
        Holding::Optimal(stated) => put_fraction(
            out,
            b"certificate holds: optimal",
            stated.num,
            stated.den,
        ),
        Holding::Infeasible => put_all(out, b"certificate holds: infeasible\n"),
        Holding::Unbounded => put_all(out, b"certificate holds: unbounded\n"),
    }
}

/// Puts the line of a fault of a text: what the text is of, its line, and the number and the name of its kind.
fn put_text_fault<'x, O: Sink>(
    out: &mut O,
    file: &'x [u8],
    place: u32,
    kind: u32,
    name: &'x [u8],
) -> Result<(), PutFailed>
    ensures { Puts O.taken O.faults out.old out.new (line (text_fault file.now place kind name.now)) result }
{
    put_pieces(
        out,
        &[
            Text(file),
            Text(b" line "),
            Count(place as usize),
            Text(b": "),
            Count(kind as usize),
            Text(b" "),
            Text(name),
            Text(b"\n"),
        ],
    )
}

/// Puts the line of a fault of a model's text.
fn put_mps_fault<O: Sink>(out: &mut O, fault: MpsFault) -> Result<(), PutFailed>
    ensures { Puts O.taken O.faults out.old out.new (line (mps_fault fault)) result }
{
    let kind = fault.kind;
    put_text_fault(out, b"model", fault.line, kind.number(), kind.name())
}

/// Puts the line of a fault of a partition's text.
fn put_part_fault<O: Sink>(out: &mut O, fault: PartFault) -> Result<(), PutFailed>
    ensures { Puts O.taken O.faults out.old out.new (line (part_fault fault)) result }
{
    let kind = fault.kind;
    put_text_fault(out, b"partition", fault.line, kind.number(), kind.name())
}

/// Puts the line of a fault of a certificate's text.
fn put_cert_fault<O: Sink>(out: &mut O, fault: CertFault) -> Result<(), PutFailed>
    ensures { Puts O.taken O.faults out.old out.new (line (cert_fault fault)) result }
{
    let kind = fault.kind;
    put_text_fault(out, b"certificate", fault.line, kind.number(), kind.name())
}

/// Puts the line of a fault of the check.
fn put_check_fault<O: Sink>(out: &mut O, fault: CheckFault) -> Result<(), PutFailed>
    ensures { Puts O.taken O.faults out.old out.new (line (check_word (check_fault fault))) result }
{
    match fault {
        CheckFault::Shape => put_line(out, b"certificate: ", b"Shape"),
        CheckFault::Point { part, at } => put_numbered_twice(
            out,
            b"certificate: ",
            b"Point",
            part,
            at,
        ),
        CheckFault::Cost { block } => put_numbered(out, b"certificate: ", b"Cost", block),
        CheckFault::Value => put_line(out, b"certificate: ", b"Value"),
        CheckFault::Ray => put_line(out, b"certificate: ", b"Ray"),
        CheckFault::Cut { i } => put_numbered(out, b"certificate: ", b"Cut", i),
        CheckFault::Cover { node } => put_numbered(out, b"certificate: ", b"Cover", node),
        CheckFault::Leaf { node } => put_numbered(out, b"certificate: ", b"Leaf", node),
        CheckFault::Wide { list, at } => put_numbered_twice(
            out,
            b"certificate: ",
            b"Wide",
            list,
            at,
        ),
        CheckFault::OutOfMemory => put_line(out, b"certificate: ", b""),
    }
}

/// The name of a row.
fn row_name(model: &Model, row: u32) -> &[u8]
    requires { row < length model.now.rows }
    ensures { result.now ≡ row_named model.now row }
{
    model.rows.as_slice()[row as usize].name.as_slice()
}

/// The name of a column.
fn column_name(model: &Model, column: u32) -> &[u8]
    requires { column < length model.now.columns }
    ensures { result.now ≡ column_named model.now column }
{
    model.columns.as_slice()[column as usize].name.as_slice()
}

/// Puts the line of why a model has no split.
fn put_unsplit<O: Sink>(out: &mut O, unsplit: &Unsplit) -> Result<(), PutFailed>
    ensures { Puts O.taken O.faults out.old out.new (line (codes "split: " ++ split_fault unsplit.now.model unsplit.now.part unsplit.now.fault)) result }
{
    let model = &unsplit.model;
    match unsplit.fault {
        SplitFault::Joins { row, a, b } => {
            put_numbered_twice(out, b"split: joins ", row_name(model, row), a, b)
        },
        SplitFault::IntegerInBlock { column } => put_numbered(
            out,
            b"split: integer in block ",
            column_name(model, column),
            unsplit.part.as_slice()[column as usize],
        ),
        SplitFault::IntegerOpen { column } => {
            put_line(out, b"split: integer open ", column_name(model, column))
        },
        SplitFault::OpenMaster { column } => {
            put_line(out, b"split: open master ", column_name(model, column))
        },
        SplitFault::TooLarge { part, count } => {
            put_numbered_twice(out, b"split: too large", b"", part, count)
        },
        SplitFault::OutOfMemory => put_line(out, b"split: ", b""),
    }
}

/// Puts that there is no memory.
pub(crate) fn put_out_of_memory<O: Sink>(out: &mut O) -> Result<(), PutFailed>
    ensures { Puts O.taken O.faults out.old out.new memory_text result }
{
    put_all(out, b"out of memory\n")
}

/// Puts the text of a refusal of the job.
pub(crate) fn put_refusal<O: Sink>(
    out: &mut O,
    job: &Job,
    refusal: &Refusal,
) -> Result<(), PutFailed>
    ensures { Puts O.taken O.faults out.old out.new (refusal_text job.now refusal.now) result }
{
    match refusal {
        Refusal::Model(fault) => put_mps_fault(out, *fault),
        Refusal::Part(fault) => put_part_fault(out, *fault),
        Refusal::Split(unsplit) => put_unsplit(out, unsplit),
        Refusal::Cert(fault) => put_cert_fault(out, *fault),
        Refusal::Check(fault) => put_check_fault(out, *fault),
        Refusal::Read(file) => put_line(out, b"read fault: ", file_name(job, *file).as_bytes()),
        Refusal::TooLong(file) => put_line(out, b"too long: ", file_name(job, *file).as_bytes()),
        Refusal::Memory => put_out_of_memory(out),
    }
}

/// Puts the usage line.
pub(crate) fn put_usage<O: Sink>(out: &mut O) -> Result<(), PutFailed>
    ensures { Puts O.taken O.faults out.old out.new usage_text result }
{
    put_all(
        out,
        b"usage: solve MODEL PART CERT [--budget=N] [--workers=N] | check MODEL PART CERT | split MODEL PART | try N\n",
    )
}
