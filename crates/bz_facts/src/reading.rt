//! The reader of the facts of a model's text.
ghost use Rattle.std.specs.Prelude.{◌≡◌, ◌<◌, ◌-◌, ◌^◌, [], None, false, length, map, IfOk, MatchResult};
ghost use Rattle.bz_lines.specs.LineReading.{read_line};
ghost use Rattle.bz_facts.specs.declared.records.Facts.{Facts};
ghost use Rattle.bz_facts.specs.FactTexts.{IsFactsOf, IsLineFault, StopsBy};
ghost use Rattle.bz_facts.specs.LineAnswers.{PassesLine};
ghost use Rattle.bz_facts.specs.LineSteps.{DataLineAdded, HeaderLineAdded, LineAdded, LinePassed, data_tests_by, header_tests_by, line_tests_by};
ghost use Rattle.bz_facts.specs.SoundFacts.{AreSound};
ghost use Rattle.bz_facts.specs.TableFacts.{AreTableFacts, AreEmpty, stop_at as stop_on};

use crate::bound_lines::on_bound_line;
use crate::column_lines::on_column_line;
use crate::faults::{MpsFault, MpsKind, MpsStop};
use crate::given_lines::on_given_line;
use crate::headers::{is_end, on_header};
use crate::records::{Facts, Heading};
use crate::refusals::Refusal;
use crate::row_lines::on_row_line;
use crate::sense_lines::on_sense_line;
use crate::tables::{
    Begun, BoundTable, Columns, Entries, GivenTable, Givens, Headers, Noted, RowTypes, Rows, Sense,
    Tables,
};
use bz_lines::{Line, Lines, Names};
use bz_num::Items;
use std::alloc::Global;

/// The tables of right sides or ranges before any line.
fn no_givens<'a>(alloc: Global) -> GivenTable<'a>
    ensures set { result.set ≡ None }
    ensures givens { result.givens ≡ [] }
{
    GivenTable {
        set: Noted::none(),
        givens: Givens::new(alloc),
    }
}

/// The tables before any line.
fn no_tables<'a>(alloc: Global) -> Tables<'a>
    ensures { AreEmpty result }
{
    Tables {
        headers: Headers {
            section: None,
            begun: Begun {
                any: false,
                sense: false,
                rows: false,
                columns: false,
                rhs: false,
                ranges: false,
                bounds: false,
            },
        },
        sense: Sense {
            maximise: false,
            told: false,
        },
        rows: Rows {
            names: Names::new(alloc),
            types: RowTypes::new(alloc),
        },
        columns: Columns {
            names: Names::new(alloc),
            integers: Vec::new(alloc),
            entries: Entries::new(alloc),
            marked: false,
            current: Noted::none(),
        },
        right_sides: no_givens(alloc),
        ranges: no_givens(alloc),
        bounds: BoundTable {
            set: Noted::none(),
            lines: Vec::new(alloc),
        },
    }
}

/// Reads a header.
fn on_header_line<'a>(tables: &mut Tables<'a>, fields: &[&'a [u8]]) -> Result<(), Refusal>
    ensures { let fs = map (λ f. f.now) fields.now in let t = tables.old in PassesLine (header_tests_by t.headers t.sense t.columns.marked t.rows.types fs) (λ _. HeaderLineAdded fs t tables.new) result }
{
    on_header(
        &mut tables.headers,
        &mut tables.sense,
        tables.columns.marked,
        &tables.rows.types,
        fields,
    )?;
    tables.columns.current = Noted::none();
    Ok(())
}

/// Reads a data line, whose number is given.
fn on_data_line<'a>(tables: &mut Tables<'a>, line: u32, fields: &[&'a [u8]]) -> Result<(), Refusal>
    requires rows { length tables.old.rows.names < 2 ^ 32 }
    requires columns { length tables.old.columns.names < 2 ^ 32 }
    ensures { let fs = map (λ f. f.now) fields.now in PassesLine (data_tests_by tables.old.headers.section tables.old fs) (λ _. DataLineAdded tables.old.headers.section line fs tables.old tables.new) result }
{
    match tables.headers.section {
        Some(Heading::ObjSense) => {
            on_sense_line(&mut tables.sense, fields)?;
            Ok(())
        }
        Some(Heading::Rows) => on_row_line(&mut tables.rows, fields),
        Some(Heading::Columns) => {
            on_column_line(&mut tables.columns, &tables.rows.names, fields)
        }
        Some(Heading::Rhs) => on_given_line(&mut tables.right_sides, &tables.rows.names, fields),
        Some(Heading::Ranges) => on_given_line(&mut tables.ranges, &tables.rows.names, fields),
        Some(Heading::Bounds) => {
            on_bound_line(&mut tables.bounds, &tables.columns.names, line, fields)
        }
        _ => Err(Refusal::Fault(MpsKind::Section)),
    }
}

/// Reads a line.
fn on_line<'a>(tables: &mut Tables<'a>, line: &Line<'a>) -> Result<(), Refusal>
    requires rows { length tables.old.rows.names < 2 ^ 32 }
    requires columns { length tables.old.columns.names < 2 ^ 32 }
    ensures { PassesLine (line_tests_by tables.old (read_line line.now)) (λ _. LineAdded (read_line line.now) tables.old tables.new) result }
{
    if line.header {
        on_header_line(tables, line.fields.as_slice())
    } else {
        on_data_line(tables, line.number, line.fields.as_slice())
    }
}

/// The stop at a line that is refused.
fn stop_at(line: u32, refusal: Refusal) -> MpsStop
    ensures { result ≡ stop_on line refusal }
{
    match refusal {
        Refusal::Fault(kind) => MpsStop::Fault(MpsFault { line, kind }),
        Refusal::OutOfMemory => MpsStop::OutOfMemory,
    }
}

/// The facts of the tables, with the line of ENDATA. It takes no memory.
fn facts_of(tables: Tables<'_>, end: u32) -> Facts<'_>
    ensures { AreTableFacts tables.entry end result }
{
    let Tables {
        headers: _,
        sense,
        rows,
        columns,
        right_sides,
        ranges,
        bounds,
    } = tables;
    let Rows { names, types } = rows;
    let Columns {
        names: columns,
        integers,
        entries,
        marked: _,
        current: _,
    } = columns;
    let GivenTable {
        set: _,
        givens: right_sides,
    } = right_sides;
    let GivenTable {
        set: _,
        givens: ranges,
    } = ranges;
    let BoundTable { set: _, lines } = bounds;
    Facts {
        maximise: sense.maximise,
        row_names: names,
        row_types: types.into_items(),
        columns,
        integers: Items::from_vec(integers),
        entries: entries.into_items(),
        right_sides: right_sides.into_items(),
        ranges: ranges.into_items(),
        bounds: Items::from_vec(lines),
        end,
    }
}

/// Reads a line, and says whether it is that of ENDATA.
fn pass_line<'a>(tables: &mut Tables<'a>, line: &Line<'a>) -> Result<bool, MpsStop>
    requires rows { length tables.old.rows.names < 2 ^ 32 }
    requires columns { length tables.old.columns.names < 2 ^ 32 }
    ensures { LinePassed (read_line line.now) tables.old result tables.new }
{
    match on_line(tables, line) {
        Ok(()) => Ok(line.header && is_end(tables.headers.section)),
        Err(refusal) => Err(stop_at(line.number, refusal)),
    }
}

/// Reads a text's lines into the tables, and gives the line of ENDATA.
fn read_lines<'a>(alloc: Global, text: &'a [u8], tables: &mut Tables<'a>) -> Result<u32, MpsStop>
    requires few { length text.now < 2 ^ 32 - 1 }
    requires empty { AreEmpty tables.old }
    ensures { MatchResult result (λ end. (f : Facts) → AreTableFacts tables.new end f → IsFactsOf text.now f × AreSound f) (StopsBy (IsLineFault text.now)) }
{
    let mut lines = Lines::new(text);
    'lines: while let Some(line) = lines.next(alloc)? {
        let last = pass_line(tables, &line)?;
        if last {
            return Ok(line.number);
        }
    }
    Err(MpsStop::Fault(MpsFault {
        line: lines.number(),
        kind: MpsKind::NoEnd,
    }))
}

/// The facts that the lines of a model's text state. `Fault` is exactly that of a text one of whose lines fails, or that
/// ends before ENDATA: the first such line and its first fault, or the number of all lines. Facts fit one another and the
/// limits. Each line is passed once.
pub fn read_facts<'a>(alloc: Global, text: &'a [u8]) -> Result<Facts<'a>, MpsStop>
    requires { length text.now < 2 ^ 32 - 1 }
    ensures facts { MatchResult result (IsFactsOf text.now) (StopsBy (IsLineFault text.now)) }
    ensures sound { IfOk result AreSound }
{
    let mut tables = no_tables(alloc);
    let end = read_lines(alloc, text, &mut tables)?;
    Ok(facts_of(tables, end))
}
