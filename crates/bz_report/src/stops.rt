//! The line of a stop at a wide number.
ghost use Rattle.std.specs.Prelude.{◌≡◌, OnOk};
ghost use Rattle.bz_report.specs.Pages.{Adds};
ghost use Rattle.bz_report.specs.Reports.{last_entry, last_line, place_text, task_text, wide_line};

use crate::pages::Page;
use bz_event::{Entry, Event, Solved, TaskName, Why};
use bz_num::OutOfMemory;
use bz_tableau::WideAt;
use bz_text::Piece::{Count, Text};

/// Adds which task it is.
fn add_task(page: &mut Page, task: TaskName) -> Result<(), OutOfMemory>
    ensures { OnOk result (Adds page.old (task_text task) page.new) }
{
    match task {
        TaskName::Floor { block } => page.add(&[Text(b"floor "), Count(block as usize)]),
        TaskName::Node { node, .. } => page.add(&[Text(b"node "), Count(node as usize)]),
        TaskName::Sep { post, block } => page.add(&[
            Text(b"block "),
            Count(block as usize),
            Text(b" of post "),
            Count(post as usize),
        ]),
    }
}

/// Adds where the wide number is.
fn add_place(page: &mut Page, at: &WideAt) -> Result<(), OutOfMemory>
    ensures { OnOk result (Adds page.old (place_text at.now) page.new) }
{
    match at {
        WideAt::Build { row } => page.add(&[Text(b"build "), Count(*row as usize)]),
        WideAt::Pivot { column, .. } => page.add(&[Text(b"pivot "), Count(*column as usize)]),
        WideAt::Den { place, .. } => page.add(&[Text(b"den "), Count(*place as usize)]),
        WideAt::Fold { list, at, .. } => page.add(&[
            Text(b"fold "),
            Count(*list as usize),
            Text(b" "),
            Count(*at as usize),
        ]),
    }
}

/// Adds the line of the stop.
fn add_stop(page: &mut Page, stop: &Solved<WideAt>) -> Result<(), OutOfMemory>
    ensures { OnOk result (Adds page.old (wide_line stop.now) page.new) }
{
    page.add(&[Text(b"unresolved wide ")])?;
    add_task(page, stop.task)?;
    page.add(&[Text(b" ")])?;
    add_place(page, &stop.answer)?;
    page.add(&[Text(b"\n")])
}

/// Adds the line of the stop at a wide number that a history ends with, where it ends so.
pub(crate) fn add_last(page: &mut Page, history: &[Entry]) -> Result<(), OutOfMemory>
    ensures { OnOk result (Adds page.old (last_line (last_entry history.now)) page.new) }
{
    match history.last() {
        Some(
            Entry {
                event: Event::Stop {
                    why: Why::Wide(stop),
                },
                ..
            },
        ) => add_stop(page, stop),
        _ => Ok(()),
    }
}
