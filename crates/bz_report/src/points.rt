//! The lines of points, directions and objectives.
ghost use Rattle.std.specs.Prelude.{◌≡◌, ◌≤◌, ◌++◌, codes, length, OnOk};
ghost use Rattle.bz_model.specs.Parting.{blocks_of, width_of};
ghost use Rattle.bz_report.specs.Pages.{Adds};
ghost use Rattle.bz_report.specs.Reports.{column_lines, direction_text, number_of, objective_line, point_text, printed_value};
ghost use Rattle.bz_report.specs.Values.{HasObjective, HasValues};

use crate::pages::Page;
use crate::values::{objective, value_at};
use bz_floor::placed;
use bz_history::FallingRay;
use bz_model::{Column, Parts, Split, Stated};
use bz_num::OutOfMemory;
use std::alloc::Global;

/// Adds a line for each column, with its value.
fn add_values(page: &mut Page, split: &Split, parts: &Parts) -> Result<(), OutOfMemory>
    requires { HasValues split.now parts.now }
    ensures { OnOk result
        (Adds page.old (column_lines (printed_value split.now parts.now) 0 split.now.model.columns) page.new) }
{
    let columns = split.model().columns.as_slice();
    'lines: for (place, column) in columns.iter().enumerate() {
        let value = value_at(split, parts, place as u32);
        page.add_fraction(column.name.as_slice(), value)?;
    }
    Ok(())
}

/// Adds the point of the parts.
pub(crate) fn add_point(page: &mut Page, split: &Split, parts: &Parts) -> Result<(), OutOfMemory>
    requires { HasValues split.now parts.now }
    ensures { OnOk result (Adds page.old (point_text split.now parts.now) page.new) }
{
    page.add_line(b"point")?;
    add_values(page, split, parts)
}

/// Adds a word and the objective of the parts.
pub(crate) fn add_objective(
    page: &mut Page,
    word: &[u8],
    split: &Split,
    parts: &Parts,
) -> Result<(), OutOfMemory>
    requires { HasObjective split.now parts.now }
    ensures { OnOk result (Adds page.old (objective_line word.now split.now parts.now) page.new) }
{
    page.add_fraction(word, objective(split, parts))
}

/// Adds a line for each column, with its number in a list.
fn add_steps(page: &mut Page, columns: &[Column], steps: &[i128]) -> Result<(), OutOfMemory>
    requires { length steps.now ≡ length columns.now }
    ensures { OnOk result (Adds page.old (column_lines (number_of steps.now) 0 columns.now) page.new) }
{
    'lines: for (place, column) in columns.iter().enumerate() {
        let step = Stated {
            num: steps[place],
            den: 1,
        };
        page.add_fraction(column.name.as_slice(), step)?;
    }
    Ok(())
}

/// Adds the direction over all columns of the model.
pub(crate) fn add_direction(
    alloc: Global,
    page: &mut Page,
    split: &Split,
    ray: &FallingRay,
) -> Result<(), OutOfMemory>
    requires last { ray.now.block ≤ blocks_of split.now.part }
    requires numbers { length ray.now.d ≡ width_of split.now.part ray.now.block }
    ensures { OnOk result (Adds page.old (direction_text split.now ray.now) page.new) }
{
    let steps = placed(alloc, split, ray.block, ray.d.as_slice())?;
    page.add_line(b"direction")?;
    add_steps(page, split.model().columns.as_slice(), steps.as_slice())
}
