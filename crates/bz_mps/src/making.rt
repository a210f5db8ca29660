//! The model that facts make.
ghost use Rattle.std.specs.Prelude.{IfOk};
ghost use Rattle.bz_facts.specs.SoundFacts.{AreSound};
ghost use Rattle.bz_mps.specs.FactModel.{IsModelOf, end_tests};
ghost use Rattle.bz_mps.specs.TestAnswers.{Tests};

use crate::columns_made::{columns_of, name_of};
use crate::row_facts::by_row;
use crate::rows_made::{objective_of, objective_place, rows_of};
use bz_facts::{Facts, MpsStop};
use bz_model::Model;
use bz_num::Items;
use std::alloc::Global;

/// The model that facts make, or the first end test that fails: of the columns in order, an upper bound that is negative by
/// itself and then crossed bounds, and then a wide number of the objective and of the rows in order.
pub(crate) fn model_of(alloc: Global, facts: &Facts) -> Result<Model, MpsStop>
    requires { AreSound facts.now }
    ensures model { IfOk result (IsModelOf facts.now) }
    ensures tests { Tests (end_tests facts.now) result }
{
    let columns = columns_of(alloc, facts)?;
    let rows = by_row(alloc, facts)?;
    let objective = objective_of(alloc, facts, &rows)?;
    let rows = rows_of(alloc, facts, &rows)?;
    let place = objective_place(facts.row_types.as_slice());
    let name = name_of(alloc, facts.row_names.at(place))?;
    Ok(Model {
        columns: Items::from_vec(columns),
        rows: Items::from_vec(rows),
        objective: name,
        cost: objective.cost,
        constant: objective.constant,
        scale: objective.scale,
        maximise: facts.maximise,
    })
}
