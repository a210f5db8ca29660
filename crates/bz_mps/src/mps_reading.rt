//! Reading a model's text.
ghost use Rattle.std.specs.Prelude.{◌<◌, ◌≤◌, ◌^◌, ◌-◌, IfErr, IfOk, bytes_eq, length, map};
ghost use Rattle.std.specs.List.{IsDistinct};
ghost use Rattle.bz_model.specs.Strict.{HasItsColumns};
ghost use Rattle.bz_facts.specs.FactTexts.{StopsBy};
ghost use Rattle.bz_mps.specs.FactModel.{ModelOf, MpsFaultOf};

use crate::making::model_of;
use bz_facts::{MpsStop, read_facts};
use bz_model::Model;
use std::alloc::Global;

/// Reads a model's text. It answers the text's model; or else the text's first fault with its line, or that there is no
/// memory. The model has its columns, rows and names within their limits.
pub fn read_mps(alloc: Global, text: &[u8]) -> Result<Model, MpsStop>
    requires { length text.now < 2 ^ 32 - 1 }
    ensures model { IfOk result (ModelOf text.now) }
    ensures fault { IfErr result (StopsBy (MpsFaultOf text.now)) }
    ensures terms { IfOk result HasItsColumns }
    ensures few_columns { IfOk result (λ m. length m.columns ≤ 2048) }
    ensures few_rows { IfOk result (λ m. length m.rows ≤ 2048) }
    ensures names { IfOk result (λ m. IsDistinct bytes_eq (map (λ c. c.name) m.columns)) }
{
    let facts = read_facts(alloc, text)?;
    model_of(alloc, &facts)
}
