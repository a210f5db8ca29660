//! The values of a model's columns and its objective at the point that parts state, in lowest terms.
ghost use Rattle.std.specs.Prelude.{◌≡◌, ◌<◌, ◌≤◌, pos, ◌<ℤ◌, ◌*ℤ◌, length};
ghost use Rattle.bz_algebra.specs.Numbers.{IsNarrow};
ghost use Rattle.bz_event.specs.Nodes.{value_of as value_over};
ghost use Rattle.bz_model.specs.Parting.{blocks_of, width_of};
ghost use Rattle.bz_model.specs.Stated.{stated_fraction};
ghost use Rattle.bz_report.specs.LowestTerms.{lowest};
ghost use Rattle.bz_report.specs.Values.{HasObjective, HasValues, block_value, master_value, objective_at, value_at, value_in};

use crate::places::place_of;
use bz_judge::value_sum;
use bz_model::{BlockPart, Master, Parts, Split, Stated, stated_of};
use bz_num::Frac;

/// The fraction in lowest terms.
fn in_lowest_terms(num: i128, den: i128) -> Stated
    requires positive { pos 0 <ℤ den }
    requires narrow_num { IsNarrow num }
    requires narrow_den { IsNarrow den }
    ensures { stated_fraction result ≡ lowest (record { num = num; den = den }) }
{
    let fraction = Frac::reduced(num, den);
    Stated {
        num: fraction.num,
        den: fraction.den,
    }
}

/// The value at a position of the master.
fn in_master(master: &Master, position: u32) -> Stated
    requires positive { pos 0 <ℤ master.now.den }
    requires position { position < length master.now.x }
    ensures { stated_fraction result ≡ lowest (master_value master.now position) }
{
    in_lowest_terms(master.x.as_slice()[position as usize], master.den)
}

/// The denominator of a block's values.
fn denominator(master: &Master, block: &BlockPart) -> i128
    requires { IsNarrow (master.now.den *ℤ block.now.times) }
    ensures { result ≡ master.now.den *ℤ block.now.times }
{
    master.den * block.times
}

/// The value at a position of a block.
fn in_block(master: &Master, block: &BlockPart, position: u32) -> Stated
    requires den { pos 0 <ℤ master.now.den }
    requires times { pos 0 <ℤ block.now.times }
    requires narrow { IsNarrow (master.now.den *ℤ block.now.times) }
    requires position { position < length block.now.y }
    ensures { stated_fraction result ≡ lowest (block_value master.now block.now position) }
{
    in_lowest_terms(
        block.y.as_slice()[position as usize],
        denominator(master, block),
    )
}

/// The value at a position of a part.
fn value_in(split: &Split, parts: &Parts, part: u32, position: u32) -> Stated
    requires values { HasValues split.now parts.now }
    requires part { part ≤ blocks_of split.now.part }
    requires position { position < width_of split.now.part part }
    ensures { stated_fraction result ≡ lowest (value_in parts.now part position) }
{
    if part == 0 {
        return in_master(&parts.master, position);
    }
    let block = &parts.blocks.as_slice()[part as usize - 1];
    in_block(&parts.master, block, position)
}

/// The value of a column of the model.
pub(crate) fn value_at(split: &Split, parts: &Parts, column: u32) -> Stated
    requires values { HasValues split.now parts.now }
    requires column { column < length split.now.part }
    ensures { stated_fraction result ≡ lowest (value_at split.now.part parts.now column) }
{
    let place = place_of(split, column);
    value_in(split, parts, place.part, place.position)
}

/// What the master's point costs with its etas, times its denominator.
fn value_of(split: &Split, parts: &Parts) -> i128
    requires { HasObjective split.now parts.now }
    ensures { result ≡ value_over split.now.model split.now.part parts.now.master }
{
    let Ok(value) = value_sum(split, &parts.master) else {
        unreachable!()
    };
    value
}

/// The objective.
pub(crate) fn objective(split: &Split, parts: &Parts) -> Stated
    requires { HasObjective split.now parts.now }
    ensures { stated_fraction result ≡ lowest (objective_at split.now parts.now) }
{
    let value = value_of(split, parts);
    let Some(stated) = stated_of(split.model(), value, parts.master.den) else {
        unreachable!()
    };
    stated
}
