//! Sums of the sides of a leaf, each times its multiplier.
ghost use Rattle.std.specs.Prelude.{ℕ, ℤ, ◌≡◌, ◌+◌, ◌*◌, ◌^◌, ◌<◌, ◌≤◌, pos, negsuc, OnOk, length};
ghost use Rattle.std.proofs.Props.{props};
ghost use Rattle.bz_num.specs.Fold.{fold_of, pairs_at};
ghost use Rattle.bz_cut.specs.Rows.{AreMultipliers};
ghost use Rattle.bz_tree.specs.LeafSides.{AreSides, sides_in};
ghost use Rattle.bz_num.specs.SparseSums.{Steps};
ghost use Rattle.bz_judge.specs.SideNumbers.{master_number, number_in, numbers_from};

use bz_num::{
    Folding, Numbers, SparseRow, WideSum, fold_entries, fold_entry, fold_from_column, sum_at,
};
use bz_tree::Sides;

/// One number of a side.
#[derive(Clone, Copy)]
pub enum Place {
    /// At a position of the master.
    Master(u32),
    /// At an eta, that of block b at place b - 1.
    Eta(u32),
    /// The right side.
    Right,
}

/// The number of side `n`.
fn number_at(sides: &Sides, place: Place, n: u32) -> i128
    requires sides { AreSides sides.now }
    requires within { n < length (sides_in sides.now) }
    ensures { result ≡ number_in (sides_in sides.now) place n }
{
    match place {
        Place::Master(position) => sides.in_master(n, position),
        Place::Eta(eta) => sides.on_eta(n, eta),
        Place::Right => sides.right_side(n),
    }
}

/// The numbers of the sides at one place.
#[derive(Clone, Copy)]
struct SideNumbers<'a> {
    sides: &'a Sides<'a>,
    place: Place,
    ghost are_sides: { AreSides sides.now } by { Prim.hlevel props },
}

impl Numbers for SideNumbers<'_> {
    ghost count = { λ n. length (sides_in n.sides.now) };

    ghost at = { λ n. number_in (sides_in n.sides.now) n.place };

    fn number(&self, n: u32) -> i128 {
        number_at(self.sides, self.place, n)
    }
}

/// Takes the multipliers of the master's inequalities, by what these have at the position.
fn fold_rows(
    sides: &Sides,
    multipliers: &SparseRow,
    position: u32,
    folding: &mut Folding,
) -> Result<(), WideSum>
    requires sides { AreSides sides.now }
    requires inside { folding.old.count ≤ length multipliers.now }
    ensures inside { OnOk result (folding.new.count ≤ length multipliers.now) }
    ensures steps { Steps multipliers.now (master_number sides.now position)
        (numbers_from (length sides.now.rows.now) (master_number sides.now position)) folding.old folding.new result }
{
    match sides.entries.get(position as usize) {
        Some(entries) => fold_entries(multipliers, entries, folding),
        None => Ok(()),
    }
}

/// Takes the multipliers of the upper and the lower side of the box at a place, which have 1 and -1.
fn fold_ends(multipliers: &SparseRow, first: usize, folding: &mut Folding) -> Result<(), WideSum>
    requires inside { folding.old.count ≤ length multipliers.now }
    requires room { first + 1 < 2 ^ 64 }
    ensures inside { OnOk result (folding.new.count ≤ length multipliers.now) }
    ensures steps { (f : ℕ → ℤ) → f first ≡ pos 1 → f (first + 1) ≡ negsuc 0
        → Steps multipliers.now (numbers_from first f) (numbers_from (first + 2) f) folding.old folding.new result }
{
    fold_entry(multipliers, first, 1, folding)?;
    fold_entry(multipliers, first + 1, -1, folding)
}

/// Takes the multipliers of the sides of the box, by the places of the integer columns at the position.
fn fold_box(
    sides: &Sides,
    multipliers: &SparseRow,
    position: u32,
    folding: &mut Folding,
) -> Result<(), WideSum>
    requires sides { AreSides sides.now }
    requires inside { folding.old.count ≤ length multipliers.now }
    ensures inside { OnOk result (folding.new.count ≤ length multipliers.now) }
    ensures steps { Steps multipliers.now
        (numbers_from (length sides.now.rows.now) (master_number sides.now position))
        (numbers_from (length sides.now.rows.now + 2 * length sides.now.positions.now)
        (master_number sides.now position))
        folding.old folding.new result }
{
    for (k, integer) in sides.positions.iter().enumerate() {
        if *integer == position {
            fold_ends(multipliers, sides.rows.len() + 2 * k, folding)?;
        }
    }
    Ok(())
}

/// The sum of the sides' numbers at a position of the master, each times its multiplier, or its first wide place. Of
/// the inequalities and the box it goes over those alone that have a number there. It takes no memory.
pub fn position_sum(sides: &Sides, multipliers: &SparseRow, position: u32) -> Result<i128, WideSum>
    requires sides { AreSides sides.now }
    requires multipliers { AreMultipliers (length (sides_in sides.now)) multipliers.now }
    ensures { result ≡ fold_of (pairs_at multipliers.now (master_number sides.now position)) }
{
    let mut folding = Folding::new();
    fold_rows(sides, multipliers, position, &mut folding)?;
    fold_box(sides, multipliers, position, &mut folding)?;
    let place = Place::Master(position);
    let first_cut = sides.rows.len() + 2 * sides.positions.len();
    fold_from_column(
        multipliers,
        first_cut,
        &SideNumbers { sides, place },
        folding,
    )
}

/// The sum of the sides' numbers, each times its multiplier, or its first wide place. It takes no memory.
pub fn side_sum(sides: &Sides, multipliers: &SparseRow, place: Place) -> Result<i128, WideSum>
    requires sides { AreSides sides.now }
    requires multipliers { AreMultipliers (length (sides_in sides.now)) multipliers.now }
    ensures { result ≡ fold_of (pairs_at multipliers.now (number_in (sides_in sides.now) place)) }
{
    sum_at(multipliers, &SideNumbers { sides, place })
}
