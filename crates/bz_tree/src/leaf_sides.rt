//! The sides that a leaf's multipliers are numbered by, found by their numbers: no list of them is made.
ghost use Rattle.std.specs.Prelude.{◌≡◌, ◌+◌, ◌*◌, ◌<◌, ◌∷◌, [], length};
ghost use Rattle.bz_algebra.specs.Sums.{coef};
ghost use Rattle.bz_cut.specs.Rows.{master_at, own_at, rhs_at};
ghost use Rattle.bz_tree.specs.LeafSides.{AreSides, IsNumbered, sides_in};

use bz_cut::Cut;
use bz_model::Ineq;
use bz_num::{SparseRow, narrow_negation};

/// A side by its place in its own list.
#[derive(Clone, Copy)]
pub enum Side {
    /// An inequality of the master.
    Row(usize),
    /// The upper side of the box at an integer column.
    Upper(usize),
    /// The lower side of the box at an integer column.
    Lower(usize),
    /// A cut.
    OfCut(usize),
}

/// The side with the number, where there are so many inequalities of the master, integer columns and cuts.
fn side_of(rows: usize, integers: usize, cuts: usize, n: usize) -> Side
    requires { n < rows + 2 * integers + cuts }
    ensures { IsNumbered rows integers cuts n result }
{
    if n < rows {
        return Side::Row(n);
    }
    let place = n - rows;
    if place / 2 >= integers {
        return Side::OfCut(place - 2 * integers);
    }
    if place % 2 == 0 {
        Side::Upper(place / 2)
    } else {
        Side::Lower(place / 2)
    }
}

/// The sides of a leaf in a box: the master's inequalities, the position and the two ends of each integer column, and
/// the cuts.
#[derive(Clone, Copy)]
pub struct Sides<'a> {
    pub rows: &'a [Ineq],
    /// What the inequalities have at each position, by their numbers.
    pub entries: &'a [SparseRow],
    pub positions: &'a [u32],
    pub lower: &'a [i128],
    pub upper: &'a [i128],
    pub cuts: &'a [Cut],
}

/// The number of a side with the value at one place.
fn only_at(place: u32, value: i128, wanted: u32) -> i128
    ensures { result ≡ coef ((place, value) ∷ []) wanted }
{
    if place == wanted { value } else { 0 }
}

impl Sides<'_> {
    /// The number of sides.
    pub fn count(&self) -> usize
        requires { AreSides self.now }
        ensures { result ≡ length (sides_in self.now) }
    {
        self.rows.len() + 2 * self.positions.len() + self.cuts.len()
    }

    /// The side with the number.
    fn numbered(&self, n: u32) -> Side
        requires { n < length (sides_in self.now) }
        ensures { IsNumbered (length self.now.rows.now) (length self.now.positions.now) (length self.now.cuts.now) n result }
    {
        side_of(
            self.rows.len(),
            self.positions.len(),
            self.cuts.len(),
            n as usize,
        )
    }

    /// The number of side `n` at a position of the master.
    pub fn in_master(&self, n: u32, position: u32) -> i128
        requires sides { AreSides self.now }
        requires within { n < length (sides_in self.now) }
        ensures { result ≡ coef (master_at (sides_in self.now) n) position }
    {
        match self.numbered(n) {
            Side::Row(i) => self.rows[i].own.at(position),
            Side::Upper(k) => only_at(self.positions[k], 1, position),
            Side::Lower(k) => only_at(self.positions[k], -1, position),
            Side::OfCut(i) => self.cuts[i].alpha.at(position),
        }
    }

    /// The number of side `n` at an eta, by its place.
    pub fn on_eta(&self, n: u32, eta: u32) -> i128
        requires sides { AreSides self.now }
        requires within { n < length (sides_in self.now) }
        ensures { result ≡ coef (own_at (sides_in self.now) n) eta }
    {
        match self.numbered(n) {
            Side::OfCut(i) => {
                let cut = &self.cuts[i];
                only_at(cut.block.saturating_sub(1), narrow_negation(cut.p0), eta)
            }
            _ => 0,
        }
    }

    /// The right side of side `n`.
    pub fn right_side(&self, n: u32) -> i128
        requires sides { AreSides self.now }
        requires within { n < length (sides_in self.now) }
        ensures { result ≡ rhs_at (sides_in self.now) n }
    {
        match self.numbered(n) {
            Side::Row(i) => self.rows[i].rhs,
            Side::Upper(k) => self.upper[k],
            Side::Lower(k) => narrow_negation(self.lower[k]),
            Side::OfCut(i) => self.cuts[i].beta,
        }
    }
}
