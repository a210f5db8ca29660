//! Where the columns of a model stand in the parts of a split.
ghost use Rattle.std.specs.Prelude.{◌≡◌, ◌≢◌, ◌<◌, ◌≤◌, None, IfSome, length};
ghost use Rattle.bz_model.specs.Parting.{blocks_of, part_of, position_of};

use bz_model::Split;

/// A column's part, and its position there.
#[derive(Clone, Copy)]
pub(crate) struct Place {
    pub(crate) part: u32,
    pub(crate) position: u32,
}

/// The column's position in a part, where it is in that part.
fn position_in(split: &Split, part: u32, column: u32) -> Option<u32>
    requires column { column < length split.now.part }
    requires part { part ≤ blocks_of split.now.part }
    ensures found { IfSome result (λ position. position ≡ position_of split.now.part column) }
    ensures inside { IfSome result (λ position. part_of split.now.part column ≡ part) }
    ensures outside { result ≡ None → part_of split.now.part column ≢ part }
{
    match split.columns_of(part).binary_search(&column) {
        Ok(position) => Some(position as u32),
        Err(_) => None,
    }
}

/// The column's place.
pub(crate) fn place_of(split: &Split, column: u32) -> Place
    requires { column < length split.now.part }
    ensures part { result.part ≡ part_of split.now.part column }
    ensures position { result.position ≡ position_of split.now.part column }
{
    for part in 0..split.blocks() + 1 {
        if let Some(position) = position_in(split, part, column) {
            return Place { part, position };
        }
    }
    unreachable!()
}
