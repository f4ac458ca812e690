//! The laws of grids.

ghost use Rattle.std.specs.Prelude.{◌≡◌, ℕ, ◌<◌, List, [], length, slice_index_or};
ghost use Rattle.fisca_grid.specs.Grid.{grid};
ghost use Rattle.fisca_writer.specs.Odometer.{places_at, product_of};

/// A grid has a position for each tuple of places, of which the first place turns fastest: as many as the product of the
/// counts, and the places at a position are the tuple that stands there among all.
pub fn positions_are_tuples()
    ensures size { (counts : List ℕ) → length (grid counts) ≡ product_of counts }
    ensures places { (counts : List ℕ) (position : ℕ) → position < product_of counts → slice_index_or (grid counts) position [] ≡ places_at counts position }
{}
