// The cone over the sides of the visible faces that have no mark on their reverse.
ghost use Rattle.std.specs.Prelude.{map, ◌+◌, ◌<◌, ◌≤◌, length};
ghost use Rattle.laws.specs.Lists.{Laid};
ghost use Rattle.rules.specs.Faces.{border};
ghost use Rattle.rules.specs.Building.{cone};
ghost use Rattle.border.specs.Marks.{FacesOver, Marked, unmarked};
ghost use Rattle.border.specs.Cone.{cone_side};

use crate::marks::{Marker, Marks};
use crate::side::{Side, sides_of};

// The new face on side s of a visible face, if the side is of the border.
#[tactic(auto, using(laws::proofs::Tables::laid_one, laws::proofs::Tables::laid_none))]
fn add_side(table: &mut [[u16; 3]], at: usize, marks: &Marks, s: Side, k: Marker) -> usize
    requires { (s.from < marks.now.width) × (s.to < marks.now.width)
        × (at + length (cone_side (unmarked marks.now.table.now marks.now.width k.touch.0) k.touch.0 s) ≤ length table.old) }
    ensures { Laid at (cone_side (unmarked marks.now.table.now marks.now.width k.touch.0) k.touch.0 s) table.old result table.new }
{
    if marks.is_marked(s.reversed(), k) {
        return at;
    }
    table[at] = [s.from, s.to, k.touch.0];
    at + 1
}

// The cone from k over the border of the visible faces, whose sides are marked. The table comes with the place where it is free, as a
// step of building has it: the faces before that place are its own.
pub(crate) fn add_marked(
    table: &mut [[u16; 3]],
    start: usize,
    seen: &[[u16; 3]],
    marks: &Marks,
    k: Marker,
) -> usize
    requires { Marked marks.now.width k.touch.0 seen.now marks.now.table.now × FacesOver marks.now.width seen.now
        × (start + length (map (cone k.touch.0) (border seen.now)) ≤ length table.old) }
    ensures { Laid start (map (cone k.touch.0) (border seen.now)) table.old result table.new }
{
    let mut at = start;
    for &f in seen {
        for s in sides_of(f) {
            at = add_side(table, at, marks, s, k);
        }
    }
    at
}
