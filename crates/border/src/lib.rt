// The border of the faces that a touch sees, and the cone over it: a step of building that needs no V. None is a call.
#![tactic(auto)]

mod cone;
mod marks;
mod side;

ghost use Rattle.std.specs.Prelude.{◌≡◌, map, ◌+◌, ◌<◌, ◌≤◌, length};
ghost use Rattle.laws.specs.Lists.{Laid};
ghost use Rattle.touches.specs.Limits.{most_touches};
ghost use Rattle.rules.specs.Faces.{border};
ghost use Rattle.rules.specs.Building.{cone};
ghost use Rattle.border.specs.Marks.{Fresh, FacesOver};

use crate::cone::add_marked;
use crate::marks::Marker;
pub use crate::marks::Marks;
use touches::TouchNo;

// The cone from k over the border of the faces seen, from the free place at on: the next free place. No mark is of k or a later
// touch (`Fresh`), and the faces are over the table's touches (`FacesOver`): both speak of two arguments, so no type holds them.
pub fn add_cone(
    table: &mut [[u16; 3]],
    at: usize,
    seen: &[[u16; 3]],
    marks: &mut Marks,
    k: TouchNo,
) -> usize
    requires { Fresh k.0 marks.old.table.now × FacesOver marks.old.width seen.now
        × (k.0 < most_touches) × (at + length (map (cone k.0) (border seen.now)) ≤ length table.old) }
    ensures faces { Laid at (map (cone k.0) (border seen.now)) table.old result table.new }
    ensures marks { Fresh (k.0 + 1) marks.new.table.now }
    ensures same_table { marks.new.table.ghost_name ≡ marks.old.table.ghost_name }
    ensures same_width { marks.new.width ≡ marks.old.width }
{
    let k = Marker { touch: k };
    marks.mark_all(seen, k);
    add_marked(table, at, seen, marks, k)
}
