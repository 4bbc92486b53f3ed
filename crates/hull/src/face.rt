// V of a face, given by its touch numbers, and a point; and whether the face holds the point. That the numbers are those of touches
// (`FaceOf`) stands in the contracts: no type of a face knows the list.
ghost use Rattle.std.specs.Prelude.{◌≡◌};
ghost use Rattle.touches.specs.Touches.{touch, plain};
ghost use Rattle.volume.specs.Volume.{most_volume};
ghost use Rattle.rules.specs.Faces.{face_vol};
ghost use Rattle.rules.specs.Placing.{holds};
ghost use Rattle.rules.specs.Demands.{FaceOf};
ghost use Rattle.points.specs.Sizes.{Number};

use crate::four_corner::volume;
use points::touch::corners;
use touches::{Place, TouchList, TouchNo};
use triangles::contains;

pub(crate) fn face_volume(list: &TouchList<'_>, f: [TouchNo; 3], q: Place) -> i64
    requires { FaceOf list.now.lent.now (plain f) }
    ensures { Number most_volume (face_vol (touch list.now.lent.now) (plain f) q) result }
{
    let [a, b, c] = corners(list, f);
    volume(a, b, c, q)
}

// V of the face and q is known: v.
pub(crate) fn face_holds(list: &TouchList<'_>, f: [TouchNo; 3], q: Place, v: i64) -> bool
    requires { FaceOf list.now.lent.now (plain f) × Number most_volume (face_vol (touch list.now.lent.now) (plain f) q) v }
    ensures { result ≡ holds (touch list.now.lent.now) (plain f) q }
{
    if v != 0 {
        return false;
    }
    let [a, b, c] = corners(list, f);
    contains(a, b, c, q)
}
