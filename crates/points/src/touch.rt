// One touch of a list that passed refusals 1 to 3, and the three of a face.
ghost use Rattle.std.specs.Prelude.{◌≡◌, ◌<◌};
ghost use Rattle.touches.specs.Touches.{touch, touch_count, plain};
ghost use Rattle.rules.specs.Demands.{FaceOf};
ghost use Rattle.points.specs.Corners.{places_of};

use touches::{Place, TouchList, TouchNo};

pub fn touch(list: &TouchList<'_>, k: TouchNo) -> Place
    requires { k.0 < touch_count list.now.lent.now }
    ensures { result ≡ touch list.now.lent.now k.0 }
{
    let coords = list.coords();
    let at = usize::from(k.0) * 3;
    Place {
        x: i64::from(coords[at]),
        y: i64::from(coords[at + 1]),
        z: i64::from(coords[at + 2]),
    }
}

pub fn corners(list: &TouchList<'_>, f: [TouchNo; 3]) -> [Place; 3]
    requires { FaceOf list.now.lent.now (plain f) }
    ensures { result ≡ places_of (touch list.now.lent.now) (plain f) }
{
    [touch(list, f[0]), touch(list, f[1]), touch(list, f[2])]
}
