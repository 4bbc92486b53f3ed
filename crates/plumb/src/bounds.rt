// The bounds that the faces of a table give the height of a line at x and y.
ghost use Rattle.std.specs.Prelude.{◌≡◌, true};
ghost use Rattle.laws.specs.Numbers.{Within};
ghost use Rattle.touches.specs.Touches.{touch, touch_count};
ghost use Rattle.volume.specs.Volume.{most_normal};
ghost use Rattle.rules.specs.Plumb.{bounded, unbounded, bounds};
ghost use Rattle.table.specs.Table.{faces_in, usable};
ghost use Rattle.points.specs.Sizes.{Number};
ghost use Rattle.plumb.specs.Held.{most_rest};
ghost use Rattle.plumb.specs.Bounds.{bounds_of, rest_at};

use crate::fractions::Fraction;
use points::whole::{WholePlane, plane_on};
use touches::{Place, TouchList};

// What the faces so far say: whether the upright ones admit the line, and the tightest bounds of its height.
#[derive(Clone, Copy)]
pub(crate) struct Bounds {
    pub(crate) admits: bool,
    pub(crate) above: Option<Fraction>,
    pub(crate) below: Option<Fraction>,
}

// One face: looking up it bounds the height above, looking down below; upright it admits a line that is on or behind it.
// The first of equals stays: `min` answers its own side where both are equal, and `max` the other.
fn look_at_face(b: Bounds, facing: i64, rest: i64) -> Bounds
    requires { Within most_normal facing × Within most_rest rest }
    ensures { bounds_of result ≡ bounded facing rest (bounds_of b) }
{
    if facing == 0 {
        return Bounds {
            admits: b.admits && 0 <= rest,
            ..b
        };
    }
    let t = Fraction::new(rest, facing);
    if 0 < facing {
        Bounds {
            above: Some(b.above.map_or(t, |s| s.min(t))),
            ..b
        }
    } else {
        Bounds {
            below: Some(b.below.map_or(t, |s| t.max(s))),
            ..b
        }
    }
}

// What is left of the offset of plane p over q's x and y for the height.
fn rest(p: WholePlane, q: Place) -> i64
    ensures { Number most_rest (rest_at p q.x q.y) result }
{
    p.offset - p.normal.x * q.x - p.normal.y * q.y
}

// The faces one after another, at q's x and y.
pub(crate) fn tightest(list: &TouchList<'_>, faces: &[u16], q: Place) -> Bounds
    requires { usable (touch_count list.now.lent.now) faces.now ≡ true }
    ensures { bounds_of result ≡ bounds (touch list.now.lent.now) q.x q.y unbounded (faces_in faces.now) }
{
    let mut b = Bounds {
        admits: true,
        above: None,
        below: None,
    };
    for &f in table::faces(faces) {
        let p = plane_on(list, touches::corners(f));
        b = look_at_face(b, p.normal.z, rest(p, q));
    }
    b
}
