// The planes that building keeps beside its faces: once a plane is known, V takes three products.
ghost use Rattle.std.specs.Prelude.{◌≡◌, ◌*◌, pos};
ghost use Rattle.std.specs.Int.Signed.{lt_z};
ghost use Rattle.volume.specs.Volume.{most_volume};
ghost use Rattle.points.specs.Sizes.{Number};
ghost use Rattle.hull.specs.Whole.{read_at};

use points::vectors::dot;
use points::whole::WholePlane;
use touches::{Place, Point};

// V of the face whose plane p is, and q.
pub(crate) fn read(p: WholePlane, q: Place) -> i64
    ensures { Number (2 * most_volume) (read_at p q) result }
{
    p.offset - dot(p.normal, Point::from(q))
}

// q is strictly in front of the face whose plane p is: edge-on does not count.
pub(crate) fn in_front(p: WholePlane, q: Place) -> bool
    ensures { result ≡ lt_z (read_at p q) (pos 0) }
{
    read(p, q) < 0
}
