// Differences, products and normals of points in range, in whole numbers.
ghost use Rattle.std.specs.Prelude.{◌≡◌};
ghost use Rattle.laws.specs.Numbers.{Within};
ghost use Rattle.touches.specs.Touches.{Small};
ghost use Rattle.volume.specs.Volume.{most_gap, most_normal, most_volume, det2, minus, cross, dot, normal, in_line};
ghost use Rattle.points.specs.Sizes.{Number, Vector};

use touches::{Place, Point};

fn minus(p: Place, a: Place) -> Point
    ensures { Vector most_gap (minus p a) result }
{
    Point {
        x: p.x - a.x,
        y: p.y - a.y,
        z: p.z - a.z,
    }
}

fn det2(a: i64, b: i64, c: i64, d: i64) -> i64
    requires { Within most_gap a × Within most_gap b × Within most_gap c × Within most_gap d }
    ensures { Number most_normal (det2 a b c d) result }
{
    a * d - b * c
}

fn cross(u: Point, v: Point) -> Point
    requires { Small most_gap u × Small most_gap v }
    ensures { Vector most_normal (cross u v) result }
{
    Point {
        x: det2(u.y, u.z, v.y, v.z),
        y: det2(u.z, u.x, v.z, v.x),
        z: det2(u.x, u.y, v.x, v.y),
    }
}

pub fn dot(u: Point, v: Point) -> i64
    requires { Small most_normal u × Small most_gap v }
    ensures { Number most_volume (dot u v) result }
{
    u.x * v.x + u.y * v.y + u.z * v.z
}

// The normal of face (a, b, c). The corners stay three arguments, here and in every step above: the contracts are equalities with
// `normal`, `Vol` and `contains`, which take them so.
pub fn normal(a: Place, b: Place, c: Place) -> Point
    ensures { Vector most_normal (normal a b c) result }
{
    cross(minus(b, a), minus(c, a))
}

// Three corners in line span no plane.
pub fn in_line(a: Place, b: Place, c: Place) -> bool
    ensures { result ≡ in_line a b c }
{
    normal(a, b, c) == Point::ORIGIN
}
