// Which places of its plane a triangle contains: a step on points in range. No number in it is larger than a part of a normal, where
// the product of two normals would leave 64 bits.
#![tactic(auto)]

ghost use Rattle.std.specs.Prelude.{◌≡◌, pos};
ghost use Rattle.touches.specs.Touches.{Small};
ghost use Rattle.volume.specs.Volume.{Vol, most_normal};
ghost use Rattle.volume.specs.Triangle.{in_triangle, between, on_segment, contains};
ghost use Rattle.volume.specs.SameWay.{opposed, same_way};

use points::vectors::{in_line, normal};
use touches::{Place, Point};

// One of the numbers is above 0 and the other below.
fn opposed(n: i64, m: i64) -> bool
    ensures { result ≡ opposed n m }
{
    ((0 < n) & (m < 0)) | ((n < 0) & (0 < m))
}

// m does not point the other way than n.
fn same_way(n: Point, m: Point) -> bool
    requires { Small most_normal n × Small most_normal m }
    ensures { result ≡ same_way n m }
{
    !opposed(n.x, m.x) & !opposed(n.y, m.y) & !opposed(n.z, m.z)
}

// q is beyond no side.
fn in_triangle(a: Place, b: Place, c: Place, q: Place) -> bool
    requires { Vol a b c q ≡ pos 0 }
    ensures { result ≡ in_triangle a b c q }
{
    let n = normal(a, b, c);
    same_way(n, normal(a, b, q)) & same_way(n, normal(b, c, q)) & same_way(n, normal(c, a, q))
}

// t is neither below all three numbers nor above all three.
fn between(x: i64, y: i64, z: i64, t: i64) -> bool
    ensures { result ≡ between x y z t }
{
    ((x <= t) | (y <= t) | (z <= t)) & ((t <= x) | (t <= y) | (t <= z))
}

// q is on the smallest segment that has a, b and c, which are in line.
fn on_segment(a: Place, b: Place, c: Place, q: Place) -> bool
    ensures { result ≡ on_segment a b c q }
{
    in_line(a, b, q)
        & in_line(b, c, q)
        & in_line(c, a, q)
        & between(a.x, b.x, c.x, q.x)
        & between(a.y, b.y, c.y, q.y)
        & between(a.z, b.z, c.z, q.z)
}

// The triangle of a, b, c contains q, which is on their plane.
#[tactic(auto, unfolding(volume::specs::Triangle::contains))]
pub fn contains(a: Place, b: Place, c: Place, q: Place) -> bool
    requires { Vol a b c q ≡ pos 0 }
    ensures { result ≡ contains a b c q }
{
    if in_line(a, b, c) {
        return on_segment(a, b, c, q);
    }
    in_triangle(a, b, c, q)
}
