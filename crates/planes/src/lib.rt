// The plane of a face as four doubles, and its reading at a place.
#![tactic(auto)]

ghost use Rattle.std.specs.Prelude.{◌≡◌, neg_ℤ};
ghost use Rattle.touches.specs.Touches.{Near};
ghost use Rattle.volume.specs.Volume.{Vol};
ghost use Rattle.laws.specs.Doubles.{double};
ghost use Rattle.planes.specs.Planes.{plane_of, face_plane, planed, plane_reading};

use points::doubles::{Spot, normal};
use points::touch::touch;
use points::vectors::in_line;
use touches::{Place, Point, Refusal, TouchList, TouchNo};

// The three parts of the normal, and its dot product with the first corner: each exactly that whole number, zero being plus zero.
#[derive(Clone, Copy)]
pub struct Plane {
    pub x: f64,
    pub y: f64,
    pub z: f64,
    pub offset: f64,
}

fn plane_through(a: Place, b: Place, c: Place) -> Plane
    ensures { result ≡ plane_of a b c }
{
    let o = Spot::from(a);
    let n = normal(o, Spot::from(b), Spot::from(c));
    let x = n.x + 0.0;
    let y = n.y + 0.0;
    let z = n.z + 0.0;
    let offset = x * o.x + y * o.y + z * o.z + 0.0;
    Plane { x, y, z, offset }
}

// Normal dot q minus the offset: minus V where p is the plane of a face.
fn read_at(p: Plane, q: Place) -> f64
    ensures { (a b c : Point) → Near a → Near b → Near c → p ≡ plane_of a b c → result ≡ double (neg_ℤ (Vol a b c q)) }
{
    let s = Spot::from(q);
    p.x * s.x + p.y * s.y + p.z * s.z - p.offset + 0.0
}

// The plane of three touches of a list that passed, or refusal 6.
fn face_plane(list: &TouchList<'_>, a: TouchNo, b: TouchNo, c: TouchNo) -> Result<Plane, Refusal>
    ensures { result ≡ face_plane list.now.lent.now a.0 b.0 c.0 }
{
    let n = list.count();
    if n <= usize::from(a.0) || n <= usize::from(b.0) || n <= usize::from(c.0) {
        return Err(Refusal::NoSuchFace);
    }
    let p = touch(list, a);
    let q = touch(list, b);
    let r = touch(list, c);
    if in_line(p, q, r) {
        return Err(Refusal::NoSuchFace);
    }
    Ok(plane_through(p, q, r))
}

// The plane of face (a, b, c). Refusals 1, 2, 3, 6.
pub fn plane_of(coords: &[i32], a: TouchNo, b: TouchNo, c: TouchNo) -> Result<Plane, Refusal>
    ensures { result ≡ planed coords.now a.0 b.0 c.0 }
{
    let list = touches::check(coords)?;
    face_plane(&list, a, b, c)
}

// What the plane of face (a, b, c) reads at q: exactly −V(a, b, c, q). Refusals 1, 2, 3, 6, 7.
pub fn plane_reading(
    coords: &[i32],
    a: TouchNo,
    b: TouchNo,
    c: TouchNo,
    q: Point,
) -> Result<f64, Refusal>
    ensures { result ≡ plane_reading coords.now a.0 b.0 c.0 q }
{
    let p = plane_of(coords, a, b, c)?;
    Ok(read_at(p, Place::try_from(q)?))
}
