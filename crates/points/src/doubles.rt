// Points and normals in doubles: with the differences taken first every step stays below 2^53.
ghost use Rattle.std.specs.Prelude.{◌≡◌};
ghost use Rattle.points.specs.Doubles.{spot_normal};

use touches::Place;

#[derive(Clone, Copy)]
pub struct Spot {
    pub x: f64,
    pub y: f64,
    pub z: f64,
}

impl From<Place> for Spot {
    ghost use Rattle.points.specs.Doubles.{InDoubles};

    ghost from_gives = { InDoubles };

    fn from(p: Place) -> Spot {
        Spot {
            x: p.x as f64,
            y: p.y as f64,
            z: p.z as f64,
        }
    }
}

// The normal of face (a, b, c): for points in range exactly the whole number, but a zero can be minus zero. Not one with
// `vectors::normal`: this asks nothing of its points and promises the machine's own steps, that asks for range and gives whole numbers.
pub fn normal(a: Spot, b: Spot, c: Spot) -> Spot
    ensures { result ≡ spot_normal a b c }
{
    let ux = b.x - a.x;
    let uy = b.y - a.y;
    let uz = b.z - a.z;
    let vx = c.x - a.x;
    let vy = c.y - a.y;
    let vz = c.z - a.z;
    Spot {
        x: uy * vz - uz * vy,
        y: uz * vx - ux * vz,
        z: ux * vy - uy * vx,
    }
}
