// V worked in doubles, as the chapter does: an inner step, on coordinates already checked.
ghost use Rattle.std.specs.Prelude.{◌≡◌};
ghost use Rattle.laws.specs.Doubles.{double};
ghost use Rattle.volume.specs.Volume.{Vol};

use points::doubles::Spot;
use touches::Place;

// The steps and the names of Code 4.16; the last step makes a zero plus zero.
// Not one with `four_corner::volume`: over a trait of numbers its operators would become calls of methods, and the line would not read as the book's.
pub(crate) fn volume(a: Place, b: Place, c: Place, d: Place) -> f64
    ensures { result ≡ double (Vol a b c d) }
{
    let p = Spot::from(a);
    let q = Spot::from(b);
    let r = Spot::from(c);
    let s = Spot::from(d);
    let ax = p.x - s.x;
    let ay = p.y - s.y;
    let az = p.z - s.z;
    let bx = q.x - s.x;
    let by = q.y - s.y;
    let bz = q.z - s.z;
    let cx = r.x - s.x;
    let cy = r.y - s.y;
    let cz = r.z - s.z;
    ax * (by * cz - bz * cy) + ay * (bz * cx - bx * cz) + az * (bx * cy - by * cx) + 0.0
}
