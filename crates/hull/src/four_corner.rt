// V of four points: an inner step, on coordinates already checked.
ghost use Rattle.volume.specs.Volume.{Vol, most_volume};
ghost use Rattle.points.specs.Sizes.{Number};

use touches::Place;

// V in whole numbers, the differences taken from d: the steps and the names of Code 4.16.
// Not one with `doubles::volume`: over a trait of numbers its operators would become calls of methods, and the line would not read as the book's.
pub(crate) fn volume(a: Place, b: Place, c: Place, d: Place) -> i64
    ensures { Number most_volume (Vol a b c d) result }
{
    let ax = a.x - d.x;
    let ay = a.y - d.y;
    let az = a.z - d.z;
    let bx = b.x - d.x;
    let by = b.y - d.y;
    let bz = b.z - d.z;
    let cx = c.x - d.x;
    let cy = c.y - d.y;
    let cz = c.z - d.z;
    ax * (by * cz - bz * cy) + ay * (bz * cx - bx * cz) + az * (bx * cy - by * cx)
}
