// The hull of a touch list, into a lent face table.
ghost use Rattle.std.specs.Prelude.{◌≡◌, ◌<◌, ◌≤◌, take};
ghost use Rattle.std.proofs.Math.Option.{some};
ghost use Rattle.touches.specs.Limits.{most_faces};
ghost use Rattle.touches.specs.Touches.{touch, touch_count};
ghost use Rattle.rules.specs.Building.{volume};
ghost use Rattle.hull.specs.Whole.{Planed};
ghost use Rattle.hull.specs.Inner.{Builds};
ghost use Rattle.hull.specs.Build.{hull_of, built, table_after};

use crate::rooms::build_from;
use crate::start::find_start;
use crate::step::Work;
use crate::whole::read;
use points::touch::touch;
use touches::{Refusal, TouchList, TouchNo};

// The hull of a touch list: how many faces it has, and six times its volume.
#[derive(Clone, Copy)]
pub struct Hull {
    pub faces: u16,
    pub volume: i64,
}

// The sum of V(face, touch 0).
fn six_volume(list: &TouchList<'_>, work: &Work) -> i64
    requires { (0 < touch_count list.now.lent.now) × Planed list.now.lent.now work.now.count work.now.table.now work.now.planes.now × (work.now.count ≤ most_faces) }
    ensures { result ≡ volume (touch list.now.lent.now) (take work.now.count work.now.table.now) }
{
    let q = touch(list, TouchNo(0));
    // A loop and no `sum`, of which nothing is promised where numbers below 0 might leave 64 bits.
    let mut sum: i64 = 0;
    for &p in &work.planes[..work.count] {
        sum += read(p, q);
    }
    sum
}

// The face list into the lent table, or refusal 5.
pub(crate) fn write_hull(
    faces: &mut [u16],
    list: &TouchList<'_>,
    work: &Work,
) -> Result<Hull, Refusal>
    requires { (0 < touch_count list.now.lent.now) × Planed list.now.lent.now work.now.count work.now.table.now work.now.planes.now × (work.now.count ≤ most_faces) }
    ensures { Builds list.now.lent.now (some (take work.now.count work.now.table.now)) faces.old result faces.new }
{
    if !table::put_faces(faces, &work.table[..work.count]) {
        return Err(Refusal::FaceTableTooSmall);
    }
    Ok(Hull {
        faces: work.count as u16,
        volume: six_volume(list, work),
    })
}

// Refusals 1, 2, 3, 4, 5. A refusal changes nothing.
pub fn build(coords: &[i32], faces: &mut [u16]) -> Result<Hull, Refusal>
    ensures answer { result ≡ built coords.now faces.old }
    ensures table { faces.new ≡ table_after result (hull_of coords.now) faces.old }
{
    let list = touches::check(coords)?;
    let s = find_start(&list).ok_or(Refusal::AllTouchesOnOnePlane)?;
    build_from(faces, &list, s)
}
