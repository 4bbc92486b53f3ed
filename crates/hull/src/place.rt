// Where a place lies against a face table, hull or not.
ghost use Rattle.std.specs.Prelude.{◌≡◌, true, IfSome};
ghost use Rattle.laws.specs.Numbers.{Within};
ghost use Rattle.touches.specs.Touches.{touch, touch_count};
ghost use Rattle.volume.specs.Volume.{most_volume};
ghost use Rattle.rules.specs.Placing.{lies};
ghost use Rattle.table.specs.Table.{faces_in, usable};
ghost use Rattle.hull.specs.Inner.{worse, settled};
ghost use Rattle.hull.specs.Place.{placed_by, placed};

use crate::face::{face_holds, face_volume};
use touches::{FaceNo, Place, Point, Refusal, TouchList};

// Outside comes with the worst face, the one with the least V, and minus that V.
#[derive(Clone, Copy)]
pub enum Placed {
    Outside(FaceNo, i64),
    On(FaceNo),
    Inside,
}

// The worst face so far and its V, below 0.
#[derive(Clone, Copy)]
struct Worst {
    face: FaceNo,
    v: i64,
}

// Face f is the worst if the place is in front of it, and its V is less than any before it.
fn worse(worst: Option<Worst>, f: FaceNo, v: i64) -> Option<Worst>
    requires { IfSome worst (λ w. Within most_volume w.v) × Within most_volume v }
    ensures { result ≡ worse worst f v }
{
    if worst.map_or(v < 0, |w| v < w.v) {
        return Some(Worst { face: f, v });
    }
    worst
}

// A face that the place is in front of comes before one that holds it, and that before one whose plane does.
fn settle(
    worst: Option<Worst>,
    on: Option<FaceNo>,
    plane: Option<FaceNo>,
) -> Result<Placed, Refusal>
    requires { IfSome worst (λ w. Within most_volume w.v) }
    ensures { result ≡ settled worst on plane }
{
    match (worst, on, plane) {
        (Some(w), _, _) => Ok(Placed::Outside(w.face, -w.v)),
        (None, Some(f), _) => Ok(Placed::On(f)),
        (None, None, Some(_)) => Err(Refusal::PlaceInNoTriangle),
        (None, None, None) => Ok(Placed::Inside),
    }
}

fn look(list: &TouchList<'_>, faces: &[u16], q: Place) -> Result<Placed, Refusal>
    requires { usable (touch_count list.now.lent.now) faces.now ≡ true }
    ensures { result ≡ placed_by (lies (touch list.now.lent.now) (faces_in faces.now) q) }
{
    let mut worst = None;
    let mut on = None;
    let mut plane = None;
    // By number, since an answer names its face.
    for i in 0..table::room(faces) {
        let f = FaceNo(i as u16);
        let c = table::face(faces, f);
        let v = face_volume(list, c, q);
        worst = worse(worst, f, v);
        on = on.or(face_holds(list, c, q, v).then_some(f));
        plane = plane.or((v == 0).then_some(f));
    }
    settle(worst, on, plane)
}

// Refusals 1, 2, 3, 6, 7, 17.
pub fn place(coords: &[i32], faces: &[u16], q: Point) -> Result<Placed, Refusal>
    ensures { result ≡ placed coords.now faces.now q }
{
    let list = touches::check(coords)?;
    if !table::is_usable(faces, list.count()) {
        return Err(Refusal::NoSuchFace);
    }
    look(&list, faces, Place::try_from(q)?)
}
