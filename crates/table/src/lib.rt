// The lent face table. No other crate knows how many numbers a face takes in it.
#![tactic(auto)]

ghost use Rattle.std.specs.Prelude.{◌≡◌, ◌+◌, ◌*◌, ◌≤◌, leb, ltb, length, get_or};
ghost use Rattle.laws.specs.Lists.{every, lay};
ghost use Rattle.touches.specs.Limits.{most_faces};
ghost use Rattle.touches.specs.Touches.{plain};
ghost use Rattle.table.specs.Table.{stride, room, numbers, lent, face_at, faces_in, put_over, among, usable};

use touches::{FaceNo, TouchList, TouchNo};

const STRIDE: usize = 3;

// A table of so many numbers has room for every hull.
pub const ENOUGH: usize = TouchList::ENOUGH_FACES * STRIDE;

// How many numbers n faces take.
pub fn numbers_of(n: u16) -> usize
    ensures { result ≡ n * stride }
{
    usize::from(n) * STRIDE
}

// How many faces there is room for.
pub fn room(faces: &[u16]) -> usize
    ensures { result ≡ room faces.now }
{
    faces.len() / STRIDE
}

// The faces of the table, one after another.
pub fn faces(faces: &[u16]) -> &[[u16; 3]]
    ensures { result.now ≡ faces_in faces.now }
{
    faces.as_chunks().0
}

// Number i of the table, 0 past its end.
fn number(faces: &[u16], i: usize) -> u16
    ensures { result ≡ get_or faces.now i 0 }
{
    faces.get(i).copied().unwrap_or(0)
}

// The corners of face f.
pub fn face(faces: &[u16], f: FaceNo) -> [TouchNo; 3]
    ensures { plain result ≡ face_at faces.now f.0 }
{
    let at = usize::from(f.0) * STRIDE;
    [
        TouchNo(number(faces, at)),
        TouchNo(number(faces, at + 1)),
        TouchNo(number(faces, at + 2)),
    ]
}

// Face f at the place at.
fn put_face(faces: &mut [u16], at: usize, f: &[u16; 3])
    requires { at + stride ≤ length faces.old }
    ensures { faces.new ≡ lay at (numbers f.now) faces.old }
{
    faces[at..at + STRIDE].copy_from_slice(f);
}

fn put_all(faces: &mut [u16], hull: &[[u16; 3]])
    requires { length hull.now ≤ room faces.old }
    ensures { faces.new ≡ lay 0 (lent hull.now) faces.old }
{
    // By place: no invariant can speak of what is written through `iter_mut().zip(..)`, and the proof does not close.
    for (i, f) in hull.iter().enumerate() {
        put_face(faces, i * STRIDE, f);
    }
}

// The face list hull over the first part of the table, if there is room for all of it: is there?
pub fn put_faces(faces: &mut [u16], hull: &[[u16; 3]]) -> bool
    ensures room { result ≡ leb (length hull.now) (room faces.old) }
    ensures table { faces.new ≡ put_over hull.now faces.old }
{
    if room(faces) < hull.len() {
        return false;
    }
    put_all(faces, hull);
    true
}

// Each corner of face f is one of n touches.
fn is_among(f: [u16; 3], n: usize) -> bool
    ensures { result ≡ among n f }
{
    f.iter().all(|k| usize::from(*k) < n)
}

// Each corner of each of the faces is one of n touches.
fn all_among(faces: &[[u16; 3]], n: usize) -> bool
    ensures { result ≡ every (among n) faces.now }
{
    faces.iter().all(|f| is_among(*f, n))
}

// Refusal 6's test of a table over n touches.
#[tactic(auto, unfolding(crate::specs::Table::usable))]
pub fn is_usable(faces: &[u16], n: usize) -> bool
    ensures { result ≡ usable n faces.now }
{
    !faces.is_empty()
        && faces.len() % STRIDE == 0
        && room(faces) <= TouchList::MOST_FACES
        && all_among(self::faces(faces), n)
}
