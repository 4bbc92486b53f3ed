// The tables that building works in, of fixed sizes, since the library has no heap: n touches give at most 2n − 4 faces after every step (`cover` FewFaces), so none is ever full.
ghost use Rattle.std.specs.Prelude.{◌*◌, ◌^◌, ◌<◌, ◌≤◌};
ghost use Rattle.touches.specs.Touches.{touch_count};
ghost use Rattle.cover.specs.Room.{enough};
ghost use Rattle.hull.specs.Start.{start_of};
ghost use Rattle.hull.specs.Build.{hull_of};
ghost use Rattle.hull.specs.Inner.{Begun, Builds};

use crate::build::{Hull, write_hull};
use crate::start::Start;
use crate::step::Work;
use border::Marks;
use points::whole::WholePlane;
use touches::{Point, Refusal, TouchList};

// How many touches the small tables are for, and the middle ones. A table is filled before it is used, and the small ones are a twentieth
// of the large ones, the middle ones a third.
const FEW: usize = 8;

const HALF: usize = TouchList::MOST / 2;

const FEW_FACES: usize = 2 * FEW - 4;

const FEW_MARKS: usize = FEW * FEW;

const HALF_FACES: usize = 2 * HALF - 4;

const HALF_MARKS: usize = HALF * HALF;

const ALL_FACES: usize = TouchList::ENOUGH_FACES;

const ALL_MARKS: usize = TouchList::MOST * TouchList::MOST;

// What the table of planes starts with.
const NO_PLANE: WholePlane = WholePlane {
    normal: Point::ORIGIN,
    offset: 0,
};

// In tables for FACES faces and MARKS marks. The bounds on these two numbers keep the sizes of the tables in range. Never inlined: so a
// list takes the stack of its own tables, and not of all three.
#[inline(never)]
fn build_in<const FACES: usize, const MARKS: usize>(
    faces: &mut [u16],
    list: &TouchList<'_>,
    s: Start,
) -> Result<Hull, Refusal>
    requires { Begun list.now.lent.now (start_of s) × (enough (touch_count list.now.lent.now) ≤ FACES)
        × (touch_count list.now.lent.now * touch_count list.now.lent.now ≤ MARKS) × (FACES < 2 ^ 32) × (MARKS < 2 ^ 32) }
    ensures { Builds list.now.lent.now (hull_of list.now.lent.now) faces.old result faces.new }
{
    let mut table = [[0u16; 3]; FACES];
    let mut planes = [NO_PLANE; FACES];
    let mut seen = [[0u16; 3]; FACES];
    let mut room = [0u16; MARKS];
    let marks = Marks::new(&mut room, list.count());
    let mut work = Work {
        table: &mut table,
        planes: &mut planes,
        seen: &mut seen,
        marks,
        count: 0,
    };
    work.raise(list, s);
    write_hull(faces, list, &work)
}

// Building from the start, in the smallest tables that are enough.
pub(crate) fn build_from(faces: &mut [u16], list: &TouchList<'_>, s: Start) -> Result<Hull, Refusal>
    requires { Begun list.now.lent.now (start_of s) }
    ensures { Builds list.now.lent.now (hull_of list.now.lent.now) faces.old result faces.new }
{
    if list.count() <= FEW {
        build_in::<FEW_FACES, FEW_MARKS>(faces, list, s)
    } else if list.count() <= HALF {
        build_in::<HALF_FACES, HALF_MARKS>(faces, list, s)
    } else {
        build_in::<ALL_FACES, ALL_MARKS>(faces, list, s)
    }
}
