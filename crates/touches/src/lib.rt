// The touch list: its limits, touch and face numbers, points and places, refusals, and the check of a lent list.
#![tactic(auto)]

pub mod list;
pub mod place;
pub mod refusal;

ghost use Rattle.std.specs.Prelude.{◌≡◌, ◌*◌, ◌≤◌, length, not, position};
ghost use Rattle.touches.specs.Limits.{most_touches, in_range, place_in_range};
ghost use Rattle.touches.specs.Touches.{plain};
ghost use Rattle.touches.specs.Check.{stray_from, checked, coords_of};

pub use crate::list::TouchList;
pub use crate::place::Place;
pub use crate::refusal::Refusal;

#[derive(Clone, Copy, Debug, PartialEq, Eq)]
pub struct TouchNo(pub u16);

#[derive(Clone, Copy, Debug, PartialEq, Eq)]
pub struct FaceNo(pub u16);

// A place that is asked about, the difference of two places, or a normal: room for every number that V works with.
#[derive(Clone, Copy, Debug, PartialEq, Eq)]
pub struct Point {
    pub x: i64,
    pub y: i64,
    pub z: i64,
}

impl Point {
    pub const ORIGIN: Point = Point { x: 0, y: 0, z: 0 };
}

#[derive(Clone, Copy)]
pub struct Limits {
    pub touches: usize,
    pub reach: i64,
    pub faces: usize,
}

// A face of a table as touch numbers: the tables that building works in hold plain numbers.
pub fn corners(f: [u16; 3]) -> [TouchNo; 3]
    ensures { plain result ≡ f }
{
    f.map(TouchNo)
}

fn in_range(x: i64) -> bool
    ensures { result ≡ in_range x }
{
    -TouchList::REACH <= x && x <= TouchList::REACH
}

// Refusal 7's test: each coordinate of the place is in range.
pub fn place_in_range(q: Point) -> bool
    ensures { result ≡ place_in_range q }
{
    in_range(q.x) & in_range(q.y) & in_range(q.z)
}

// The first coordinate out of range.
fn first_far(coords: &[i32]) -> Option<usize>
    ensures { result ≡ position (λ x. not (in_range x)) coords.now }
{
    coords.iter().position(|x| !in_range(i64::from(*x)))
}

// The touch that it belongs to.
fn first_stray(coords: &[i32]) -> Option<TouchNo>
    requires { length coords.now ≤ most_touches * 3 }
    ensures { result ≡ stray_from 0 coords.now }
{
    let i = first_far(coords)?;
    Some(TouchNo((i / 3) as u16))
}

// Refusals 1, 2 and 3 of a lent coordinate list, in this order. A function and no `TryFrom`, since it is a call, which the pages name.
pub fn check(coords: &[i32]) -> Result<TouchList<'_>, Refusal>
    ensures { coords_of result ≡ checked coords.now }
{
    if coords.len() % 3 != 0 {
        return Err(Refusal::CoordinatesNotInThrees);
    }
    if TouchList::MOST * 3 < coords.len() {
        return Err(Refusal::TooManyTouches);
    }
    if let Some(k) = first_stray(coords) {
        return Err(Refusal::CoordinateOutOfRange(k));
    }
    Ok(TouchList { lent: coords })
}
