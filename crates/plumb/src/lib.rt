// The plumb line: the heights at which a line dropped at a whole x and y meets the hull of a touch list.
#![tactic(auto)]

mod bounds;
mod fractions;

ghost use Rattle.std.specs.Prelude.{◌≡◌, ◌≤◌};
ghost use Rattle.touches.specs.Limits.{most_touches};
ghost use Rattle.rules.specs.Plumb.{between, reading_of};
ghost use Rattle.cover.specs.Room.{enough};
ghost use Rattle.table.specs.Table.{room};
ghost use Rattle.plumb.specs.Fractions.{ratio};
ghost use Rattle.plumb.specs.Bounds.{bounds_of};
ghost use Rattle.plumb.specs.Plumb.{rounded, plumbed_by, plumbed};

use crate::bounds::{Bounds, tightest};
use crate::fractions::Fraction;
use std::cmp::Ordering;
use touches::{Place, Point, Refusal, TouchList};

// The line misses, touches at a height, or enters at the upper height and leaves at the lower one.
#[derive(Clone, Copy)]
pub enum Plumbed {
    Misses,
    Touches(f64),
    Through(f64, f64),
}

// Both numbers are held exactly and divided once. The bottom is above 0, so a zero is plus zero.
fn height(f: Fraction) -> f64
    ensures { result ≡ rounded (ratio f) }
{
    f.top as f64 / f.bottom as f64
}

// From the bound above to the bound below.
fn between(u: Fraction, l: Fraction) -> Plumbed
    ensures { result ≡ plumbed_by (between (ratio u) (ratio l)) }
{
    match l.cmp(&u) {
        Ordering::Less => Plumbed::Through(height(u), height(l)),
        Ordering::Equal => Plumbed::Touches(height(u)),
        Ordering::Greater => Plumbed::Misses,
    }
}

fn reading(b: Bounds) -> Plumbed
    ensures { result ≡ plumbed_by (reading_of (bounds_of b)) }
{
    match (b.admits, b.above, b.below) {
        (true, Some(u), Some(l)) => between(u, l),
        _ => Plumbed::Misses,
    }
}

// With a table that is enough for every hull.
fn plumb_in(faces: &mut [u16], coords: &[i32], x: i64, y: i64) -> Result<Plumbed, Refusal>
    requires { enough most_touches ≤ room faces.old }
    ensures { result ≡ plumbed coords.now x y }
{
    let hull = hull::build::build(coords, faces)?;
    let q = Place::try_from(Point { x, y, z: 0 })?;
    // Building has checked the list.
    let list = TouchList { lent: coords };
    let end = table::numbers_of(hull.faces);
    Ok(reading(tightest(&list, &faces[..end], q)))
}

// Refusals 1, 2, 3, 4, 7.
pub fn plumb(coords: &[i32], x: i64, y: i64) -> Result<Plumbed, Refusal>
    ensures { result ≡ plumbed coords.now x y }
{
    let mut faces = [0u16; table::ENOUGH];
    plumb_in(&mut faces, coords, x, y)
}
