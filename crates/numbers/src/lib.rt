// Each answer taken apart into numbers, for callers in other languages: C has no Option and no Result.
#![tactic(auto)]

ghost use Rattle.std.specs.Prelude.{◌≡◌};
ghost use Rattle.planes.specs.Planes.{planed_plane, reading_value};
ghost use Rattle.numbers.specs.Numbers.{numbers, said, built_numbers, placed_numbers, plane_numbers, plumbed_numbers, plumbed_heights, one};

use hull::build::Hull;
use hull::place::Placed;
use planes::Plane;
use plumb::Plumbed;
use touches::Refusal;

// The number and the place of a refusal.
fn numbers(r: Refusal) -> [i64; 2]
    ensures { result ≡ numbers r }
{
    [i64::from(r.number()), i64::from(r.place().0)]
}

// The number and the place that a call gives, 0 where it succeeds.
pub fn said<T>(a: &Result<T, Refusal>) -> [i64; 2]
    ensures { result ≡ said a.now }
{
    match a {
        Ok(_) => [0, 0],
        Err(r) => numbers(*r),
    }
}

// Then the face count and the volume.
pub fn built_numbers(a: Result<Hull, Refusal>) -> [i64; 4]
    ensures { result ≡ built_numbers a }
{
    let [number, place] = said(&a);
    match a {
        Ok(h) => [number, place, i64::from(h.faces), h.volume],
        Err(_) => [number, place, 0, 0],
    }
}

// Then the kind, 0 refused, 1 outside, 2 on, 3 inside, counted apart from the refusals; the face; and minus its V, outside alone.
pub fn placed_numbers(a: Result<Placed, Refusal>) -> [i64; 5]
    ensures { result ≡ placed_numbers a }
{
    let [number, place] = said(&a);
    match a {
        Ok(Placed::Outside(f, d)) => [number, place, 1, i64::from(f.0), d],
        Ok(Placed::On(f)) => [number, place, 2, i64::from(f.0), 0],
        Ok(Placed::Inside) => [number, place, 3, 0, 0],
        Err(_) => [number, place, 0, 0, 0],
    }
}

pub fn plane_numbers(a: Result<Plane, Refusal>) -> [f64; 4]
    ensures { result ≡ plane_numbers (planed_plane a) }
{
    match a {
        Ok(p) => [p.x, p.y, p.z, p.offset],
        Err(_) => [0.0, 0.0, 0.0, 0.0],
    }
}

pub fn reading_number(a: Result<f64, Refusal>) -> [f64; 1]
    ensures { result ≡ one (reading_value a) }
{
    [a.unwrap_or(0.0)]
}

// Then the kind, 0 refused, 1 misses, 2 touches, 3 goes through: counted apart from the refusals, and from where a place lies.
pub fn plumbed_numbers(a: Result<Plumbed, Refusal>) -> [i64; 3]
    ensures { result ≡ plumbed_numbers a }
{
    let [number, place] = said(&a);
    match a {
        Ok(Plumbed::Misses) => [number, place, 1],
        Ok(Plumbed::Touches(_)) => [number, place, 2],
        Ok(Plumbed::Through(_, _)) => [number, place, 3],
        Err(_) => [number, place, 0],
    }
}

// The heights of entry and exit.
pub fn plumbed_heights(a: Result<Plumbed, Refusal>) -> [f64; 2]
    ensures { result ≡ plumbed_heights a }
{
    match a {
        Ok(Plumbed::Through(u, l)) => [u, l],
        Ok(Plumbed::Touches(z)) => [z, z],
        Ok(Plumbed::Misses) | Err(_) => [0.0, 0.0],
    }
}
