// What C links: numbers, and slices as a pointer and a length.
#![tactic(auto)]

ghost use Rattle.std.specs.Prelude.{◌≡◌, ◌≤◌, length};
ghost use Rattle.planes.specs.Planes.{planed, planed_plane, plane_reading, reading_value};
ghost use Rattle.hull.specs.Build.{hull_of, built, table_after};
ghost use Rattle.hull.specs.Place.{placed};
ghost use Rattle.plumb.specs.Plumb.{plumbed};
ghost use Rattle.records.specs.Record.{plain_version, record_of, touches_in};
ghost use Rattle.records.specs.Answers.{read_of, write_of, copy_of, list_after, buffer_after, count_given};
ghost use Rattle.numbers.specs.Numbers.{said, built_numbers, placed_numbers, plane_numbers, plumbed_numbers, plumbed_heights, record_numbers, one, place_at};

use touches::{Point, Refusal, TouchNo};

// A record's numbers for C: its count of touches or bytes is small, and of a `usize` there is no `From`.
fn record_numbers(a: Result<usize, Refusal>) -> [i64; 3]
    requires { count_given a ≤ 65535 }
    ensures { result ≡ record_numbers a }
{
    let [number, place] = numbers::said(&a);
    [number, place, a.unwrap_or(0) as i64]
}

// C hands three numbers, and not a place.
fn place_at(x: i32, y: i32, z: i32) -> Point
    ensures { result ≡ place_at x y z }
{
    Point {
        x: i64::from(x),
        y: i64::from(y),
        z: i64::from(z),
    }
}

#[unsafe(no_mangle)]
pub extern "C" fn chienlohup_build(touches: &[i32], faces: &mut [u16], out: &mut [i64; 4])
    ensures said { out.new ≡ built_numbers (built touches.now faces.old) }
    ensures table { faces.new ≡ table_after (built touches.now faces.old) (hull_of touches.now) faces.old }
{
    *out = numbers::built_numbers(hull::build::build(touches, faces));
}

#[unsafe(no_mangle)]
pub extern "C" fn chienlohup_place(
    touches: &[i32],
    faces: &[u16],
    x: i32,
    y: i32,
    z: i32,
    out: &mut [i64; 5],
)
    ensures { out.new ≡ placed_numbers (placed touches.now faces.now (place_at x y z)) }
{
    *out = numbers::placed_numbers(hull::place::place(touches, faces, place_at(x, y, z)));
}

#[unsafe(no_mangle)]
pub extern "C" fn chienlohup_plane(
    touches: &[i32],
    a: u16,
    b: u16,
    c: u16,
    out: &mut [i64; 2],
    plane: &mut [f64; 4],
)
    ensures said { out.new ≡ said (planed touches.now a b c) }
    ensures plane { plane.new ≡ plane_numbers (planed_plane (planed touches.now a b c)) }
{
    let answer = planes::plane_of(touches, TouchNo(a), TouchNo(b), TouchNo(c));
    *out = numbers::said(&answer);
    *plane = numbers::plane_numbers(answer);
}

#[unsafe(no_mangle)]
pub extern "C" fn chienlohup_plane_reading(
    touches: &[i32],
    a: u16,
    b: u16,
    c: u16,
    x: i32,
    y: i32,
    z: i32,
    out: &mut [i64; 2],
    reading: &mut [f64; 1],
)
    ensures said { out.new ≡ said (plane_reading touches.now a b c (place_at x y z)) }
    ensures reading { reading.new ≡ one (reading_value (plane_reading touches.now a b c (place_at x y z))) }
{
    let q = place_at(x, y, z);
    let answer = planes::plane_reading(touches, TouchNo(a), TouchNo(b), TouchNo(c), q);
    *out = numbers::said(&answer);
    *reading = numbers::reading_number(answer);
}

#[unsafe(no_mangle)]
pub extern "C" fn chienlohup_plumb(
    touches: &[i32],
    x: i32,
    y: i32,
    out: &mut [i64; 3],
    heights: &mut [f64; 2],
)
    ensures said { out.new ≡ plumbed_numbers (plumbed touches.now x y) }
    ensures heights { heights.new ≡ plumbed_heights (plumbed touches.now x y) }
{
    let answer = plumb::plumb(touches, i64::from(x), i64::from(y));
    *out = numbers::plumbed_numbers(answer);
    *heights = numbers::plumbed_heights(answer);
}

#[unsafe(no_mangle)]
pub extern "C" fn chienlohup_read(bytes: &[u8], touches: &mut [i32], out: &mut [i64; 3])
    ensures said { out.new ≡ record_numbers (read_of plain_version bytes.now (length touches.old)) }
    ensures table { touches.new ≡ list_after (read_of plain_version bytes.now (length touches.old)) (touches_in bytes.now) touches.old }
{
    *out = record_numbers(records::read(bytes, touches));
}

#[unsafe(no_mangle)]
pub extern "C" fn chienlohup_write(touches: &[i32], buffer: &mut [u8], out: &mut [i64; 3])
    ensures said { out.new ≡ record_numbers (write_of touches.now (length buffer.old)) }
    ensures table { buffer.new ≡ buffer_after (write_of touches.now (length buffer.old)) (record_of plain_version touches.now) buffer.old }
{
    *out = record_numbers(records::write(touches, buffer));
}

#[unsafe(no_mangle)]
pub extern "C" fn chienlohup_copy(bytes: &[u8], buffer: &mut [u8], out: &mut [i64; 3])
    ensures said { out.new ≡ record_numbers (copy_of plain_version bytes.now (length buffer.old)) }
    ensures table { buffer.new ≡ buffer_after (copy_of plain_version bytes.now (length buffer.old)) bytes.now buffer.old }
{
    *out = record_numbers(records::copy(bytes, buffer));
}
