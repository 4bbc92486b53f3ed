// The listing of a record: the hull or the refusal, as text.
#![tactic(auto)]

ghost use Rattle.std.specs.Prelude.{◌≡◌, ◌++◌, ◌+◌, ◌*◌, ◌<◌, ◌≤◌, length, take, MatchResult};
ghost use Rattle.touches.specs.Touches.{plain};
ghost use Rattle.table.specs.Table.{room, faces_in};
ghost use Rattle.text.specs.Room.{Put, Front};
ghost use Rattle.lister.specs.Listing.{hull_line, refused_line, face_line, face_lines, hull_text, listing};
ghost use Rattle.lister.specs.Room.{face_room, first_room, listing_room};

mod input;
mod lines;

use crate::lines::Lines;
use hull::build::{Hull, build};
pub use input::list_input;
use touches::{FaceNo, Refusal, TouchList, TouchNo};

// More bytes than these are refused 8.
pub const MOST_BYTES: usize = 65536;

// Room for the longest listing: the first line, and a line a face.
pub const ROOM: usize = 32 + TouchList::ENOUGH_FACES * 18;

// Not by Refusal's Display, which writes the same words: a `write!` can fail, and this cannot.
fn refused_lines(x: Refusal) -> Lines
    ensures { result ≡ refused_line x }
{
    let mut lines = Lines::new();
    lines.put_word(b"refused ");
    lines.put_field(u16::from(x.number()), b' ');
    lines.put_field(x.place().0, b'\n');
    lines
}

fn put_hull(lines: &mut Lines, hull: Hull)
    requires { length lines.old + first_room ≤ listing_room }
    ensures put { lines.new ≡ lines.old ++ hull_line hull.faces hull.volume }
    ensures short { length lines.new ≤ length lines.old + first_room }
{
    lines.put_word(b"hull ");
    lines.put_field(hull.faces, b' ');
    lines.put_volume(hull.volume);
}

fn put_face(lines: &mut Lines, f: [TouchNo; 3])
    requires { length lines.old + face_room ≤ listing_room }
    ensures put { lines.new ≡ lines.old ++ face_line (plain f) }
    ensures short { length lines.new ≤ length lines.old + face_room }
{
    lines.put_field(f[0].0, b' ');
    lines.put_field(f[1].0, b' ');
    lines.put_field(f[2].0, b'\n');
}

// A line for each of the faces.
fn put_faces(lines: &mut Lines, faces: &[[u16; 3]])
    requires { length lines.old + length faces.now * face_room ≤ listing_room }
    ensures { lines.new ≡ lines.old ++ face_lines faces.now }
{
    for &f in faces {
        put_face(lines, touches::corners(f));
    }
}

// The hull of the touches, or why there is none.
fn hull_lines(coords: &[i32]) -> Result<Lines, Refusal>
    ensures { MatchResult result (λ l. l ≡ hull_text coords.now) (λ x. hull_text coords.now ≡ refused_line x) }
{
    let mut faces = [0u16; table::ENOUGH];
    let hull = build(coords, &mut faces)?;
    let mut lines = Lines::new();
    put_hull(&mut lines, hull);
    put_faces(&mut lines, &table::faces(&faces)[..usize::from(hull.faces)]);
    Ok(lines)
}

// The hull of the record's touches, or why there is none.
fn record_lines(bytes: &[u8]) -> Result<Lines, Refusal>
    ensures { MatchResult result (λ l. l ≡ listing bytes.now) (λ x. listing bytes.now ≡ refused_line x) }
{
    if MOST_BYTES < bytes.len() {
        return Err(Refusal::RecordLengthWrong);
    }
    let mut coords = [0i32; TouchList::MOST * 3];
    let n = records::read(bytes, &mut coords)?;
    hull_lines(&coords[..n * 3])
}

fn listing_lines(bytes: &[u8]) -> Lines
    ensures { result ≡ listing bytes.now }
{
    record_lines(bytes).unwrap_or_else(refused_lines)
}

// The listing of a record into the lent text: how many bytes it is, or 0 where there is no room for it all. There always is in ROOM bytes.
pub fn list(bytes: &[u8], text: &mut [u8]) -> usize
    ensures text { Put 0 (listing bytes.now) text.old result text.new }
    ensures room { length (listing bytes.now) ≤ listing_room }
    ensures front { Front result text.new }
{
    text::put_bytes(text, 0, listing_lines(bytes).bytes())
}
