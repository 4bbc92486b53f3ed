// Builds small blocks into lent tables of several rooms and places places against them, one line a case; `stdout` beside src/ is what they must be.
#![tactic(auto)]

use hull::place::Placed;
use std::io;
use touches::{Point, TouchList};

const R: i32 = 30000;

// T of document 01, and T with one number changed.
const T: [i32; 12] = [0, 0, 0, 10, 0, 0, 0, 10, 0, 0, 0, 10];

const LOW: [i32; 12] = [0, 0, 0, 10, 0, 0, 0, 10, 0, 0, 0, -R];

const FAR: [i32; 12] = [0, 0, 0, 10, 0, 0, 0, 10, 0, 0, 0, R + 1];

// T and a touch beside its bottom: a flat side of two triangles.
const MORE: [i32; 15] = [0, 0, 0, 10, 0, 0, 0, 10, 0, 0, 0, 10, 10, 10, 0];

const SIX: [u16; 18] = [1, 0, 2, 1, 3, 0, 0, 3, 2, 2, 3, 4, 3, 1, 4, 1, 2, 4];

// Six corners, and as many faces as six touches can give: 8.
const OCTAHEDRON: [i32; 18] = [9, 0, 0, -9, 0, 0, 0, 9, 0, 0, -9, 0, 0, 0, 9, 0, 0, -9];

// As wide as can be.
const WIDE: [i32; 12] = [R, R, R, R, -R, -R, -R, R, -R, -R, -R, R];

const FLAT: [i32; 12] = [R, 0, 0, 0, R, 0, 0, 0, R, 10000, 10000, 10000];

// The four faces of T, and the same with a face in line and with one over a missing touch; one face of T and then another one twice.
const FACES: [u16; 12] = [1, 0, 2, 1, 3, 0, 0, 3, 2, 2, 3, 1];

const LINE: [u16; 12] = [1, 0, 2, 1, 1, 0, 0, 3, 2, 2, 3, 1];

const TWICE: [u16; 9] = [1, 0, 2, 2, 3, 1, 2, 3, 1];

const MISSING: [u16; 12] = [1, 0, 2, 1, 3, 0, 0, 3, 2, 2, 3, 4];

// The answer, and all of the lent table after it.
fn build(rt: &impl Print, coords: &[i32], faces: &mut [u16]) -> io::Result<()> {
    match hull::build::build(coords, faces) {
        Ok(hull) => print!(rt; "hull {} {} |", hull.faces, hull.volume)?,
        Err(r) => print!(rt; "{r} |")?,
    }
    for n in faces.iter() {
        print!(rt; " {n}")?;
    }
    println!(rt; "")
}

fn place(rt: &impl Print, coords: &[i32], faces: &[u16], x: i64, y: i64, z: i64) -> io::Result<()> {
    match hull::place::place(coords, faces, Point { x, y, z }) {
        Ok(Placed::Inside) => println!(rt; "inside"),
        Ok(Placed::On(f)) => println!(rt; "on {}", f.0),
        Ok(Placed::Outside(f, d)) => println!(rt; "outside {} {d}", f.0),
        Err(r) => println!(rt; "{r}"),
    }
}

// Room 3 and 4, odd numbers at the end, more room than needed.
fn rooms(rt: &impl Print) -> io::Result<()> {
    build(rt, &T, &mut [7u16; 9])?;
    build(rt, &T, &mut [7u16; 11])?;
    build(rt, &T, &mut [7u16; 12])?;
    build(rt, &T, &mut [7u16; 14])?;
    build(rt, &T, &mut [7u16; 0])?;
    build(rt, &LOW, &mut [7u16; 12])?;
    build(rt, &OCTAHEDRON, &mut [7u16; 23])?;
    build(rt, &OCTAHEDRON, &mut [7u16; 24])
}

// Refusals 1 to 5, each before the next.
fn build_refusals(rt: &impl Print) -> io::Result<()> {
    let many = [0i32; TouchList::MOST * 3 + 3];
    let odd = [0i32; TouchList::MOST * 3 + 4];
    let mut stray = many;
    stray[7] = R + 1;
    build(rt, &T[..11], &mut [7u16; 3])?;
    build(rt, &odd, &mut [7u16; 3])?;
    build(rt, &many, &mut [7u16; 3])?;
    build(rt, &stray, &mut [7u16; 3])?;
    build(rt, &FAR, &mut [7u16; 3])?;
    build(rt, &FAR[3..], &mut [7u16; 3])?;
    build(rt, &FLAT, &mut [7u16; 3])?;
    build(rt, &T[..9], &mut [7u16; 3])?;
    build(rt, &T[..0], &mut [7u16; 3])
}

// Against T.
fn places(rt: &impl Print) -> io::Result<()> {
    place(rt, &T, &FACES, 1, 1, 1)?;
    place(rt, &T, &FACES, 2, 3, 5)?;
    place(rt, &T, &FACES, 10, 10, 10)?;
    place(rt, &T, &FACES, 0, 0, 0)
}

// In front of one face alone; of three alike; of three, the two worst alike and not the first; of one, on the planes of two more.
fn worst_faces(rt: &impl Print) -> io::Result<()> {
    place(rt, &T, &FACES, 5, 4, -1)?;
    place(rt, &T, &FACES, -1, -1, -1)?;
    place(rt, &T, &FACES, -2, -2, -1)?;
    place(rt, &T, &FACES, 20, 0, 0)?;
    let mut faces = [0u16; 12];
    let _ = hull::build::build(&WIDE, &mut faces);
    place(rt, &WIDE, &faces, 30000, 30000, -30000)
}

// Against tables that are no hull: one face; a face twice; a face in line, whose plane holds every place.
fn no_hulls(rt: &impl Print) -> io::Result<()> {
    place(rt, &T, &FACES[9..], 10, 10, 10)?;
    place(rt, &T, &TWICE, 10, 10, 10)?;
    place(rt, &T, &LINE, 1, 1, 1)?;
    place(rt, &T, &LINE, 10, 10, 10)
}

// In each triangle of a flat side, on the border between them and on a corner; one triangle alone, on its border and beyond it.
fn triangles(rt: &impl Print) -> io::Result<()> {
    place(rt, &MORE, &SIX, 3, 3, 0)?;
    place(rt, &MORE, &SIX, 9, 9, 0)?;
    place(rt, &MORE, &SIX, 5, 5, 0)?;
    place(rt, &MORE, &SIX, 10, 10, 0)?;
    place(rt, &T, &FACES[..3], 0, 5, 0)?;
    place(rt, &T, &FACES[..3], 9, 9, 0)
}

// A face in line, on an end, between the ends, past them and beside them; a face that is one point.
fn lines(rt: &impl Print) -> io::Result<()> {
    place(rt, &T, &[1, 0, 1], 10, 0, 0)?;
    place(rt, &T, &[0, 1, 1], 7, 0, 0)?;
    place(rt, &T, &[0, 1, 0], 11, 0, 0)?;
    place(rt, &T, &[0, 1, 1], 7, 1, 0)?;
    place(rt, &T, &[3, 3, 3], 0, 0, 10)?;
    place(rt, &T, &[3, 3, 3], 0, 0, 9)
}

// Refusals 1, 2, 3, 6, 7, 17, each before the next.
fn place_refusals(rt: &impl Print) -> io::Result<()> {
    let many = [0i32; TouchList::MOST * 3 + 3];
    let long = [0u16; TouchList::MOST_FACES * 3 + 3];
    place(rt, &T[..11], &FACES, 1, 1, 1)?;
    place(rt, &many, &FACES, 1, 1, 1)?;
    place(rt, &FAR, &FACES[..0], 1, 1, 1)?;
    place(rt, &T, &FACES[..0], 1, 1, 30001)?;
    place(rt, &T, &FACES[..11], 1, 1, 30001)?;
    place(rt, &T, &MISSING, 1, 1, 30001)?;
    place(rt, &T, &long, 1, 1, 30001)?;
    place(rt, &T, &long[3..], 1, 1, 1)?;
    place(rt, &T, &FACES, 1, 1, 30001)?;
    place(rt, &T, &FACES, -30001, 1, 1)?;
    place(rt, &T, &FACES[..3], 30001, 0, 0)?;
    place(rt, &T[..0], &FACES, 1, 1, 1)
}

fn main(rt: HostRuntime) -> io::Result<()> {
    rooms(&rt)?;
    build_refusals(&rt)?;
    places(&rt)?;
    worst_faces(&rt)?;
    no_hulls(&rt)?;
    triangles(&rt)?;
    lines(&rt)?;
    place_refusals(&rt)
}
