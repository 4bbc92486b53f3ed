// Works out planes, plane readings and plumb lines of small blocks, one line a case; `stdout` beside src/ is what they must be.
#![tactic(auto)]

use plumb::Plumbed;
use std::{fmt, io};
use touches::{Point, TouchList, TouchNo};

// T of document 01, the block at 512, a line of three touches with one beside it.
const T: [i32; 12] = [0, 0, 0, 10, 0, 0, 0, 10, 0, 0, 0, 10];

const WIDE: [i32; 12] = [
    512, 512, 512, 512, -512, -512, -512, 512, -512, -512, -512, 512,
];

const LINE: [i32; 12] = [0, 0, 0, 10, 0, 0, 20, 0, 0, 0, 10, 0];

const FAR: [i32; 12] = [0, 0, 0, 10, 0, 0, 0, 10, 0, 0, 0, 30001];

const R: i32 = 30000;

const EDGE: [i32; 12] = [-R, -R, -R, R, -R, -R, -R, R, -R, -R, -R, R];

// Slanting faces 2x + 3y + 6z = 12; 5x + 5y + 3z = 15 above 7x + 7y - 3z = 21; x + y - z = 10.
const WEDGE: [i32; 12] = [0, 0, 0, 6, 0, 0, 0, 4, 0, 0, 0, 2];

const SPINDLE: [i32; 12] = [0, 0, -7, 3, 0, 0, 0, 3, 0, 0, 0, 5];

const UNDER: [i32; 12] = [0, 0, 0, 10, 0, 0, 0, 10, 0, 0, 0, -10];

// At y = 0 nothing but the edge z = x/3 - 2.
const KEEL: [i32; 12] = [0, 0, -2, 3, 0, -1, 1, 5, -2, 1, 5, 7];

// Near its long edge the heights of entry and exit are one double.
const THIN: [i32; 12] = [
    -R, -R, 29949, R, 29998, 29903, -R, 29998, 29811, -29997, R, 29811,
];

// A double that holds a whole number; minus zero shows its sign.
#[derive(Clone, Copy)]
struct Whole(f64);

impl fmt::Display for Whole {
    fn fmt<W: fmt::Write>(&self, f: &mut fmt::Formatter<W>) -> fmt::Result {
        let x = self.0;
        if x < 0.0 || 1.0 / x < 0.0 {
            f.write_str("-")?;
        }
        let size = x.abs();
        if -1.0 < size {
            if size < 18446744073709551616.0 {
                return write!(f, "{}", std::num::truncating_f64_to_u64(size));
            }
        }
        f.write_str("no whole number")
    }
}

// A height in millionths, cut to a whole number.
fn height(z: f64) -> Whole {
    Whole(z * 1000000.0)
}

fn plane(rt: &impl Print, coords: &[i32], a: u16, b: u16, c: u16) -> io::Result<()> {
    match planes::plane_of(coords, TouchNo(a), TouchNo(b), TouchNo(c)) {
        Ok(p) => println!(rt;
            "plane {} {} {} {}",
            Whole(p.x),
            Whole(p.y),
            Whole(p.z),
            Whole(p.offset)
        ),
        Err(r) => println!(rt; "{r}"),
    }
}

fn at(x: i64, y: i64, z: i64) -> Point {
    Point { x, y, z }
}

fn reading(rt: &impl Print, coords: &[i32], face: [u16; 3], q: Point) -> io::Result<()> {
    let [a, b, c] = face.map(TouchNo);
    match planes::plane_reading(coords, a, b, c, q) {
        Ok(v) => println!(rt; "reads {}", Whole(v)),
        Err(r) => println!(rt; "{r}"),
    }
}

fn line(rt: &impl Print, coords: &[i32], x: i64, y: i64) -> io::Result<()> {
    match plumb::plumb(coords, x, y) {
        Ok(Plumbed::Misses) => println!(rt; "misses"),
        Ok(Plumbed::Touches(z)) => println!(rt; "touches {}", height(z)),
        Ok(Plumbed::Through(u, l)) => println!(rt; "through {} {}", height(u), height(l)),
        Err(r) => println!(rt; "{r}"),
    }
}

// The four faces of T, and what they read at places on both sides.
fn block_t(rt: &impl Print) -> io::Result<()> {
    plane(rt, &T, 1, 0, 2)?;
    plane(rt, &T, 1, 3, 0)?;
    plane(rt, &T, 0, 3, 2)?;
    plane(rt, &T, 2, 3, 1)?;
    reading(rt, &T, [2, 3, 1], at(1, 1, 1))?;
    reading(rt, &T, [2, 3, 1], at(2, 3, 5))?;
    reading(rt, &T, [2, 3, 1], at(10, 10, 10))?;
    // the steps make minus zero here, the answer is plus zero
    reading(rt, &T, [1, 0, 2], at(-5, -5, 0))
}

// V too large for 32 bits, and coordinates at the limit.
fn large_blocks(rt: &impl Print) -> io::Result<()> {
    plane(rt, &WIDE, 0, 1, 2)?;
    reading(rt, &WIDE, [0, 1, 2], at(-512, -512, 512))?;
    plane(rt, &EDGE, 0, 1, 2)?;
    reading(rt, &EDGE, [0, 1, 2], at(30000, 30000, 30000))?;
    plane(rt, &EDGE, 1, 2, 3)?;
    reading(rt, &EDGE, [1, 2, 3], at(-30000, -30000, -30000))
}

// Refusals 1, 2, 3, 6, each alone and before the next in the order.
fn plane_refusals(rt: &impl Print) -> io::Result<()> {
    let many = [0i32; TouchList::MOST * 3 + 3];
    let odd = [0i32; TouchList::MOST * 3 + 4];
    let mut stray = many;
    stray[100] = -30001;
    plane(rt, &T[..11], 1, 0, 2)?;
    plane(rt, &odd, 0, 0, 0)?;
    plane(rt, &many, 0, 0, 0)?;
    plane(rt, &stray, 0, 0, 0)?;
    plane(rt, &FAR, 1, 0, 2)?;
    plane(rt, &FAR, 9, 9, 9)?;
    plane(rt, &T, 4, 0, 2)?;
    plane(rt, &T, 1, 4, 2)?;
    plane(rt, &T, 1, 0, 65535)?;
    plane(rt, &T[..0], 0, 0, 0)?;
    plane(rt, &LINE, 0, 1, 2)?;
    plane(rt, &LINE, 0, 1, 1)?;
    plane(rt, &LINE, 0, 1, 3)
}

// The same of a reading, and 7 last.
fn reading_refusals(rt: &impl Print) -> io::Result<()> {
    reading(rt, &T[..10], [1, 0, 2], at(0, 0, 30001))?;
    reading(rt, &FAR, [9, 9, 9], at(0, 0, 30001))?;
    reading(rt, &LINE, [0, 1, 2], at(0, 0, 30001))?;
    reading(rt, &T, [1, 0, 4], at(30001, 0, 0))?;
    reading(rt, &T, [1, 0, 2], at(30001, 0, 0))?;
    reading(rt, &T, [1, 0, 2], at(0, -30001, 0))?;
    reading(rt, &T, [1, 0, 2], at(0, 0, 9223372036854775807))?;
    reading(rt, &T, [1, 0, 2], at(-30000, 30000, -30000))
}

// Through T, down its upright edge and side, at a corner and at an edge; past it, and in front of an upright side.
fn lines_t(rt: &impl Print) -> io::Result<()> {
    line(rt, &T, 1, 1)?;
    line(rt, &T, 0, 0)?;
    line(rt, &T, 5, 0)?;
    line(rt, &T, 10, 0)?;
    line(rt, &T, 5, 5)?;
    line(rt, &T, 11, 0)?;
    line(rt, &T, -1, 0)
}

// Heights that are no whole numbers, heights below zero and zero above them, one double for two heights, and the limits.
fn lines(rt: &impl Print) -> io::Result<()> {
    line(rt, &WEDGE, 1, 1)?;
    line(rt, &SPINDLE, 1, 1)?;
    line(rt, &SPINDLE, 1, 2)?;
    line(rt, &UNDER, 1, 1)?;
    line(rt, &KEEL, 1, 0)?;
    line(rt, &KEEL, 1, 5)?;
    line(rt, &THIN, 2873, 2872)?;
    line(rt, &THIN, 2874, 2872)?;
    line(rt, &EDGE, -30000, -30000)?;
    line(rt, &EDGE, 30000, -30000)?;
    line(rt, &EDGE, 30000, 30000)
}

// Refusals 1, 2, 3, 4, 7, each before the next in the order.
fn line_refusals(rt: &impl Print) -> io::Result<()> {
    let many = [0i32; TouchList::MOST * 3 + 3];
    line(rt, &T[..11], 30001, 0)?;
    line(rt, &many, 30001, 0)?;
    line(rt, &FAR, 30001, 0)?;
    line(rt, &LINE, 30001, 0)?;
    line(rt, &T, 30001, 0)?;
    line(rt, &T, 0, -30001)?;
    line(rt, &T, 9223372036854775807, 0)
}

fn main(rt: HostRuntime) -> io::Result<()> {
    block_t(&rt)?;
    large_blocks(&rt)?;
    plane_refusals(&rt)?;
    reading_refusals(&rt)?;
    lines_t(&rt)?;
    lines(&rt)?;
    line_refusals(&rt)
}
