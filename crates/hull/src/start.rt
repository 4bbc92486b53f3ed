// The start: P, Q, R and S, and the four faces over A, B, C and D.
ghost use Rattle.std.specs.Prelude.{◌≡◌, [], Bool, ℕ, ◌<◌, ◌≤◌, length, get_or};
ghost use Rattle.laws.specs.Lists.{first, upward, Laid};
ghost use Rattle.touches.specs.Touches.{touch, touch_count};
ghost use Rattle.rules.specs.Start.{start, corners, start_faces, is_start};
ghost use Rattle.hull.specs.Start.{is_apart, is_off_line, is_off_plane, found_of, start_of, started_of, KnownStart};

use crate::four_corner::volume;
use points::touch::touch;
use points::vectors::in_line;
use touches::{TouchList, TouchNo};

// The starting faces, by place among A, B, C, D.
const START: [[usize; 3]; 4] = [[0, 1, 2], [0, 3, 1], [1, 3, 2], [2, 3, 0]];

// P, Q, R and S.
#[derive(Clone, Copy)]
pub(crate) struct Start {
    pub(crate) p: TouchNo,
    pub(crate) q: TouchNo,
    pub(crate) r: TouchNo,
    pub(crate) s: TouchNo,
}

impl Start {
    // Touch k is one of the four.
    pub(crate) fn has(self, k: TouchNo) -> bool
        ensures { result ≡ is_start (start_of self) k.0 }
    {
        [self.p, self.q, self.r, self.s].contains(&k)
    }
}

// The first touch that suits.
fn first_touch<F: Fn(TouchNo) -> bool>(list: &TouchList<'_>, suits: F) -> Option<TouchNo>
    requires { (k : TouchNo) → k.0 < touch_count list.now.lent.now → F.pre suits k }
    ensures { (q : ℕ → Bool) → ((k : TouchNo) → (b : Bool) → F.post suits k b → b ≡ q k.0)
        → result ≡ found_of (first q (upward 0 (touch_count list.now.lent.now))) }
{
    (0..list.count() as u16).map(TouchNo).find(
        |k|
            requires { F.pre suits k.now }
        { suits(*k) },
    )
}

// Q: the first touch apart from P.
fn find_q(list: &TouchList<'_>) -> Option<TouchNo>
    ensures { result ≡ found_of (first (is_apart (touch list.now.lent.now)) (upward 0 (touch_count list.now.lent.now))) }
{
    first_touch(list, |k| touch(list, TouchNo(0)) != touch(list, k))
}

// R: the first touch off the line of P and Q.
fn find_r(list: &TouchList<'_>, q: TouchNo) -> Option<TouchNo>
    requires { q.0 < touch_count list.now.lent.now }
    ensures { result ≡ found_of (first (is_off_line (touch list.now.lent.now) q.0) (upward 0 (touch_count list.now.lent.now))) }
{
    let p = touch(list, TouchNo(0));
    let q = touch(list, q);
    first_touch(list, |k| !in_line(p, q, touch(list, k)))
}

// S: the first touch off the plane of P, Q and R.
fn find_s(list: &TouchList<'_>, q: TouchNo, r: TouchNo) -> Option<TouchNo>
    requires { (q.0 < touch_count list.now.lent.now) × (r.0 < touch_count list.now.lent.now) }
    ensures { result ≡ found_of (first (is_off_plane (touch list.now.lent.now) q.0 r.0) (upward 0 (touch_count list.now.lent.now))) }
{
    let p = touch(list, TouchNo(0));
    let q = touch(list, q);
    let r = touch(list, r);
    first_touch(list, |k| volume(p, q, r, touch(list, k)) != 0)
}

// P, Q, R and S, or none where the touches are flat.
pub(crate) fn find_start(list: &TouchList<'_>) -> Option<Start>
    ensures { result ≡ started_of (start (touch list.now.lent.now) (touch_count list.now.lent.now)) }
{
    let q = find_q(list)?;
    let r = find_r(list, q)?;
    let s = find_s(list, q, r)?;
    Some(Start {
        p: TouchNo(0),
        q,
        r,
        s,
    })
}

// A, B, C, D.
fn corners(list: &TouchList<'_>, s: Start) -> [u16; 4]
    requires { KnownStart (touch_count list.now.lent.now) s }
    ensures { result ≡ corners (touch list.now.lent.now) (start_of s) }
{
    let p = touch(list, s.p);
    let q = touch(list, s.q);
    let r = touch(list, s.r);
    if 0 < volume(p, q, r, touch(list, s.s)) {
        [s.p.0, s.q.0, s.r.0, s.s.0]
    } else {
        [s.q.0, s.p.0, s.r.0, s.s.0]
    }
}

// The four starting faces: how many they are.
pub(crate) fn put_start(table: &mut [[u16; 3]], list: &TouchList<'_>, s: Start) -> usize
    requires { KnownStart (touch_count list.now.lent.now) s × (4 ≤ length table.old) }
    ensures { Laid 0 (start_faces (corners (touch list.now.lent.now) (start_of s))) table.old result table.new }
{
    let abcd = corners(list, s);
    for (i, [a, b, c]) in START.iter().enumerate() {
        table[i] = [abcd[*a], abcd[*b], abcd[*c]];
    }
    START.len()
}
