// The marks by which the border of the visible faces is found: a table of numbers, one for each directed side.
ghost use Rattle.std.specs.Prelude.{◌≡◌, ◌+◌, ◌*◌, ◌<◌, ◌≤◌, eqb, get_or, length};
ghost use Rattle.touches.specs.Limits.{most_touches};
ghost use Rattle.border.specs.Marks.{mark_place, stamp, MarkTable, Fresh, FacesOver, Marked};

use crate::side::{Side, sides_of};
use touches::TouchNo;

// A table of marks for touches below width. No model, and so same_table and same_width below: a caller's table is lent through it, and
// a model would hide which one, as `new` and `add_cone` promise it.
#[derive(Drop)]
pub struct Marks<'a> {
    table: &'a mut [u16],
    width: usize,
    ghost fits: { MarkTable width table.now },
}

// A touch that leaves marks: its number is low enough for them.
#[derive(Clone, Copy)]
pub(crate) struct Marker {
    pub(crate) touch: TouchNo,
    ghost few: { touch.0 < most_touches },
}

impl Marker {
    // The mark that it leaves: above the 1 that a table may start with.
    fn stamp(self) -> u16
        ensures { result ≡ stamp self.touch.0 }
    {
        self.touch.0 + 2
    }
}

impl<'a> Marks<'a> {
    // Marks in a table that is lent.
    pub fn new(table: &'a mut [u16], width: usize) -> Marks<'a>
        requires { MarkTable width table.old }
        ensures table { result.table.now ≡ table.old }
        ensures same_table { result.table.ghost_name ≡ table.entry.ghost_name }
        ensures width { result.width ≡ width }
    {
        Marks { table, width }
    }

    // Where the mark of side s stands.
    fn place(&self, s: Side) -> usize
        requires { (s.from < self.now.width) × (s.to < self.now.width) }
        ensures { (result ≡ mark_place self.now.width s.from s.to) × (result < length self.now.table.now) }
    {
        usize::from(s.from) * self.width + usize::from(s.to)
    }

    // The sides of the visible faces get the mark of touch k, which no side has yet: so the table need not be cleared for it.
    pub(crate) fn mark_all(&mut self, seen: &[[u16; 3]], k: Marker)
        requires { Fresh k.touch.0 self.old.table.now × FacesOver self.old.width seen.now }
        ensures marked { Marked self.old.width k.touch.0 seen.now self.new.table.now }
        ensures fresh { Fresh (k.touch.0 + 1) self.new.table.now }
        ensures same_table { self.new.table.ghost_name ≡ self.old.table.ghost_name }
        ensures same_width { self.new.width ≡ self.old.width }
    {
        for &f in seen {
            for s in sides_of(f) {
                let at = self.place(s);
                self.table[at] = k.stamp();
            }
        }
    }

    // Has side s the mark of touch k?
    pub(crate) fn is_marked(&self, s: Side, k: Marker) -> bool
        requires { (s.from < self.now.width) × (s.to < self.now.width) }
        ensures { result ≡ eqb (get_or self.now.table.now (mark_place self.now.width s.from s.to) 0) (stamp k.touch.0) }
    {
        self.table[self.place(s)] == k.stamp()
    }
}
