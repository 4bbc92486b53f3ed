// The tables that building works in, and one building step.
ghost use Rattle.std.specs.Prelude.{◌≡◌, [], ℕ, ◌+◌, ◌<◌, ◌≤◌, pos, length, take, get_or, position};
ghost use Rattle.std.specs.Int.Signed.{lt_z};
ghost use Rattle.laws.specs.Lists.{Laid};
ghost use Rattle.touches.specs.Touches.{touch, touch_count};
ghost use Rattle.rules.specs.Building.{step};
ghost use Rattle.rules.specs.Demands.{FaceOf};
ghost use Rattle.border.specs.Marks.{Fresh};
ghost use Rattle.hull.specs.Whole.{read_at, Planed};
ghost use Rattle.hull.specs.Inner.{Ready, PartOf};

use crate::whole::in_front;
use border::{Marks, add_cone};
use points::touch::touch;
use points::whole::{WholePlane, plane_on};
use touches::{Place, TouchList, TouchNo};

// The face list, the first faces of a table, with their planes beside them; room for the faces that a touch sees; and the marks. Faces
// and planes are two tables: `border` writes faces and knows no planes, and the search for the first visible face reads planes alone.
// That the planes are those of the faces stands in the contracts and is no ghost field: it speaks of a list, and fails within `part`.
#[derive(Drop)]
pub(crate) struct Work<'a> {
    pub(crate) table: &'a mut [[u16; 3]],
    pub(crate) planes: &'a mut [WholePlane],
    pub(crate) seen: &'a mut [[u16; 3]],
    pub(crate) marks: Marks<'a>,
    pub(crate) count: usize,
    ghost planes_long: { length planes.now ≡ length table.now },
    ghost seen_long: { length seen.now ≡ length table.now },
    ghost holds: { count ≤ length table.now },
}

impl Work<'_> {
    // The first face that q is in front of.
    fn first_in_front(&self, q: Place) -> Option<usize>
        ensures { result ≡ position (λ p. lt_z (read_at p q) (pos 0)) (take self.now.count self.now.planes.now) }
    {
        self.planes[..self.count]
            .iter()
            .position(|&p| in_front(p, q))
    }

    // The planes of the faces from number start on, beside those before them.
    pub(crate) fn put_planes(&mut self, list: &TouchList<'_>, start: usize)
        requires { Planed list.now.lent.now start self.old.table.now self.old.planes.now × (start ≤ self.old.count)
            × ((j : ℕ) → start ≤ j → j < self.old.count → FaceOf list.now.lent.now (get_or self.old.table.now j [])) }
        ensures planes { Planed list.now.lent.now self.old.count self.new.table.now self.new.planes.now }
        ensures same { (self.new.table.now ≡ self.old.table.now) × (self.new.count ≡ self.old.count) × (self.new.marks ≡ self.old.marks) }
    {
        // By index: no invariant can speak of what is written through `iter_mut().zip(..)`, and the proof does not close.
        for i in start..self.count {
            self.planes[i] = plane_on(list, touches::corners(self.table[i]));
        }
    }

    // The faces that are not visible from k stay, with their planes, and the visible ones go to seen, each in their order: how many
    // are visible. Nothing moves before the first of them.
    fn part(&mut self, list: &TouchList<'_>, k: TouchNo) -> usize
        requires { Ready list.now.lent.now (take self.old.count self.old.table.now) k.0 × Planed list.now.lent.now self.old.count self.old.table.now self.old.planes.now }
        ensures faces { PartOf list.now.lent.now (take self.old.count self.old.table.now) k.0 self.old.table.now
            self.new.count self.new.table.now result self.new.seen.now }
        ensures planes { Planed list.now.lent.now self.new.count self.new.table.now self.new.planes.now }
        ensures same_room { length self.new.table.now ≡ length self.old.table.now }
        ensures same_marks { self.new.marks ≡ self.old.marks }
    {
        let q = touch(list, k);
        let n = self.count;
        let Some(first) = self.first_in_front(q) else {
            return 0;
        };
        self.seen[0] = self.table[first];
        // By index: both tables close up in place. `retain` is a Vec's, and the library has no heap.
        let mut m = first;
        let mut s = 1;
        for i in first + 1..n {
            // Read once, and moved as it was read: from place to place in the table a plane goes by vector code, at which emulators are slow.
            let p = self.planes[i];
            if in_front(p, q) {
                self.seen[s] = self.table[i];
                s += 1;
            } else {
                self.table[m] = self.table[i];
                self.planes[m] = p;
                m += 1;
            }
        }
        self.count = m;
        s
    }

    // Touch k is taken.
    pub(crate) fn step(&mut self, list: &TouchList<'_>, k: TouchNo)
        requires { Ready list.now.lent.now (take self.old.count self.old.table.now) k.0 × Planed list.now.lent.now self.old.count self.old.table.now self.old.planes.now
            × (self.old.marks.width ≡ touch_count list.now.lent.now) × Fresh k.0 self.old.marks.table.now
            × (length (step (touch list.now.lent.now) (take self.old.count self.old.table.now) k.0) ≤ length self.old.table.now) }
        ensures faces { Laid 0 (step (touch list.now.lent.now) (take self.old.count self.old.table.now) k.0) self.old.table.now self.new.count self.new.table.now }
        ensures planes { Planed list.now.lent.now self.new.count self.new.table.now self.new.planes.now }
        ensures marks { Fresh (k.0 + 1) self.new.marks.table.now }
        ensures same_room { length self.new.table.now ≡ length self.old.table.now }
        ensures same_width { self.new.marks.width ≡ self.old.marks.width }
    {
        let visible = self.part(list, k);
        let kept = self.count;
        self.count = add_cone(self.table, kept, &self.seen[..visible], &mut self.marks, k);
        self.put_planes(list, kept);
    }
}
