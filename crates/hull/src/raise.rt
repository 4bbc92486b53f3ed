// From the start to the whole hull.
ghost use Rattle.std.specs.Prelude.{◌≡◌, length};
ghost use Rattle.touches.specs.Touches.{touch_count};
ghost use Rattle.border.specs.Marks.{Fresh};
ghost use Rattle.hull.specs.Start.{start_of};
ghost use Rattle.hull.specs.Inner.{Begun, Taken, Roomy};

use crate::start::{Start, put_start};
use crate::step::Work;
use touches::{TouchList, TouchNo};

impl Work<'_> {
    // What a start is (`Begun`) is asked for by each step from it: it speaks of the list and the start, and the type of neither holds it.
    // The hull of the touches becomes the face list. Every touch that is not of the start is taken, by rising number.
    pub(crate) fn raise(&mut self, list: &TouchList<'_>, s: Start)
        requires { Begun list.now.lent.now (start_of s) × Roomy list.now.lent.now (length self.old.table.now) self.old.marks.width
            × Fresh 0 self.old.marks.table.now }
        ensures taken { Taken list.now.lent.now (start_of s) (touch_count list.now.lent.now) self.new.count self.new.table.now self.new.planes.now }
        ensures same_room { length self.new.table.now ≡ length self.old.table.now }
    {
        self.count = put_start(self.table, list, s);
        self.put_planes(list, 0);
        for k in 0..list.count() as u16 {
            if !s.has(TouchNo(k)) {
                self.step(list, TouchNo(k));
            }
        }
    }
}
