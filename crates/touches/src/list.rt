// A lent list that passed refusals 1 to 3: in a clause `list.now.lent.now` is the list of its coordinates.
ghost use Rattle.std.specs.Prelude.{◌≡◌};
ghost use Rattle.touches.specs.Limits.{limits_of};
ghost use Rattle.touches.specs.Touches.{Sound, touch_count};

use crate::Limits;

// A ghost field and no model, since a type with a lifetime and a model is never `Copy`. The field is public: a list that is proved sound
// needs no check.
#[derive(Clone, Copy)]
pub struct TouchList<'a> {
    pub lent: &'a [i32],
    ghost sound: { Sound lent.now },
}

impl TouchList<'_> {
    pub const MOST: usize = 64;

    pub const REACH: i64 = 30000;

    pub const MOST_FACES: usize = 1344;

    // No hull has more faces (`cover` FewFaces).
    pub const ENOUGH_FACES: usize = 2 * TouchList::MOST - 4;

    // The limits that the definitions name are those of the code.
    pub fn limits() -> Limits
        ensures { result ≡ limits_of }
    {
        Limits {
            touches: TouchList::MOST,
            reach: TouchList::REACH,
            faces: TouchList::MOST_FACES,
        }
    }

    pub fn coords(&self) -> &[i32]
        ensures is { result.now ≡ self.now.lent.now }
        ensures sound { Sound self.now.lent.now }
    {
        self.lent
    }

    pub fn count(&self) -> usize
        ensures is { result ≡ touch_count self.now.lent.now }
        ensures sound { Sound self.now.lent.now }
    {
        self.coords().len() / 3
    }
}
