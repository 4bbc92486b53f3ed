// Quotients of two whole numbers, the bottom one above 0, and their order: no product is made, as it would not fit.
ghost use Rattle.std.specs.Prelude.{◌≡◌, ◌<◌, pos};
ghost use Rattle.laws.specs.Fractions.{compared};
ghost use Rattle.plumb.specs.Held.{Held};

use std::cmp::Ordering;

#[derive(Clone, Copy)]
pub(crate) struct Fraction {
    pub(crate) top: i64,
    pub(crate) bottom: i64,
    ghost held: { Held (record { top = top; bottom = bottom }) },
}

impl Fraction {
    ghost use Rattle.std.specs.Prelude.{◌≢◌};
    ghost use Rattle.laws.specs.Numbers.{Within};
    ghost use Rattle.volume.specs.Volume.{most_normal};
    ghost use Rattle.rules.specs.Plumb.{height};
    ghost use Rattle.plumb.specs.Fractions.{ratio};
    ghost use Rattle.plumb.specs.Held.{most_rest};

    // top / bottom, both turned where the bottom is below 0.
    pub(crate) fn new(top: i64, bottom: i64) -> Self
        requires { (bottom ≢ pos 0) × Within most_rest top × Within most_normal bottom }
        ensures { ratio result ≡ height bottom top }
    {
        if bottom < 0 {
            Fraction {
                top: -top,
                bottom: -bottom,
            }
        } else {
            Fraction { top, bottom }
        }
    }
}

// a/b against c/d by their whole parts, then by the remainders turned over, and so on until one runs out.
fn compare_unsigned(a: u64, b: u64, c: u64, d: u64) -> Ordering
    requires { (0 < b) × (0 < d) }
    ensures { result ≡ compared (pos a) (pos b) (pos c) (pos d) Ordering.Less Ordering.Equal Ordering.Greater }
{
    match (a / b).cmp(&(c / d)) {
        Ordering::Equal => match (a % b, c % d) {
            (0, 0) => Ordering::Equal,
            (0, _) => Ordering::Less,
            (_, 0) => Ordering::Greater,
            (r, s) => compare_unsigned(d, s, b, r),
        },
        unequal => unequal,
    }
}

// The order is that of the values: 1/2 is 2/4, so `==` is not derived either.
impl Ord for Fraction {
    ghost use Rattle.std.specs.Prelude.{refl};
    ghost use Rattle.plumb.specs.Fractions.{fraction_cmp};
    ghost use Rattle.plumb.specs.FractionOrder.{fraction_total};

    ghost cmp = { fraction_cmp };

    ghost total = { fraction_total };

    ghost matches_partial_cmp = { λ x y. refl };

    ghost matches_eq = { λ x y. refl };

    // The first step, whose tops can be below 0; no remainder is.
    fn cmp(&self, other: &Fraction) -> Ordering {
        let whole = self.top.div_euclid(self.bottom);
        match whole.cmp(&other.top.div_euclid(other.bottom)) {
            Ordering::Equal => compare_unsigned(
                self.top.rem_euclid(self.bottom).unsigned_abs(),
                self.bottom.unsigned_abs(),
                other.top.rem_euclid(other.bottom).unsigned_abs(),
                other.bottom.unsigned_abs(),
            ),
            unequal => unequal,
        }
    }
}

impl PartialOrd for Fraction {
    ghost use Rattle.std.specs.Ordering.{as_partial_cmp};
    ghost use Rattle.std.specs.Cmp.{partial_order_from_total};
    ghost use Rattle.plumb.specs.Fractions.{fraction_cmp};
    ghost use Rattle.plumb.specs.FractionOrder.{fraction_total};

    ghost partial_cmp = { as_partial_cmp fraction_cmp };

    ghost laws = { partial_order_from_total fraction_total };

    fn partial_cmp(&self, other: &Fraction) -> Option<Ordering> {
        Some(self.cmp(other))
    }
}

impl Eq for Fraction {
    ghost use Rattle.std.specs.Cmp.{eq_by_cmp_equiv};
    ghost use Rattle.plumb.specs.FractionOrder.{fraction_total};

    ghost laws = { eq_by_cmp_equiv fraction_total };
}

impl PartialEq for Fraction {
    ghost use Rattle.std.specs.Ordering.{eq_by_cmp};
    ghost use Rattle.std.specs.Cmp.{eq_by_cmp_equiv};
    ghost use Rattle.std.specs.Cmp;
    ghost use Rattle.plumb.specs.Fractions.{fraction_cmp};
    ghost use Rattle.plumb.specs.FractionOrder.{fraction_total};

    ghost eq = { eq_by_cmp fraction_cmp };

    ghost laws = { Cmp.partial_equiv_from_equiv (eq_by_cmp_equiv fraction_total) };

    fn eq(&self, other: &Fraction) -> bool {
        self.cmp(other).is_eq()
    }
}
