// The plane of a face in whole numbers: the normal and the offset.
ghost use Rattle.std.specs.Prelude.{◌≡◌};
ghost use Rattle.touches.specs.Touches.{touch, plain};
ghost use Rattle.rules.specs.Demands.{FaceOf};
ghost use Rattle.points.specs.Whole.{whole_plane, plane_on};

use crate::touch::corners;
use crate::vectors::{dot, normal};
use std::marker::Model;
use touches::{Place, Point, TouchList, TouchNo};

// Its numbers are no larger than those of a face.
#[derive(Clone, Copy)]
pub struct WholePlane {
    pub normal: Point,
    pub offset: i64,
}

impl Model for WholePlane {
    ghost use Rattle.points.specs.Whole.{Plane, PlaneNear};

    ghost Value = { Plane };

    ghost view = { λ p. record { normal = p.normal; offset = p.offset } };

    ghost invariant = { λ p. PlaneNear (record { normal = p.normal; offset = p.offset }) };

    ghost inverse = { λ p. record { normal = p.normal; offset = p.offset } };
}

fn through(a: Place, b: Place, c: Place) -> WholePlane
    ensures { result ≡ whole_plane a b c }
{
    let n = normal(a, b, c);
    let offset = dot(n, Point::from(a));
    WholePlane { normal: n, offset }
}

pub fn plane_on(list: &TouchList<'_>, f: [TouchNo; 3]) -> WholePlane
    requires { FaceOf list.now.lent.now (plain f) }
    ensures { result ≡ plane_on (touch list.now.lent.now) (plain f) }
{
    let [a, b, c] = corners(list, f);
    through(a, b, c)
}
