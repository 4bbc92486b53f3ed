// The directed sides of a face.
ghost use Rattle.std.specs.Prelude.{◌≡◌};
ghost use Rattle.rules.specs.Faces.{reversed, sides_of};

use std::marker::Model;

// A side of a face, from one touch to another.
#[derive(Clone, Copy)]
pub(crate) struct Side {
    pub(crate) from: u16,
    pub(crate) to: u16,
}

impl Model for Side {
    ghost use Rattle.rules.specs.Faces.{Side, side};

    ghost Value = { Side };

    ghost view = { λ s. side s.from s.to };

    ghost inverse = { λ s. record { from = s.from; to = s.to } };
}

impl Side {
    pub(crate) fn reversed(self) -> Side
        ensures { result ≡ reversed self }
    {
        Side {
            from: self.to,
            to: self.from,
        }
    }
}

// The three sides of face f.
pub(crate) fn sides_of(f: [u16; 3]) -> [Side; 3]
    ensures { result ≡ sides_of f }
{
    let [a, b, c] = f;
    [
        Side { from: a, to: b },
        Side { from: b, to: c },
        Side { from: c, to: a },
    ]
}
