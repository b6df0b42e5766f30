ghost use Rattle.std.specs.Prelude.{◌≡◌, IfOk};

use crate::memory::OutOfMemory;
use std::marker::Model;

/// One function of a transform. CSS Transforms 1, "The Transform Functions".
#[derive(Clone, Copy, Debug, PartialEq, Eq, Hash)]
pub enum Function {
    /// The map to (a x + c y + e, b x + d y + f) over q, in units (1/64 px): a to d within 2^30, e and f within 2^40,
    /// q from 1 to 2^30.
    Matrix {
        a: i64,
        b: i64,
        c: i64,
        d: i64,
        e: i64,
        f: i64,
        q: i64,
    },
    /// The shift by x and y, within 2^26 units.
    Translate {
        x: i64,
        y: i64,
    },
    /// The stretching by x / q across and y / q down: x and y within 2^30, q from 1 to 2^30.
    Scale {
        x: i64,
        y: i64,
        q: i64,
    },
    /// That many quarter turns, 0 to 3, from the x axis towards the y axis.
    Quarter {
        turns: u8,
    },
}

/// The functions of a transform in their order, which clauses see as a list; none for no transform.
#[derive(Debug, Drop)]
pub struct Functions(pub Vec<Function>);

impl Model for Functions {
    ghost use Rattle.std.specs.Prelude.{List};
    ghost use Rattle.computed_style.specs.declared.function.Function.{Function};

    ghost Value = { List Function };

    ghost view = { λ functions. functions.0.items };
}

impl Functions {
    /// The same functions in memory of their own.
    pub fn copy(&self) -> Result<Functions, OutOfMemory>
        ensures { IfOk result (λ copied. copied ≡ self.now) }
    {
        Ok(Functions(self.0.clone()?))
    }
}
