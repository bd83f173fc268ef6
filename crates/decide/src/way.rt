// The way from the survivors to the lost cells.
ghost use Rattle.std.specs.Prelude.{length};
ghost use Rattle.codes.specs.Shape.{WellFormed};
ghost use Rattle.decide.specs.Solver.{cells_of, sets_of, Sets, CellsIn};

use crate::Lost;
use codes::Shape;

// How the lost cells of a stripe are found: each by a set of equations, and the sets that check the survivors.
#[derive(Clone, Copy)]
pub struct Way<'a> {
    pub shape: Shape,
    pub lost: &'a [Lost],
    pub checks: &'a [u64],
    pub ghost formed: { WellFormed shape },
    pub ghost cells: { CellsIn shape (length lost.now) (cells_of lost.now) },
    pub ghost gives: { Sets shape (length lost.now) (sets_of lost.now) },
    pub ghost tests: { Sets shape (length checks.now) checks.now },
}
