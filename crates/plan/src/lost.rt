// The column that is lost, by which equations a plan rebuilds it, and what it reads for that.
ghost use Rattle.std.specs.Prelude.{◌≡◌, true};
ghost use Rattle.plan.specs.Plan.{is_accepted};
ghost use Rattle.plan.specs.Right.{RdpColumn};

use codes::Shape;

// The column of an RDP stripe that is lost, as the equations number it, and an accepted plan for it.
#[derive(Clone, Copy)]
pub struct LostColumn {
    pub shape: Shape,
    pub k: usize,
    pub plan: u64,
    pub ghost column: { RdpColumn shape k },
    pub ghost accepted: { is_accepted shape k plan ≡ true },
}

impl LostColumn {
    ghost use Rattle.std.specs.Prelude.{◌<◌};
    ghost use Rattle.codes.specs.Shape.{rows};
    ghost use Rattle.plan.specs.Plan.{chosen, column_reads, cells_read};

    // The equation by which the plan takes row i.
    pub fn equation_of(self, i: usize) -> usize
        requires { i < rows self.shape }
        ensures { result ≡ chosen self.shape self.k self.plan i }
    {
        if self.plan & bits::one_bit(i) == 0 {
            return i;
        }
        let p = self.shape.p;
        p - 1 + codes::turned(i, self.k, p)
    }

    // How many cells of column j the plan reads. Row i of it lies on the diagonal of that row of the lost column which is as many rows on, mod
    // p, as j is columns past k; the diagonal parity column lies as column 0 does, and no row holds it.
    fn column_reads(self, j: usize) -> usize
        requires { RdpColumn self.shape j }
        ensures { result ≡ column_reads self.shape self.k self.plan j }
    {
        if j == self.k {
            return 0;
        }
        let p = self.shape.p;
        let rows = self.plan;
        let all = bits::one_bit(p - 1) - 1;
        let twice = rows | (rows << p);
        if j == p {
            return u64::count_ones((twice >> (p - self.k)) & all) as usize;
        }
        let by_row = p - 1 - u64::count_ones(rows) as usize;
        let turn = codes::turned(j, p - self.k, p);
        by_row + u64::count_ones((twice >> turn) & rows) as usize
    }

    // How many distinct cells the plan reads: the sum over the columns that exist.
    pub fn reads(self) -> usize
        ensures { result ≡ cells_read self.shape self.k self.plan }
    {
        let n = codes::disk_count(self.shape);
        let mut reads = 0;
        for d in 0..n {
            reads += self.column_reads(codes::column_of(self.shape, d));
        }
        reads
    }
}
