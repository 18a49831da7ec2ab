ghost use Rattle.std.specs.Prelude.{◌≡◌, [], ◌∷◌, ◌≤◌, ltb};

use crate::Head;
use format::Refusal;

// The numbers of variables and of rows that lines 2 and 3 let through.
#[derive(Clone, Copy, Debug, PartialEq, Eq)]
pub struct Shape {
    pub n: usize,
    pub m: usize,
    pub ghost n_fits: { n ≤ 512 },
    pub ghost m_fits: { m ≤ 256 },
}

impl Shape {
    ghost use Rattle.format.specs.Refusals.{check, refusal, Answers};
    ghost use Rattle.cursor.specs.Shape.{HasNumbers};

    // n variables and m rows, unless one of them is past its bound.
    pub fn new(n: usize, m: usize) -> Result<Shape, Refusal>
        ensures { Answers (refusal (check 2 (ltb 512 n) ∷ check 3 (ltb 256 m) ∷ [])) (HasNumbers n m) result }
    {
        if 512 < n {
            return Err(Refusal::ManyVariables);
        }
        if 256 < m {
            return Err(Refusal::ManyRows);
        }
        Ok(Shape { n, m })
    }

    // The head that says them.
    pub fn head(self) -> Head
        ensures { (result.n ≡ self.n) × (result.m ≡ self.m) }
    {
        Head {
            n: self.n,
            m: self.m,
        }
    }
}
