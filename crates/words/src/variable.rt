ghost use Rattle.std.specs.Prelude.{◌≡◌, ◌-◌, ◌/◌, ◌%◌, ◌<◌, ◌≤◌};

// A variable, by its number.
#[derive(Clone, Copy, Debug, PartialEq, Eq)]
pub struct Variable {
    pub number: usize,
    pub ghost first: { 0 < number },
    pub ghost last: { number ≤ 512 },
}

impl Variable {
    // Where a row has its bit: in which word, and as which digit of it, 0 the lowest.
    pub fn place(self) -> (usize, usize)
        ensures { (result.0 ≡ (self.number - 1) / 64) × (result.1 ≡ 63 - (self.number - 1) % 64) }
    {
        let p = self.number - 1;
        (p / 64, 63 - p % 64)
    }
}
