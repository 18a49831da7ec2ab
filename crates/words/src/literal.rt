ghost use Rattle.std.specs.Prelude.{◌≡◌, ◌<◌, ◌≤◌};
ghost use Rattle.gf2.specs.Answers.{code, variable, value};

use crate::variable::Variable;

// A literal: a variable, and the value that it says the variable has.
#[derive(Clone, Copy, Debug, PartialEq, Eq)]
pub struct Literal {
    pub variable: Variable,
    pub value: bool,
}

impl Literal {
    // The literal of a code: 2 × variable, and 1 more where it says false.
    pub fn of(code: usize) -> Literal
        requires { (2 ≤ code) × (code < 1026) }
        ensures { (result.variable.number ≡ variable code) × (result.value ≡ value code) }
    {
        Literal {
            variable: Variable { number: code / 2 },
            value: code % 2 == 0,
        }
    }

    // Its code.
    pub fn code(self) -> u64
        ensures { result ≡ code self.variable.number self.value }
    {
        let even = 2 * (self.variable.number as u64);
        if self.value { even } else { even + 1 }
    }
}
