// Rows in words of 64 bits, variable 1 in the top bit of the first word: eight words of coefficients, four of provenance.
#![tactic(auto)]

ghost use Rattle.std.specs.Prelude.{◌≡◌, ◌&&◌, ◌+◌, ◌-◌, ◌<◌, ◌≤◌, length};
ghost use Rattle.std.specs.Int.Bits.{bit_and, bit_xor};
ghost use Rattle.gf2.specs.Field.{xsum};
ghost use Rattle.words.specs.Words.{bit_at, xor_words, own_word, Lowest};
ghost use Rattle.words.specs.Ones.{TakesTop, left};

pub use literal::Literal;
pub use variable::Variable;

mod literal;
mod variable;

// The sum of two rows, or of their provenance.
pub fn sum<const W: usize>(a: [u64; W], b: [u64; W]) -> [u64; W]
    ensures { result ≡ xor_words a.entry b.entry }
{
    let mut out = a;
    for i in 0..W {
        out[i] ^= b[i];
    }
    out
}

// The sum of a row under an assignment: whether they have an odd number of ones together.
pub fn odd(row: [u64; 8], truth: [u64; 8]) -> bool
    ensures { result ≡ xsum 512 (λ i. bit_at row 0 i && bit_at truth 0 i) }
{
    let mut ones = 0;
    for i in 0..8 {
        ones += (row[i] & truth[i]).count_ones();
    }
    ones % 2 == 1
}

// The lowest variable of a row.
pub fn lowest(row: [u64; 8]) -> Option<Variable>
    ensures { Lowest 8 row result }
{
    for (i, word) in row.iter().enumerate() {
        if *word != 0 {
            return Some(Variable {
                number: i * 64 + word.leading_zeros() as usize + 1,
            });
        }
    }
    None
}

// Word j of the row that has the variable v alone.
pub fn own(v: Variable, j: usize) -> u64
    requires { j < 8 }
    ensures { result ≡ own_word (v.number - 1) j }
{
    let (w, d) = v.place();
    if w == j { 1 << d } else { 0 }
}

// The ones of x that y does not have.
pub fn without(x: u64, y: u64) -> u64
    ensures { result ≡ bit_xor x (bit_and x y) }
{
    x ^ (x & y)
}

// Whether the eight words from place a have the bit of variable v.
pub fn bit(ws: &[u64], a: usize, v: Variable) -> bool
    requires { a + 8 ≤ length ws.now }
    ensures { result ≡ bit_at ws.now a (v.number - 1) }
{
    let (w, d) = v.place();
    (ws[a + w] >> d) % 2 == 1
}

// The places of a word's ones, the top one first: place 0 is the top bit.
#[derive(Clone, Drop)]
pub struct Ones(pub u64);

impl Iterator for Ones {
    type Item = usize;

    ghost next_gives = { TakesTop };

    ghost remaining = { left };

    fn next(&mut self) -> Option<usize> {
        if self.0 == 0 {
            return None;
        }
        let i = self.0.leading_zeros() as usize;
        self.0 ^= 1 << (63 - i);
        Some(i)
    }
}
