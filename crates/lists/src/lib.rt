// The lists of the answers: each scan writes what a test picks, ascending. `out` may be longer than n: what it has past the list stays.
#![tactic(auto)]

ghost use Rattle.std.specs.Prelude.{◌≡◌, ℕ, not, ◌∷◌, ◌+◌, ◌-◌, ◌*◌, ◌<◌, ◌≤◌, length};
ghost use Rattle.gf2.specs.Answers.{code};
ghost use Rattle.gf2.specs.Places.{scanned};
ghost use Rattle.words.specs.Words.{bit_at};
ghost use Rattle.tableau.specs.Layout.{max_vars, max_rows, coef_words, from_at, known_at, truth_at, size};
ghost use Rattle.tableau.specs.View.{vals};
ghost use Rattle.lists.specs.Listing.{numbers, is_new, is_other, FirstOnes, items, ListPut, RoomFor, WordsPut};

use tableau::{FROM, KNOWN, ROW, TRUTH};
use words::{Literal, Ones, Variable, bit, own, without};

// The ones of x among its first k digits, the top one first.
fn first_ones(x: u64, k: usize) -> u64
    requires { 0 < k }
    ensures { FirstOnes x k result }
{
    if k < 64 {
        let d = 64 - k;
        (x >> d) << d
    } else {
        x
    }
}

// The ones of x are listed from place `at` on: that of digit i, the top one first, as s * (base + i + 1), and 1 more where t has a one too.
fn list_word(x: u64, t: u64, s: u64, base: usize, at: usize, out: &mut [u64]) -> usize
    requires { (s ≤ 2) × (base + 64 ≤ max_vars) × (at + length (items 64 x t s base) ≤ length out.old) }
    ensures { ListPut (length out.old) at (items 64 x t s base) out.old out.new result }
{
    let mut c = at;
    for i in Ones(x) {
        out[c] = s * ((base + i + 1) as u64) + (t >> (63 - i)) % 2;
        c += 1;
    }
    c
}

// The ones among the first n digits of the words are listed, from place `at` on: `word` gives the x and the t with which `list_word` lists word w.
fn list_words<F: Fn(usize) -> (u64, u64)>(
    n: usize,
    s: u64,
    at: usize,
    out: &mut [u64],
    word: F,
) -> usize
    requires callable { (w : ℕ) → w * 64 < n → F.pre word w }
    requires small { (s ≤ 2) × (n ≤ max_vars) × (n ≤ length out.old) }
    requires room { RoomFor (F.post word) n s at }
    ensures { WordsPut (F.post word) n s n at out.old out.new result }
{
    let mut c = at;
    for w in 0..n.div_ceil(64) {
        let base = w * 64;
        let (x, t) = word(w);
        c = list_word(first_ones(x, n - base), t, s, base, c, out);
    }
    c
}

// The literals of the variables but v that have a value now and had none in old.
pub fn list_new(work: &[u64], old: &[u64], v: Variable, n: usize, out: &mut [u64]) -> usize
    requires { (size ≤ length work.now) × (coef_words ≤ length old.now) × (n ≤ max_vars) × (n ≤ length out.old) }
    ensures { ListPut n 0 (scanned n (is_new work.now old.now v.number) (vals work.now truth_at)) out.old out.new result }
{
    list_words(n, 2, 0, out, |w| {
        let x = without(work[KNOWN + w], old[w] | own(v, w));
        // Among the ones of x, x ^ truth has those of the variables that are false: their codes are odd.
        (x, x ^ work[TRUTH + w])
    })
}

// The literals of all variables that have a value.
pub fn list_known(work: &[u64], n: usize, out: &mut [u64]) -> usize
    requires { (size ≤ length work.now) × (n ≤ max_vars) × (n ≤ length out.old) }
    ensures { ListPut n 0 (scanned n (vals work.now known_at) (vals work.now truth_at)) out.old out.new result }
{
    list_words(n, 2, 0, out, |w| {
        let x = work[KNOWN + w];
        (x, x ^ work[TRUTH + w])
    })
}

// From place 1 on, the negations of the values of the variables of row r but v.
fn list_others(work: &[u64], r: usize, v: Variable, n: usize, out: &mut [u64]) -> usize
    requires { (size ≤ length work.now) × (r < max_rows) × (n ≤ max_vars) × (n ≤ length out.old) × (v.number ≤ n) }
    ensures { ListPut n 1 (scanned n (is_other work.now r v.number) (λ u. not (vals work.now truth_at u))) out.old out.new result }
{
    list_words(n, 2, 1, out, |w| {
        let x = without(work[ROW * r + w], own(v, w));
        // The code of the negation is odd where the variable is true.
        (x, work[TRUTH + w])
    })
}

// The clause of v, whose value row r gives: v's literal, then the negations.
pub fn list_clause(work: &[u64], r: usize, v: Variable, n: usize, out: &mut [u64]) -> usize
    requires { (size ≤ length work.now) × (r < max_rows) × (n ≤ max_vars) × (n ≤ length out.old) × (v.number ≤ n) }
    ensures { ListPut n 0 (code v.number (bit_at work.now truth_at (v.number - 1))
        ∷ scanned n (is_other work.now r v.number) (λ u. not (vals work.now truth_at u))) out.old out.new result }
{
    let value = bit(work, TRUTH, v);
    out[0] = Literal { variable: v, value }.code();
    list_others(work, r, v, n, out)
}

// The numbers of the rows of the sheet that row r is the sum of.
pub fn list_rows(work: &[u64], r: usize, m: usize, out: &mut [u64]) -> usize
    requires { (size ≤ length work.now) × (r < max_rows) × (m ≤ max_rows) × (m ≤ length out.old) }
    ensures { ListPut m 0 (numbers m (bit_at work.now (from_at r))) out.old out.new result }
{
    list_words(m, 1, 0, out, |w| (work[ROW * r + FROM + w], 0))
}
