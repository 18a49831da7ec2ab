// Values: those of the taken literals, and then what each row gives its basic variable; all anew, or on from one more literal.
#![tactic(auto)]

ghost use Rattle.std.specs.Prelude.{◌≡◌, ◌+◌, ◌*◌, ◌-◌, ◌<◌, ◌≤◌, length};
ghost use Rattle.tableau.specs.Layout.{coef_words, max_rows, max_taken, known_at, size};
ghost use Rattle.tableau.specs.Buffer.{Run, Chain};
ghost use Rattle.settle.specs.Values.{Overlay, Sole, Put, value_at, Ready, RowSettled, EntrySet, Restarted, Followed};
ghost use Rattle.settle.specs.Values.{RowTaken, StepCallable, StepApart};

use tableau::{CODES, COEF_WORDS, KNOWN, LAST, ROW, TRUTH, column, entry, load, words_at};
use words::{Literal, Ones, Variable, odd, own, without};

// The variable of l gets its value.
pub fn put(work: &mut [u64], l: Literal)
    requires { size ≤ length work.old }
    ensures { Put (l.variable.number - 1) l.value work.old work.new }
{
    let (w, _) = l.variable.place();
    let mask = own(l.variable, w);
    let bit = if l.value { mask } else { 0 };
    work[KNOWN + w] |= mask;
    work[TRUTH + w] |= bit;
}

// The variables of row r without a value, its eight words laid over one another.
fn overlay(work: &[u64], r: usize) -> u64
    requires { (size ≤ length work.now) × (r < max_rows) }
    ensures { Overlay coef_words work.now r result }
{
    let a = ROW * r;
    let mut over = 0;
    for j in 0..COEF_WORDS {
        over |= without(work[a + j], work[KNOWN + j]);
    }
    over
}

// Whether v is the one variable of row r without a value, word by word.
fn alone(work: &[u64], r: usize, v: Variable) -> bool
    requires { (size ≤ length work.now) × (r < max_rows) }
    ensures { Sole work.now r (v.number - 1) result }
{
    let a = ROW * r;
    for j in 0..COEF_WORDS {
        let open = without(work[a + j], work[KNOWN + j]);
        if open ^ own(v, j) != 0 {
            return false;
        }
    }
    true
}

// Whether v is the one variable of row r without a value. Most rows have another at another place of its word, which one test tells.
fn sole(work: &[u64], r: usize, v: Variable) -> bool
    requires { (size ≤ length work.now) × (r < max_rows) }
    ensures { Sole work.now r (v.number - 1) result }
{
    let over = overlay(work, r);
    let (w, _) = v.place();
    let mine = own(v, w);
    if without(over, mine) != 0 {
        return false;
    }
    alone(work, r, v)
}

// The value that row r gives its basic variable, which counts as false so far.
fn value(work: &[u64], r: usize) -> bool
    requires { (size ≤ length work.now) × (r < max_rows) }
    ensures { result ≡ value_at work.now r }
{
    let b = odd(load(work, r), words_at(work, TRUTH));
    if work[ROW * r + LAST] % 2 == 1 { !b } else { b }
}

// The basic variable of row r, if it alone has no value in its row.
fn ready(work: &[u64], r: usize) -> Option<Variable>
    requires { (size ≤ length work.now) × (r < max_rows) }
    ensures { Ready work.now r result }
{
    let x = work[ROW * r + LAST];
    if x < 2 {
        return None;
    }
    if x >= CODES {
        return None;
    }
    let v = Variable {
        number: (x / 2) as usize,
    };
    if sole(work, r, v) { Some(v) } else { None }
}

// Row r is settled: where its basic variable is its only one without a value, the row gives it one.
// Inlined: else a loop over rows waits, before it finds the next one, for what this writes.
#[inline(always)]
pub fn settle_row(work: &mut [u64], r: usize)
    requires { (size ≤ length work.old) × (r < max_rows) }
    ensures { RowSettled r work.old work.new }
{
    if let Some(variable) = ready(work, r) {
        let value = value(work, r);
        put(work, Literal { variable, value });
    }
}

// Every row below k is settled.
fn settle(work: &mut [u64], k: usize)
    requires { (size ≤ length work.old) × (k ≤ max_rows) }
    ensures { Chain RowSettled k work.old work.new }
{
    for r in 0..k {
        settle_row(work, r);
    }
}

// No variable has a value.
fn clear_values(work: &mut [u64])
    requires { size ≤ length work.old }
    ensures { Run known_at (2 * coef_words) (λ i. 0) work.old work.new }
{
    work[KNOWN..KNOWN + 2 * COEF_WORDS].fill(0);
}

// The variable of entry j of the record gets its value, if the entry is a literal.
fn put_entry(work: &mut [u64], j: usize)
    requires { (size ≤ length work.old) × (j < max_taken) }
    ensures { EntrySet j work.old work.new }
{
    let code = entry(work, j);
    if code >= 2 {
        if code < CODES {
            put(work, Literal::of(code as usize));
        }
    }
}

// The variables of the first d entries of the record get their values.
fn put_entries(work: &mut [u64], d: usize)
    requires { (size ≤ length work.old) × (d ≤ max_taken) }
    ensures { Chain EntrySet d work.old work.new }
{
    for j in 0..d {
        put_entry(work, j);
    }
}

// The values are made anew from the first d entries of the record and the first k rows.
pub fn restart(work: &mut [u64], k: usize, d: usize)
    requires { (size ≤ length work.old) × (k ≤ max_rows) × (d ≤ max_taken) }
    ensures { Restarted k d work.old work.new }
{
    clear_values(work);
    put_entries(work, d);
    settle(work, k);
}

// `step` is taken for each row below k that has the variable v, in order.
pub fn for_rows_with<F: Fn(&mut [u64], usize)>(work: &mut [u64], k: usize, v: Variable, step: F)
    requires small { (size ≤ length work.old) × (k ≤ max_rows) }
    requires callable { StepCallable (F.pre step) (F.post step) (v.number - 1) k work.old }
    requires apart { StepApart (F.post step) k }
    ensures { Chain (RowTaken (F.post step) (v.number - 1)) k work.old work.new }
{
    for block in 0..k.div_ceil(64) {
        let q = 64 * block;
        let e = (q + 64).min(k);
        for i in Ones(column(work, q, e, v)) {
            step(work, q + i);
        }
    }
}

// The variable of l gets its value, and each row below k that has it is settled.
pub fn follow(work: &mut [u64], k: usize, l: Literal)
    requires { (size ≤ length work.old) × (k ≤ max_rows) }
    ensures { Followed k (l.variable.number - 1) l.value work.old work.new }
{
    put(work, l);
    for_rows_with(work, k, l.variable, |work, r| settle_row(work, r));
}
