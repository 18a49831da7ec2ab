// Opening: the rows of the row store go into the working buffer, one after another.
#![tactic(auto)]

ghost use Rattle.std.specs.Prelude.{◌≡◌, ◌||◌, ◌+◌, ◌-◌, ◌*◌, ◌%◌, ◌<◌, ◌≤◌, length};
ghost use Rattle.words.specs.Words.{bit_at, own_word};
ghost use Rattle.tableau.specs.Layout.{from_words, max_vars, max_rows, row_at, from_at, size};
ghost use Rattle.tableau.specs.Buffer.{basic_at, Run, Chain, Span};
ghost use Rattle.exchange.specs.Steps.{RowCleared, Exchanged};
ghost use Rattle.opening.specs.Opened.{Basics, Loaded, Reduced, RowDone, Answered};

use exchange::point;
use settle::restart;
use tableau::{FROM, FROM_WORDS, LAST, ROW, add_row, load, set_home, store, words_at};
use words::{Variable, bit, lowest, own};

// The provenance of row k becomes row q of the sheet alone.
fn mark_row(work: &mut [u64], q: usize, k: usize)
    requires { (size ≤ length work.old) × (q < max_rows) × (k < max_rows) }
    ensures { Run (from_at k) from_words (λ j. own_word q j) work.old work.new }
{
    // Rows of the sheet are counted here as variables are: row q is number q + 1.
    let p = Variable { number: q + 1 };
    let a = ROW * k + FROM;
    for j in 0..FROM_WORDS {
        work[a + j] = own(p, j);
    }
}

// Row q of the row store stands as row k.
fn load_row(work: &mut [u64], rows: &[u64], q: usize, k: usize)
    requires { (size ≤ length work.old) × (9 * q + 9 ≤ length rows.now) × (q < max_rows) × (k < max_rows) }
    ensures { Loaded q k rows.now work.old work.new }
{
    store(work, k, words_at(rows, 9 * q));
    mark_row(work, q, k);
    let at = ROW * k + LAST;
    work[at] = rows[9 * q + 8] % 2;
}

// Row r is added into row k, if that has its basic variable.
fn reduce_by(work: &mut [u64], k: usize, r: usize)
    requires { (size ≤ length work.old) × (k < max_rows) × (r < k) × (0 < basic_at work.old r) × (basic_at work.old r ≤ max_vars) }
    ensures { Reduced k r work.old work.new }
{
    let x = work[ROW * r + LAST];
    // x / 2, written so that x / 2 - 1 is one shift
    let v = Variable {
        number: ((x - 2) / 2 + 1) as usize,
    };
    // row k by itself, so that its place is not added for each row
    let a = ROW * k;
    let e = a + FROM;
    if bit(&work[a..e], 0, v) {
        add_row(work, r, k);
    }
}

// Row k is reduced by the rows before it.
fn reduce(work: &mut [u64], k: usize)
    requires { (size ≤ length work.old) × (k < max_rows) × Basics k work.old }
    ensures { Chain (Reduced k) k work.old work.new }
{
    for r in 0..k {
        reduce_by(work, k, r);
    }
}

// Row k is added into row r, which is before it, if that has the variable v.
fn clear_row(work: &mut [u64], k: usize, v: Variable, r: usize)
    requires { (size ≤ length work.old) × (k < max_rows) × (r < k) }
    ensures { RowCleared k (v.number - 1) r work.old work.new }
{
    if bit(work, ROW * r, v) {
        add_row(work, k, r);
    }
}

// Whether row r or the next one has the variable v, by one test: here it does not matter which (`tableau::two`, which reads both digits, serves the columns).
fn in_two(work: &[u64], v: Variable, r: usize) -> bool
    requires { (size ≤ length work.now) × (r + 2 ≤ max_rows) }
    ensures { result ≡ (bit_at work.now (row_at r) (v.number - 1) || bit_at work.now (row_at (r + 1)) (v.number - 1)) }
{
    let (w, d) = v.place();
    let a = ROW * r + w;
    let x = work[a] | work[a + ROW];
    (x >> d) % 2 == 1
}

// Row k is added into row r and into the next one, if they have the variable v. Mostly neither has, which one test tells.
fn clear_two(work: &mut [u64], k: usize, v: Variable, r: usize)
    requires { (size ≤ length work.old) × (k < max_rows) × (r + 2 ≤ k) }
    ensures { Span (RowCleared k (v.number - 1)) r 2 work.old work.new }
{
    if in_two(work, v, r) {
        clear_row(work, k, v, r);
        clear_row(work, k, v, r + 1);
    }
}

// Row k is added into each row before it that has the variable v.
fn clear_rows(work: &mut [u64], k: usize, v: Variable)
    requires { (size ≤ length work.old) × (k < max_rows) }
    ensures { Chain (RowCleared k (v.number - 1)) k work.old work.new }
{
    for i in 0..k / 2 {
        clear_two(work, k, v, 2 * i);
    }
    if k % 2 == 1 {
        clear_row(work, k, v, k - 1);
    }
}

// Variable u becomes basic in row k, the last, and is removed from the rows before it.
fn enter(work: &mut [u64], k: usize, u: Variable)
    requires { (size ≤ length work.old) × (k < max_rows) }
    ensures { Exchanged (k + 1) k u.number work.old work.new }
{
    clear_rows(work, k, u);
    point(work, k, u);
}

// A row contradicts those before it. It stands in the working buffer as row `row`, after as many kept rows.
#[derive(Clone, Copy, Debug, PartialEq, Eq)]
pub struct Contradiction {
    pub row: usize,
}

// Row q of the row store goes in, with k rows kept so far: whether it is kept, as row k. One that is not kept says nothing new.
fn open_row(work: &mut [u64], rows: &[u64], q: usize, k: usize) -> Result<bool, Contradiction>
    requires { (size ≤ length work.old) × (9 * q + 9 ≤ length rows.now) × (q < max_rows) × (k < max_rows) × Basics k work.old }
    ensures { RowDone q k rows.now work.old work.new result }
{
    load_row(work, rows, q, k);
    reduce(work, k);
    if let Some(u) = lowest(load(work, k)) {
        set_home(work, u, k);
        enter(work, k, u);
        return Ok(true);
    }
    if work[ROW * k + LAST] % 2 == 1 {
        return Err(Contradiction { row: k });
    }
    Ok(false)
}

// All m rows of the row store go in, until one contradicts; then the variables that the rows alone decide get their values. The answer is
// how many rows are kept.
pub fn open_rows(work: &mut [u64], rows: &[u64], m: usize) -> Result<usize, Contradiction>
    requires { (size ≤ length work.old) × (9 * m ≤ length rows.now) × (m ≤ max_rows) }
    ensures { Answered m rows.now work.old result work.new }
{
    let mut k = 0;
    for q in 0..m {
        if open_row(work, rows, q, k)? {
            k += 1;
        }
    }
    restart(work, k, 0);
    Ok(k)
}
