// The working buffer, and the operations that read and write its rows and its record. specs/Layout.antt has the table of its words.
// It is a slice of `size` words or more, here and in the crates above: an array of so many would ask more of those who lend it.
// A row is a number below `max_rows`: loops count rows, and a type of a row would be made anew at each turn.
#![tactic(auto)]

ghost use Rattle.std.specs.Prelude.{◌≡◌, ◌+◌, ◌*◌, ◌-◌, ◌<◌, ◌≤◌, min, length, get_or};
ghost use Rattle.tableau.specs.Layout.{coef_words, from_words, max_rows, max_taken, row_at, from_at, home_step, size};
ghost use Rattle.tableau.specs.Buffer.{Run, Slice, Added, entry_at, home_at, Recorded, Homed, Gathered, Column};

use words::{Variable, sum};

// The most variables.
const MAX_VARS: u64 = 512;
// Past the code of the last literal, and past 2 × the last variable + a parity.
pub const CODES: u64 = 2 * MAX_VARS + 2;
// Words of a bit for each variable.
pub const COEF_WORDS: usize = 8;
// Words of a bit for each row.
pub const FROM_WORDS: usize = 4;
// The most rows.
const MAX_ROWS: usize = 256;
// Where in a row its provenance starts.
pub const FROM: usize = COEF_WORDS;
// Where in a row its last word stands: 2 × basic variable + parity.
pub const LAST: usize = COEF_WORDS + FROM_WORDS;
// Words a row.
pub const ROW: usize = LAST + 1;
// Where the variables with a value start.
pub const KNOWN: usize = ROW * MAX_ROWS;
// Where the true ones of them start.
pub const TRUTH: usize = KNOWN + COEF_WORDS;
// Where the record of taken literals starts, and with it the homes.
const RECORD: usize = TRUTH + COEF_WORDS;
// Word j of the record is HOME_STEP × the home of variable j + 1, plus entry j.
const HOME_STEP: u64 = 4294967296;
// The words that a call hands on; those behind the record are not touched.
pub const SIZE: usize = 4096;

// The W words from place `at`.
pub fn words_at<const W: usize>(work: &[u64], at: usize) -> [u64; W]
    requires { at + W ≤ length work.now }
    ensures { Slice W work.now at result }
{
    let mut out = [0u64; W];
    out.copy_from_slice(&work[at..at + W]);
    out
}

// The words from place `at` on become `words`.
fn put_words<const W: usize>(work: &mut [u64], at: usize, words: [u64; W])
    requires { at + W ≤ length work.old }
    ensures { Run at W (λ j. get_or words.entry j 0) work.old work.new }
{
    work[at..at + W].copy_from_slice(&words);
}

// The coefficients of row r.
pub fn load(work: &[u64], r: usize) -> [u64; 8]
    requires { (size ≤ length work.now) × (r < max_rows) }
    ensures { Slice coef_words work.now (row_at r) result }
{
    words_at(work, ROW * r)
}

// The coefficients of row r become `row`.
pub fn store(work: &mut [u64], r: usize, row: [u64; 8])
    requires { (size ≤ length work.old) × (r < max_rows) }
    ensures { Run (row_at r) coef_words (λ j. get_or row (0 + j) 0) work.old work.new }
{
    put_words(work, ROW * r, row);
}

// Row `from` is added into row `to`, which keeps its basic variable.
pub fn add_row(work: &mut [u64], from: usize, to: usize)
    requires { (size ≤ length work.old) × (from < max_rows) × (to < max_rows) }
    ensures { Added from to work.old work.new }
{
    let row = sum(load(work, to), load(work, from));
    let rows = sum::<FROM_WORDS>(
        words_at(work, ROW * to + FROM),
        words_at(work, ROW * from + FROM),
    );
    let x = work[ROW * to + LAST];
    let y = work[ROW * from + LAST];
    store(work, to, row);
    put_words(work, ROW * to + FROM, rows);
    work[ROW * to + LAST] = x / 2 * 2 + (x % 2 + y % 2) % 2;
}

// Entry j of the record. This and the next three alone know how the record and the homes lie in their words.
pub fn entry(work: &[u64], j: usize) -> u64
    requires { (size ≤ length work.now) × (j < max_taken) }
    ensures { result ≡ entry_at work.now j }
{
    work[RECORD + j] % HOME_STEP
}

// Entry j of the record becomes a literal's code.
pub fn set_entry(work: &mut [u64], j: usize, code: u64)
    requires { (size ≤ length work.old) × (j < max_taken) × (code < home_step) }
    ensures { Recorded j code work.old work.new }
{
    let at = RECORD + j;
    let x = work[at];
    work[at] = x / HOME_STEP * HOME_STEP + code;
}

// The home of variable v: on a state of the module, its row if it is basic; of any other variable it says nothing.
pub fn home(work: &[u64], v: Variable) -> u64
    requires { size ≤ length work.now }
    ensures { result ≡ home_at work.now v.number }
{
    work[RECORD + (v.number - 1)] / HOME_STEP
}

// Row r becomes the home of variable v.
pub fn set_home(work: &mut [u64], v: Variable, r: usize)
    requires { (size ≤ length work.old) × (r < max_rows) }
    ensures { Homed v.number r work.old work.new }
{
    let at = RECORD + (v.number - 1);
    let x = work[at];
    work[at] = x % HOME_STEP + HOME_STEP * (r as u64);
}

// Which of rows r and r + 1 have the variable v: a digit each, the lowest for row r + 1.
fn two(work: &[u64], r: usize, v: Variable) -> u64
    requires { (size ≤ length work.now) × (r + 2 ≤ max_rows) }
    ensures { Gathered work.now r (r + 2) (v.number - 1) result }
{
    let (w, d) = v.place();
    let a = ROW * r + w;
    2 * ((work[a] >> d) % 2) + (work[a + ROW] >> d) % 2
}

// Which of the four rows from r on have the variable v: a digit each, the lowest for row r + 3.
fn four(work: &[u64], r: usize, v: Variable) -> u64
    requires { (size ≤ length work.now) × (r + 4 ≤ max_rows) }
    ensures { Gathered work.now r (r + 4) (v.number - 1) result }
{
    4 * two(work, r, v) + two(work, r + 2, v)
}

// Which rows from q to below e, 64 at most, have the variable v: a digit each, the top one for row q. They are read without a branch,
// since which of them have it cannot be foreseen, and by eights: up to seven rows from e on are read too, which q + 64 ≤ max_rows allows.
pub fn column(work: &[u64], q: usize, e: usize, v: Variable) -> u64
    requires { (size ≤ length work.now) × (q < e) × (e ≤ q + 64) × (q + 64 ≤ max_rows) }
    ensures { Column work.now q e (v.number - 1) result }
{
    let eights = (e - q).div_ceil(8);
    let mut x = 0;
    for i in 0..eights {
        let r = q + 8 * i;
        x = 16 * (16 * x + four(work, r, v)) + four(work, r + 4, v);
    }
    // The digits of the rows from e on go, and the others move up.
    (x >> (8 * eights - (e - q))) << (64 - (e - q))
}
