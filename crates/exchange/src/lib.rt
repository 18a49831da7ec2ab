// Assuming: a basic variable is exchanged, and the literal is taken.
#![tactic(auto)]

ghost use Rattle.std.specs.Prelude.{true, ◌≡◌, ◌+◌, ◌*◌, ◌-◌, ◌<◌, ◌≤◌, length};
ghost use Rattle.gf2.specs.Answers.{code};
ghost use Rattle.words.specs.Words.{bit_at};
ghost use Rattle.tableau.specs.Layout.{max_vars, max_rows, max_taken, row_at, size};
ghost use Rattle.exchange.specs.Steps.{Partner, Found, pointed, RowTurned, Turned, Took, Stepped};

use settle::{follow, for_rows_with, put, settle_row};
use tableau::{COEF_WORDS, KNOWN, LAST, ROW, TRUTH, add_row, home, set_entry, set_home};
use words::{Literal, Ones, Variable, bit, without};

// The lowest variable of row r that has no value and is not v. On a state of the module, where v is basic in row r, no other variable of the row is basic.
fn partner(work: &[u64], r: usize, v: Variable) -> Option<Variable>
    requires { (size ≤ length work.now) × (r < max_rows) }
    ensures { Partner work.now r (v.number - 1) result }
{
    let a = ROW * r;
    let mut found = None;
    'scan: for w in 0..COEF_WORDS {
        // The variables of this word that have no value, the lowest at the top.
        for i in Ones(without(work[a + w], work[KNOWN + w])) {
            let u = w * 64 + i + 1;
            if u != v.number {
                found = Some(Variable { number: u });
                break 'scan;
            }
        }
    }
    found
}

// The home of v, if it is below k and v is basic there. On a state of the module that is the row whose basic variable is v, if there is one.
pub fn find(work: &[u64], k: usize, v: Variable) -> Option<usize>
    requires { (size ≤ length work.now) × (k ≤ max_rows) }
    ensures { Found work.now k v.number result }
{
    let x = home(work, v);
    if x >= k as u64 {
        return None;
    }
    let r = x as usize;
    let basic = work[ROW * r + LAST] / 2;
    if basic == v.number as u64 {
        Some(r)
    } else {
        None
    }
}

// Variable u is the basic variable of row p.
pub fn point(work: &mut [u64], p: usize, u: Variable)
    requires { (size ≤ length work.old) × (p < max_rows) }
    ensures { work.new ≡ pointed p u.number work.old }
{
    let at = ROW * p + LAST;
    let x = work[at] % 2;
    work[at] = 2 * (u.number as u64) + x;
}

// Row r has the variable u. Row p is added into it, or u becomes its basic variable if it is row p; then row r is settled.
fn turn_row(work: &mut [u64], p: usize, u: Variable, r: usize)
    requires { (size ≤ length work.old) × (p < max_rows) × (r < max_rows) × (bit_at work.old (row_at r) (u.number - 1) ≡ true) }
    ensures { RowTurned p u.number r work.old work.new }
{
    if r == p {
        point(work, r, u);
    } else {
        add_row(work, p, r);
    }
    settle_row(work, r);
}

// The variable of l, basic in row p, gets its value, and u, which row p has, becomes basic there: an exchange and the settling in one pass,
// since the variable of l is then in the rows that change and in no other.
fn turn(work: &mut [u64], k: usize, p: usize, u: Variable, l: Literal)
    requires { (size ≤ length work.old) × (k ≤ max_rows) × (p < k) × (bit_at work.old (row_at p) (u.number - 1) ≡ true) }
    ensures { Turned k p u.number (l.variable.number - 1) l.value work.old work.new }
{
    put(work, l);
    for_rows_with(work, k, u, |work, r| turn_row(work, p, u, r));
}

// A literal whose variable has no value is taken at depth d, if it can be: whether it was. If not, nothing has changed.
fn take(work: &mut [u64], k: usize, d: usize, l: Literal) -> bool
    requires { (size ≤ length work.old) × (k ≤ max_rows) × (d < max_taken) }
    ensures { Took k d (code l.variable.number l.value) work.old work.new result }
{
    let Some(p) = find(work, k, l.variable) else {
        set_entry(work, d, l.code());
        follow(work, k, l);
        return true;
    };
    let Some(u) = partner(work, p, l.variable) else {
        return false;
    };
    // u becomes basic in row p: that is its home.
    set_home(work, u, p);
    set_entry(work, d, l.code());
    turn(work, k, p, u, l);
    true
}

// What a literal that is offered comes to: its variable has that value; it has the other; the literal is taken; it cannot be. Four outcomes,
// none of which holds what the others lack.
#[derive(Clone, Copy, Debug, PartialEq, Eq)]
pub enum Offer {
    Held,
    Conflict,
    Taken,
    Stuck,
}

// A literal is offered at depth d of n. The buffer is as it was unless the literal is taken. On a state of the module every variable has a
// value where n literals are taken, and no literal is stuck.
pub fn step(work: &mut [u64], k: usize, n: usize, d: usize, l: Literal) -> Offer
    requires { (size ≤ length work.old) × (k ≤ max_rows) × (n ≤ max_taken) }
    ensures { Stepped k n d (code l.variable.number l.value) work.old work.new result }
{
    // Whether the variable has a value and which are two masks of the layout: only this place asks both of one variable.
    if bit(work, KNOWN, l.variable) {
        if bit(work, TRUTH, l.variable) == l.value {
            return Offer::Held;
        }
        return Offer::Conflict;
    }
    if d >= n {
        return Offer::Stuck;
    }
    if take(work, k, d, l) {
        Offer::Taken
    } else {
        Offer::Stuck
    }
}
