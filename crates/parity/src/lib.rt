// The calls: open, assume, back and explain on a header by value and buffers that the caller lends.
#![tactic(auto)]

ghost use Rattle.std.specs.Prelude.{◌≡◌, ◌+◌, ◌*◌, ◌<◌, ◌≤◌, length};
ghost use Rattle.format.specs.Refusals.{answered};
ghost use Rattle.tableau.specs.Layout.{size};
ghost use Rattle.parity.specs.Openings.{IsOpenReading, RowsOpened};
ghost use Rattle.parity.specs.Promises.{OpenPromise, AssumePromise, BackPromise, ExplainPromise};

use cursor::Shape;
use exchange::Offer;
use format::Refusal;
use judge::Header;
use opening::Contradiction;
use tableau::{COEF_WORDS, KNOWN, SIZE};
use words::{Literal, Variable, bit};

// What open answers: unsatisfiable, with so many row numbers listed; open, with so many implied literals listed.
#[derive(Clone, Copy, Debug, PartialEq, Eq)]
pub enum Opening {
    Unsatisfiable(usize),
    Opened(usize),
}

// What assume answers: held; in conflict with the value of a variable; taken, with so many newly implied literals listed.
#[derive(Clone, Copy, Debug, PartialEq, Eq)]
pub enum Assuming {
    Held,
    Conflict(usize),
    Taken(usize),
}

// What explain answers: so many codes of the clause and so many row numbers are listed.
#[derive(Clone, Copy, Debug, PartialEq, Eq)]
pub struct Explained {
    pub codes: usize,
    pub numbers: usize,
}

// What a call hands back: the header, which is the earlier one where the call is refused, and the answer.
#[derive(Clone, Copy, Debug, PartialEq, Eq)]
pub struct Reply<A> {
    pub header: Header,
    pub answer: Result<A, Refusal>,
}

impl<A> Reply<A> {
    // Replies that the call is done, with its answer.
    fn done(header: Header, answer: A) -> Reply<A>
        ensures { (result.header ≡ header) × (result.answer ≡ Ok answer) }
    {
        Reply {
            header,
            answer: Ok(answer),
        }
    }

    // Replies that the call is refused.
    fn refused(header: Header, why: Refusal) -> Reply<A>
        ensures { (result.header ≡ header) × (result.answer ≡ Err why) }
    {
        Reply {
            header,
            answer: Err(why),
        }
    }
}

// Judges what open is lent, by the checks of open in their order.
fn judge_open(
    s: &[u8],
    store: usize,
    words: usize,
    literals: usize,
    rows: usize,
) -> Result<Shape, Refusal>
    ensures { IsOpenReading s.now store words literals rows result }
{
    let shape = sheet::judge(s, store)?;
    if words < SIZE {
        return Err(Refusal::FewWords);
    }
    if literals < shape.n || rows < shape.m {
        return Err(Refusal::ShortAnswer);
    }
    Ok(shape)
}

// Takes the rows of the store into the working buffer, and lists what the answer counts.
fn open_all(
    shape: Shape,
    store: &[u64],
    work: &mut [u64],
    literals: &mut [u64],
    rows: &mut [u64],
) -> Reply<Opening>
    requires { (9 * shape.m ≤ length store.now) × (size ≤ length work.old) × (shape.n ≤ length literals.old) × (shape.m ≤ length rows.old) }
    ensures { RowsOpened shape.n shape.m store.now work.old literals.old rows.old result.header result.answer work.new literals.new rows.new }
{
    match opening::open_rows(&mut work[..SIZE], store, shape.m) {
        Ok(kept) => {
            let count = lists::list_known(work, shape.n, literals);
            let header = Header {
                open: 1,
                n: shape.n,
                m: shape.m,
                kept,
                depth: 0,
            };
            Reply::done(header, Opening::Opened(count))
        }
        Err(Contradiction { row }) => {
            let count = lists::list_rows(work, row, shape.m, rows);
            Reply::done(Header::default(), Opening::Unsatisfiable(count))
        }
    }
}

// Opens a sheet. Judges everything before it writes anything.
pub fn open(
    old: Header,
    s: &[u8],
    store: &mut [u64],
    work: &mut [u64],
    literals: &mut [u64],
    rows: &mut [u64],
) -> Reply<Opening>
    ensures { OpenPromise old s.now store.old work.old literals.old rows.old result.header result.answer store.new work.new literals.new rows.new }
{
    match judge_open(s, store.len(), work.len(), literals.len(), rows.len()) {
        Ok(shape) => {
            sheet::fill(s, shape, store);
            open_all(shape, store, work, literals, rows)
        }
        Err(r) => Reply::refused(old, r),
    }
}

// Assumes a literal.
pub fn assume(h: Header, work: &mut [u64], literals: &mut [u64], code: usize) -> Reply<Assuming>
    ensures { AssumePromise h work.old literals.old code result.header result.answer work.new literals.new }
{
    if let Err(r) = judge::judge_assume(h, work.len(), literals.len(), code) {
        return Reply::refused(h, r);
    }
    let l = Literal::of(code);
    // Which variables have a value before.
    let old: [u64; COEF_WORDS] = tableau::words_at(work, KNOWN);
    match exchange::step(&mut work[..SIZE], h.kept, h.n, h.depth, l) {
        Offer::Held => Reply::done(h, Assuming::Held),
        Offer::Conflict => Reply::done(h, Assuming::Conflict(l.variable.number)),
        Offer::Taken => {
            let count = lists::list_new(work, &old, l.variable, h.n, literals);
            let depth = h.depth + 1;
            Reply::done(Header { depth, ..h }, Assuming::Taken(count))
        }
        Offer::Stuck => Reply::refused(h, Refusal::NoPartner),
    }
}

// Goes back to a depth: keeps the first taken literals, and makes the values anew from them.
pub fn back_core(h: Header, work: &mut [u64], depth: usize) -> Reply<()>
    ensures { BackPromise h work.old depth (answered result.answer) result.header work.new }
{
    if let Err(r) = judge::judge_back(h, work.len(), depth) {
        return Reply::refused(h, r);
    }
    settle::restart(&mut work[..SIZE], h.kept, depth);
    Reply::done(Header { depth, ..h }, ())
}

// Explains the value of a variable.
pub fn explain(
    h: Header,
    work: &[u64],
    clause: &mut [u64],
    rows: &mut [u64],
    v: usize,
) -> Result<Explained, Refusal>
    ensures { ExplainPromise h work.now clause.old rows.old v result clause.new rows.new }
{
    judge::judge_explain(h, work.len(), clause.len(), rows.len(), v)?;
    let variable = Variable { number: v };
    if !bit(work, KNOWN, variable) {
        return Err(Refusal::Unexplained);
    }
    let Some(r) = exchange::find(work, h.kept, variable) else {
        return Err(Refusal::Unexplained);
    };
    let codes = lists::list_clause(work, r, variable, h.n, clause);
    let numbers = lists::list_rows(work, r, h.m, rows);
    Ok(Explained { codes, numbers })
}
