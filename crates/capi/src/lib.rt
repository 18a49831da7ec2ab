// The C interface: the calls with numbers and slices, as include/parity.h declares them. Each answer is a struct of numbers, since C reads
// it; a field that the number gives no meaning is 0.
#![tactic(auto)]

ghost use Rattle.parity.specs.Promises.{BackPromise};
ghost use Rattle.capi.specs.Exports.{ReadExport, WriteExport, OpenExport, AssumeExport, ExplainExport};

use judge::Header;
use parity::{Assuming, Opening, Reply};

// The numbers of answers that are neither 0, done, nor a refusal.
const HELD: u64 = 100;

const CONFLICT: u64 = 101;

const UNSATISFIABLE: u64 = 102;

// What reading answers: n and m of the sheet.
#[repr(C)]
#[derive(Clone, Copy)]
pub struct ReadNumbers {
    pub number: u64,
    pub n: usize,
    pub m: usize,
}

// What writing answers: the bytes written.
#[repr(C)]
#[derive(Clone, Copy)]
pub struct WriteNumbers {
    pub number: u64,
    pub size: usize,
}

// What opening answers: how many literals are listed, or row numbers where it is unsatisfiable, and the header.
#[repr(C)]
#[derive(Clone, Copy)]
pub struct OpenNumbers {
    pub number: u64,
    pub count: usize,
    pub header: Header,
}

// What assuming answers: how many literals are listed, or the variable of a conflict, and the header.
#[repr(C)]
#[derive(Clone, Copy)]
pub struct AssumeNumbers {
    pub number: u64,
    pub count: usize,
    pub header: Header,
}

// What explaining answers: how many codes and how many row numbers are listed.
#[repr(C)]
#[derive(Clone, Copy)]
pub struct ExplainNumbers {
    pub number: u64,
    pub clause: usize,
    pub rows: usize,
}

// Reads a sheet into a row store.
#[unsafe(no_mangle)]
pub extern "C" fn parity_read(s: &[u8], store: &mut [u64]) -> ReadNumbers
    ensures { ReadExport s.now store.old result store.new }
{
    match sheet::read(s, store) {
        Ok(shape) => ReadNumbers {
            number: 0,
            n: shape.n,
            m: shape.m,
        },
        Err(r) => ReadNumbers {
            number: r.number(),
            n: 0,
            m: 0,
        },
    }
}

// Writes a row store as a sheet.
#[unsafe(no_mangle)]
pub extern "C" fn parity_write(n: usize, m: usize, store: &[u64], out: &mut [u8]) -> WriteNumbers
    ensures { WriteExport n m store.now out.old result out.new }
{
    match sheet::write(n, m, store, out) {
        Ok(size) => WriteNumbers { number: 0, size },
        Err(r) => WriteNumbers {
            number: r.number(),
            size: 0,
        },
    }
}

// Opens a sheet.
#[unsafe(no_mangle)]
pub extern "C" fn parity_open(
    old: Header,
    s: &[u8],
    store: &mut [u64],
    work: &mut [u64],
    literals: &mut [u64],
    rows: &mut [u64],
) -> OpenNumbers
    ensures { OpenExport old s.now store.old work.old literals.old rows.old result store.new work.new literals.new rows.new }
{
    let Reply { header, answer } = parity::open(old, s, store, work, literals, rows);
    let (number, count) = match answer {
        Ok(Opening::Opened(count)) => (0, count),
        Ok(Opening::Unsatisfiable(count)) => (UNSATISFIABLE, count),
        Err(r) => (r.number(), 0),
    };
    OpenNumbers {
        number,
        count,
        header,
    }
}

// Assumes a literal.
#[unsafe(no_mangle)]
pub extern "C" fn parity_assume(
    h: Header,
    work: &mut [u64],
    literals: &mut [u64],
    code: usize,
) -> AssumeNumbers
    ensures { AssumeExport h work.old literals.old code result work.new literals.new }
{
    let Reply { header, answer } = parity::assume(h, work, literals, code);
    let (number, count) = match answer {
        Ok(Assuming::Held) => (HELD, 0),
        Ok(Assuming::Conflict(v)) => (CONFLICT, v),
        Ok(Assuming::Taken(count)) => (0, count),
        Err(r) => (r.number(), 0),
    };
    AssumeNumbers {
        number,
        count,
        header,
    }
}

// Goes back to a depth: the lent header is changed in place.
#[unsafe(no_mangle)]
pub extern "C" fn parity_back(h: &mut Header, work: &mut [u64], depth: usize) -> u64
    ensures { BackPromise h.old work.old depth result h.new work.new }
{
    let Reply { header, answer } = parity::back_core(*h, work, depth);
    *h = header;
    match answer {
        Ok(()) => 0,
        Err(r) => r.number(),
    }
}

// Explains the value of a variable.
#[unsafe(no_mangle)]
pub extern "C" fn parity_explain(
    h: Header,
    work: &[u64],
    clause: &mut [u64],
    rows: &mut [u64],
    v: usize,
) -> ExplainNumbers
    ensures { ExplainExport h work.now clause.old rows.old v result clause.new rows.new }
{
    match parity::explain(h, work, clause, rows, v) {
        Ok(listed) => ExplainNumbers {
            number: 0,
            clause: listed.codes,
            rows: listed.numbers,
        },
        Err(r) => ExplainNumbers {
            number: r.number(),
            clause: 0,
            rows: 0,
        },
    }
}
