// The sheet reader and writer: between the bytes of a row sheet and the words of a row store.
#![tactic(auto)]

ghost use Rattle.std.specs.Prelude.{◌≡◌, [], ◌∷◌, ◌++◌, ◌+◌, ◌*◌, ◌^◌, ◌≤◌, ◌<◌, length, take, drop};
ghost use Rattle.format.specs.Bits.{bits_of, put_at};
ghost use Rattle.format.specs.Refusals.{refusal, Answers};
ghost use Rattle.format.specs.Sheet.{bits_for, size_for, row_words, store_words, row_bits, body_bits, sheet_bits, clean_row, clean, writer};
ghost use Rattle.cursor.specs.Shape.{HasNumbers};
ghost use Rattle.sheet.specs.Reader.{IsReading, Reads};
ghost use Rattle.sheet.specs.Writer.{Writes};
ghost use Rattle.sheet.specs.Rewriter.{Rewrites};

use cursor::{Cursor, Shape};
use format::Refusal;

// A row of a sheet: eight words of coefficients, variable 1 in the top bit of the first, the parity, and the cursor behind it.
#[derive(Clone, Copy)]
pub struct Row {
    pub words: [u64; 8],
    pub parity: u64,
    pub next: Cursor,
}

// ---- reading

// Reads the row at the cursor: n coefficients and a parity bit.
fn row_at(at: Cursor, s: &[u8], shape: Shape) -> Row
    requires { (at.at + (shape.n + 1) ≤ 8 * length s.now) × (at.at < 2 ^ 31) }
    ensures { (result.words ++ (result.parity ∷ []) ≡ row_words shape.n (drop at.at (bits_of s.now))) × (result.next.at ≡ at.at + (shape.n + 1)) }
{
    let k = shape.n / 64;
    let left = shape.n % 64;
    let mut words = [0u64; 8];
    let mut c = at;
    for w in 0..k {
        let f = c.field(s, 64);
        words[w] = f.value;
        c = f.next;
    }
    let last = c.field(s, left + 1);
    // n = 512 has no begun word: its eight are full.
    if k < 8 {
        words[k] = bits::raised(last.value >> 1, 64 - left);
    }
    let next = last.next;
    Row {
        words,
        parity: last.value & 1,
        next,
    }
}

// Puts the row's nine words into the store, from base on.
fn keep(store: &mut [u64], base: usize, row: Row)
    requires { base + 9 ≤ length store.old }
    ensures { store.new ≡ take base store.old ++ ((row.words ++ (row.parity ∷ [])) ++ drop (base + 9) store.old) }
{
    store[base..base + 8].copy_from_slice(&row.words);
    store[base + 8] = row.parity;
}

// Judges a sheet, with room for so many words.
pub fn judge(s: &[u8], room: usize) -> Result<Shape, Refusal>
    ensures { IsReading s.now room result }
{
    if s.len() < 3 {
        return Err(Refusal::ShortSheet);
    }
    let head = cursor::head_of(s).head;
    let shape = Shape::new(head.n, head.m)?;
    let bits = head.bits();
    let size = head.size();
    let words = 9 * shape.m;
    if s.len() < size {
        return Err(Refusal::ShortSheet);
    }
    if size < s.len() {
        return Err(Refusal::LongSheet);
    }
    let end = Cursor { at: bits };
    let rest = end.field(s, size * 8 - bits);
    let padding = rest.value;
    if 0 < padding {
        return Err(Refusal::StrayBits);
    }
    if room < words {
        return Err(Refusal::FewWords);
    }
    Ok(shape)
}

// Reads the rows into the store.
pub fn fill(s: &[u8], shape: Shape, store: &mut [u64])
    requires { (bits_for shape.n shape.m ≤ 8 * length s.now) × (9 * shape.m ≤ length store.old) }
    ensures { store.new ≡ store_words shape.n shape.m (drop 19 (bits_of s.now)) ++ drop (9 * shape.m) store.old }
{
    let mut c = cursor::head_of(s).next;
    for r in 0..shape.m {
        let row = row_at(c, s, shape);
        c = row.next;
        keep(store, 9 * r, row);
    }
}

// Reads a sheet into the row store. A refusal leaves the store as it is.
pub fn read(s: &[u8], store: &mut [u64]) -> Result<Shape, Refusal>
    ensures { Reads s.now store.old result store.new }
{
    let shape = judge(s, store.len())?;
    fill(s, shape, store);
    Ok(shape)
}

// ---- writing

// Puts the row whose nine words stand first at the cursor.
fn put_row(at: Cursor, out: &mut [u8], row: &[u64], shape: Shape) -> Cursor
    requires { (9 ≤ length row.now) × (at.at + (shape.n + 1) ≤ 8 * length out.old) × (at.at < 2 ^ 31) }
    ensures { (bits_of out.new ≡ put_at (bits_of out.old) at.at (row_bits shape.n row.now)) × (result.at ≡ at.at + (shape.n + 1)) }
{
    let k = shape.n / 64;
    let left = shape.n % 64;
    let mut c = at;
    for w in 0..k {
        c = c.put(out, row[w], 64);
    }
    // With n = 512 the word at k = 8 is the parity word: left is 0 then, and no bit of it is taken as a coefficient.
    let v = bits::last_bits(row[k], left, row[8]);
    c.put(out, v, left + 1)
}

// Puts the rows of the store at the cursor.
fn put_rows(at: Cursor, out: &mut [u8], store: &[u64], shape: Shape) -> Cursor
    requires { (9 * shape.m ≤ length store.now) × (at.at + shape.m * (shape.n + 1) ≤ 8 * length out.old) × (at.at ≤ 19) }
    ensures { (bits_of out.new ≡ put_at (bits_of out.old) at.at (body_bits shape.n shape.m store.now)) × (result.at ≡ at.at + shape.m * (shape.n + 1)) }
{
    let mut c = at;
    for r in 0..shape.m {
        c = put_row(c, out, &store[9 * r..], shape);
    }
    c
}

// Puts the sheet of the rows of the store at the front of out.
fn emit(shape: Shape, store: &[u64], out: &mut [u8])
    requires { (9 * shape.m ≤ length store.now) × (size_for shape.n shape.m ≤ length out.old) }
    ensures { bits_of out.new ≡ put_at (bits_of out.old) 0 (sheet_bits shape.n shape.m store.now) }
{
    let start = Cursor { at: 0 };
    let head = start.put(out, shape.n as u64, 10);
    let body = head.put(out, shape.m as u64, 9);
    let end = put_rows(body, out, store, shape);
    let size = shape.head().size();
    end.put(out, 0, size * 8 - end.at);
}

// Whether the row whose nine words stand first has no bit past the last variable and a parity of 0 or 1.
fn clean_row(row: &[u64], shape: Shape) -> bool
    requires { 9 ≤ length row.now }
    ensures { result ≡ clean_row shape.n row.now }
{
    let mut left = shape.n % 64;
    for w in shape.n / 64..8 {
        let past = bits::raised(row[w], left);
        if 0 < past {
            return false;
        }
        left = 0;
    }
    row[8] < 2
}

// Whether the rows of the store are clean.
fn clean_rows(store: &[u64], shape: Shape) -> bool
    requires { 9 * shape.m ≤ length store.now }
    ensures { result ≡ clean shape.n shape.m store.now }
{
    for r in 0..shape.m {
        if !clean_row(&store[9 * r..], shape) {
            return false;
        }
    }
    true
}

// Judges n, m and the store, with room for so many bytes: gives the shape of the sheet.
fn judge_write(n: usize, m: usize, store: &[u64], room: usize) -> Result<Shape, Refusal>
    ensures { Answers (refusal (writer n m store.now room)) (HasNumbers n m) result }
{
    let shape = Shape::new(n, m)?;
    if store.len() < 9 * m {
        return Err(Refusal::FewWords);
    }
    if !clean_rows(store, shape) {
        return Err(Refusal::StrayBits);
    }
    if room < shape.head().size() {
        return Err(Refusal::ShortAnswer);
    }
    Ok(shape)
}

// Writes the sheet of n, m and the first m rows of the store to the front of out; its size in bytes. A refusal leaves out as it is.
pub fn write(n: usize, m: usize, store: &[u64], out: &mut [u8]) -> Result<usize, Refusal>
    ensures { Writes n m store.now out.old result out.new }
{
    let shape = judge_write(n, m, store, out.len())?;
    emit(shape, store, out);
    Ok(shape.head().size())
}

// Reads a sheet into the row store and writes what was read to the front of out: the same bytes. A refusal leaves both as they are.
pub fn again(s: &[u8], store: &mut [u64], out: &mut [u8]) -> Result<Shape, Refusal>
    ensures { Rewrites s.now store.old out.old result store.new out.new }
{
    let shape = judge(s, store.len())?;
    if out.len() < s.len() {
        return Err(Refusal::ShortAnswer);
    }
    fill(s, shape, store);
    emit(shape, store, out);
    Ok(shape)
}
