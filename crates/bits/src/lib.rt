// Bits of bytes and of words of 64 bits, the top bit first: pieces of one byte, and windows of 64 bits that begin inside a byte.
// Document 01 names shifts and masks for this place, so a word is not made by `from_be_bytes`.
#![tactic(auto)]

ghost use Rattle.std.specs.Prelude.{◌≡◌, ◌+◌, ◌-◌, ◌*◌, ◌/◌, ◌%◌, ◌^◌, ◌≤◌, ◌<◌, min, length, take, drop};
ghost use Rattle.format.specs.Bits.{bits_of, bits_n, value_of, put_at};

// v, k bits up.
pub fn raised(v: u64, k: usize) -> u64
    requires { k ≤ 64 }
    ensures { result ≡ v * 2 ^ k % 2 ^ 64 }
{
    v.unbounded_shl(k as u32)
}

// v, k bits down.
pub fn lowered(v: u64, k: usize) -> u64
    requires { k ≤ 64 }
    ensures { result ≡ v / 2 ^ k }
{
    v.unbounded_shr(k as u32)
}

// The first count bits of the word v, and the lowest bit of p.
pub fn last_bits(v: u64, count: usize, p: u64) -> u64
    requires { count < 64 }
    ensures { result ≡ v / 2 ^ (64 - count) * 2 ^ 1 + p % 2 ^ 1 }
{
    (lowered(v, 64 - count) << 1) | (p & 1)
}

// t bits of the byte b, past its first off.
pub fn piece(b: u8, off: usize, t: usize) -> u64
    requires { off + t ≤ 8 }
    ensures { result ≡ b / 2 ^ (8 - off - t) % 2 ^ t }
{
    (u64::from(b) >> (8 - off - t)) & ((1 << t) - 1)
}

// The byte y, with the t bits past its first off replaced by p.
pub fn patched(y: u8, p: u64, off: usize, t: usize) -> u8
    requires { (off + t ≤ 8) × (p < 2 ^ t) }
    ensures { result ≡ (y / 2 ^ (8 - off) * 2 ^ t + p) * 2 ^ (8 - off - t) + y % 2 ^ (8 - off - t) }
{
    let w = u64::from(y);
    let sh = 8 - off - t;
    let top = ((w >> (8 - off)) << t) | p;
    let x = (top << sh) | (w & ((1 << sh) - 1));
    x as u8
}

// The byte b behind the bits of v.
fn joined_byte(v: u64, b: u8) -> u64
    requires { v < 2 ^ 56 }
    ensures { result ≡ v * 2 ^ 8 + b }
{
    (v << 8) | u64::from(b)
}

// The 64 bits from byte q on. (A compiler makes one load of this loop.)
fn word(s: &[u8], q: usize) -> u64
    requires { q + 8 ≤ length s.now }
    ensures { result ≡ value_of (take 64 (drop (8 * q) (bits_of s.now))) }
{
    let mut v = 0;
    for i in 0..8 {
        v = joined_byte(v, s[q + i]);
    }
    v
}

// The 64 bits from bit off of byte q on.
pub fn window(s: &[u8], q: usize, off: usize) -> u64
    requires { (off < 8) × (q + 9 ≤ length s.now) }
    ensures { result ≡ value_of (take 64 (drop (8 * q + off) (bits_of s.now))) }
{
    let w = word(s, q);
    let b = u64::from(s[q + 8]);
    (w << off) | (b >> (8 - off))
}

// The lowest eight bits of v.
fn low_byte(v: u64) -> u8
    ensures { result ≡ v % 2 ^ 8 }
{
    (v & 255) as u8
}

// Puts the 64 bits of v from byte q on.
fn put_word(s: &mut [u8], q: usize, v: u64)
    requires { q + 8 ≤ length s.old }
    ensures { bits_of s.new ≡ put_at (bits_of s.old) (8 * q) (bits_n 64 v) }
{
    for i in 0..8 {
        s[q + i] = low_byte(v >> (56 - 8 * i));
    }
}

// The first off bits of y, and v behind them.
fn headed(y: u8, off: usize, v: u64) -> u64
    requires { off < 8 }
    ensures { result ≡ y / 2 ^ (8 - off) * 2 ^ (64 - off) + v / 2 ^ off }
{
    let first = u64::from(y) >> (8 - off);
    raised(first, 64 - off) | (v >> off)
}

// Puts the 64 bits of v from bit off of byte q on.
pub fn put_window(s: &mut [u8], q: usize, off: usize, v: u64)
    requires { (off < 8) × (q + 9 ≤ length s.old) }
    ensures { bits_of s.new ≡ put_at (bits_of s.old) (8 * q + off) (bits_n 64 v) }
{
    let x = headed(s[q], off, v);
    put_word(s, q, x);
    let last = patched(s[q + 8], v & ((1 << off) - 1), 0, off);
    s[q + 8] = last;
}
