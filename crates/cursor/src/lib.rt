// A cursor over the bits of a sheet: each read gives it back moved on, and so does each write. And the head of a sheet, which says its size.
#![tactic(auto)]

ghost use Rattle.std.specs.Prelude.{◌≡◌, ◌+◌, ◌*◌, ◌^◌, ◌≤◌, ◌<◌, length, take, drop};
ghost use Rattle.format.specs.Bits.{bits_of, bits_n, value_of, put_at};
ghost use Rattle.format.specs.Sheet.{n_of, m_of, bits_for, size_for};

pub use shape::Shape;

mod shape;

// How many bits stand before it. That they are fewer than 2 ^ 32 is asked where it is used, so that nothing is to be shown where it moves.
#[derive(Clone, Copy)]
pub struct Cursor {
    pub at: usize,
}

// A field that was read, and the cursor behind it.
#[derive(Clone, Copy)]
pub struct Field {
    pub value: u64,
    pub next: Cursor,
}

impl Cursor {
    // Reads the next count bits of s, byte by byte: for the last nine bytes, which hold no window of 64 bits at every bit.
    fn field_bytes(self, s: &[u8], count: usize) -> Field
        requires { (count ≤ 64) × (self.at + count ≤ 8 * length s.now) × (self.at < 2 ^ 32) }
        ensures { (result.value ≡ value_of (take count (drop self.at (bits_of s.now)))) × (result.next.at ≡ self.at + count) }
    {
        let at = self.at;
        let mut value: u64 = 0;
        let mut done: usize = 0;
        // The pieces are of varying size, so no range counts them.
        while done < count {
            let i = at + done;
            let q = i / 8;
            let off = i % 8;
            let t = (8 - off).min(count - done);
            let p = bits::piece(s[q], off, t);
            value = (value << t) | p;
            done += t;
        }
        Field {
            value,
            next: Cursor { at: at + count },
        }
    }

    // Reads the next count bits of s.
    pub fn field(self, s: &[u8], count: usize) -> Field
        requires { (count ≤ 64) × (self.at + count ≤ 8 * length s.now) × (self.at < 2 ^ 32) }
        ensures { (result.value ≡ value_of (take count (drop self.at (bits_of s.now)))) × (result.next.at ≡ self.at + count) }
    {
        let at = self.at;
        let q = at / 8;
        if q + 9 <= s.len() {
            let w = bits::window(s, q, at % 8);
            let value = bits::lowered(w, 64 - count);
            Field {
                value,
                next: Cursor { at: at + count },
            }
        } else {
            self.field_bytes(s, count)
        }
    }

    // Puts the count low bits of value at the cursor, byte by byte.
    fn put_bytes(self, s: &mut [u8], value: u64, count: usize) -> Cursor
        requires { (count ≤ 64) × (self.at + count ≤ 8 * length s.old) × (self.at < 2 ^ 32) }
        ensures { (bits_of s.new ≡ put_at (bits_of s.old) self.at (bits_n count value)) × (result.at ≡ self.at + count) }
    {
        let at = self.at;
        let mut done: usize = 0;
        // As in `field_bytes`.
        while done < count {
            let i = at + done;
            let q = i / 8;
            let off = i % 8;
            let t = (8 - off).min(count - done);
            let p = (value >> (count - done - t)) & ((1 << t) - 1);
            let x = bits::patched(s[q], p, off, t);
            s[q] = x;
            done += t;
        }
        Cursor { at: at + count }
    }

    // Puts the count low bits of value at the cursor. Inlined, so that nothing is asked of a count of 64 when it runs.
    #[inline(always)]
    pub fn put(self, s: &mut [u8], value: u64, count: usize) -> Cursor
        requires { (count ≤ 64) × (self.at + count ≤ 8 * length s.old) × (self.at < 2 ^ 32) }
        ensures { (bits_of s.new ≡ put_at (bits_of s.old) self.at (bits_n count value)) × (result.at ≡ self.at + count) }
    {
        let at = self.at;
        let q = at / 8;
        if count == 64 && q + 9 <= s.len() {
            bits::put_window(s, q, at % 8, value);
            return Cursor { at: at + 64 };
        }
        self.put_bytes(s, value, count)
    }
}

// ---- the head, and the size that it says

// The two numbers at the head of a sheet, of ten and of nine bits.
#[derive(Clone, Copy)]
pub struct Head {
    pub n: usize,
    pub m: usize,
    pub ghost n_fits: { n < 1024 },
    pub ghost m_fits: { m < 512 },
}

// A head that was read, and the cursor behind it.
#[derive(Clone, Copy)]
pub struct HeadField {
    pub head: Head,
    pub next: Cursor,
}

// Reads n and m from the first 19 bits, and gives the cursor behind them.
pub fn head_of(s: &[u8]) -> HeadField
    requires { 3 ≤ length s.now }
    ensures { (result.head.n ≡ n_of s.now) × (result.head.m ≡ m_of s.now) × (result.next.at ≡ 19) }
{
    let start = Cursor { at: 0 };
    let n = start.field(s, 10);
    let m = n.next.field(s, 9);
    let head = Head {
        n: n.value as usize,
        m: m.value as usize,
    };
    HeadField { head, next: m.next }
}

impl Head {
    // How many bits a sheet of n variables and m rows means: of all that a head can say, also of what is refused.
    pub fn bits(self) -> usize
        ensures { (result ≡ bits_for self.n self.m) × (result < 2 ^ 19) }
    {
        19 + self.m * (self.n + 1)
    }

    // How many bytes hold them.
    pub fn size(self) -> usize
        ensures { (result ≡ size_for self.n self.m) × (result ≤ 2 ^ 16) }
    {
        self.bits().div_ceil(8)
    }
}
