// Boundary values of the sheet, run through the reader and the writer. That each answer is the refusal stated, None where nothing is
// refused, is proved of the promise, and checked again when the program runs.
#![tactic(auto, unfolding(format::specs::Bits::value_of, format::specs::Bits::bits_of, format::specs::Bits::bits_n, format::specs::Bits::odd))]

ghost use Rattle.std.specs.Prelude.{◌≡◌, ◌≤◌, take, set, replicate};
ghost use Rattle.std.specs.Option.{option_map_or};
ghost use Rattle.format.specs.Refusals.{number, refusal};
ghost use Rattle.format.specs.Sheet.{reader, writer};

use format::Refusal;

// ---- reading

// The reader answers s, with a store of so many words, by the refusal wanted.
fn reads(s: &[u8], room: usize, wanted: Option<Refusal>)
    requires { (room ≤ 2304) × (refusal (reader s.now room) ≡ option_map_or number wanted 0) }
{
    let mut store = [0u64; 2304];
    let answer = sheet::read(s, &mut store[..room]);
    check::expect(answer.err() == wanted);
}

// Two bytes; n = 0 and m = 0; two rows of three variables, one byte short, whole, one byte long, and with a store one word short.
fn sizes() {
    reads(b"\x00\x00", 0, Some(Refusal::ShortSheet));
    reads(b"\x00\x00\x00", 0, None);
    reads(b"\x00\xC0\x5E", 18, Some(Refusal::ShortSheet));
    reads(b"\x00\xC0\x5E\xC0", 18, None);
    reads(b"\x00\xC0\x5E\xC0\x00", 18, Some(Refusal::LongSheet));
    reads(b"\x00\xC0\x5E\xC0", 17, Some(Refusal::FewWords));
}

// Each padding bit of that sheet set.
fn padding() {
    reads(b"\x00\xC0\x5E\xD0", 18, Some(Refusal::StrayBits));
    reads(b"\x00\xC0\x5E\xC8", 18, Some(Refusal::StrayBits));
    reads(b"\x00\xC0\x5E\xC4", 18, Some(Refusal::StrayBits));
    reads(b"\x00\xC0\x5E\xC2", 18, Some(Refusal::StrayBits));
    reads(b"\x00\xC0\x5E\xC1", 18, Some(Refusal::StrayBits));
}

// n = 512 and 513; m = 257; both too large; m = 256, with a store of 2,304 words and one word short.
fn largest() {
    reads(b"\x80\x00\x00", 0, None);
    reads(b"\x80\x40\x00", 0, Some(Refusal::ManyVariables));
    reads(b"\x00\x20\x20", 0, Some(Refusal::ManyRows));
    reads(b"\x80\x60\x20", 0, Some(Refusal::ManyVariables));
    let mut s = [0u8; 35];
    s[1] = 32;
    reads(&s, 2304, None);
    reads(&s, 2303, Some(Refusal::FewWords));
}

// ---- writing

// The writer answers n, m, a store of so many words with this first word and this first parity, and room bytes, by the refusal wanted.
fn writes(
    n: usize,
    m: usize,
    first: u64,
    parity: u64,
    words: usize,
    room: usize,
    wanted: Option<Refusal>,
)
    requires { (words ≤ 18) × (room ≤ 4)
        × (refusal (writer n m (take words (set (set (replicate 18 0) 0 first) 8 parity)) room) ≡ option_map_or number wanted 0) }
{
    let mut store = [0u64; 18];
    store[0] = first;
    store[8] = parity;
    let mut out = [0u8; 4];
    let answer = sheet::write(n, m, &store[..words], &mut out[..room]);
    check::expect(answer.err() == wanted);
}

// n = 512 and 513; m = 257; variable 3 of three, a bit past it; a parity of 1 and of 2.
fn values() {
    writes(512, 0, 0, 0, 0, 3, None);
    writes(513, 0, 0, 0, 0, 3, Some(Refusal::ManyVariables));
    writes(0, 257, 0, 0, 0, 4, Some(Refusal::ManyRows));
    writes(3, 2, 0x2000_0000_0000_0000, 0, 18, 4, None);
    writes(
        3,
        2,
        0x1000_0000_0000_0000,
        0,
        18,
        4,
        Some(Refusal::StrayBits),
    );
    writes(3, 2, 0, 1, 18, 4, None);
    writes(3, 2, 0, 2, 18, 4, Some(Refusal::StrayBits));
}

// A store one word short; room for one byte less than the sheet has.
fn buffers() {
    writes(3, 2, 0, 0, 17, 4, Some(Refusal::FewWords));
    writes(3, 2, 0, 0, 18, 3, Some(Refusal::ShortAnswer));
}

// Every boundary value, of the reader and of the writer.
fn main() {
    sizes();
    padding();
    largest();
    values();
    buffers();
}
