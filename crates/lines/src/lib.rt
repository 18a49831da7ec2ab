// The answer lines of the session program (document 01, "The session program"), each written at the start of a buffer that
// the caller lends. The answer is where its text ends; past that the buffer keeps what it had. Every byte is promised, which `Display`
// does not do.
//
// A number takes at most 21 bytes with its space, and the rest of a line less than 64: 16,384 bytes hold any line.
#![tactic(auto)]

ghost use Rattle.std.specs.Prelude.{[], ◌≡◌, ◌∷◌, map, ◌+◌, ◌*◌, ◌≤◌, length};
ghost use Rattle.lines.specs.Lines.{Put, dec, spaced, line, text, Said};

// A line in the making: its text so far ends at `at`.
#[derive(Drop)]
struct Line<'a> {
    out: &'a mut [u8],
    at: usize,
}

impl Line<'_> {
    // The bytes come next.
    fn bytes(&mut self, bytes: &[u8])
        requires { self.old.at + length bytes.now ≤ length self.old.out.now }
        ensures same_reference { self.new.out.ghost_name ≡ self.old.out.ghost_name }
        ensures put { Put self.old.out.now self.old.at bytes.now self.new.out.now self.new.at }
    {
        let end = self.at + bytes.len();
        self.out[self.at..end].copy_from_slice(bytes);
        self.at = end;
    }

    // A space and a number, which has at most 20 digits.
    fn number(&mut self, n: u64)
        requires { self.old.at + 21 ≤ length self.old.out.now }
        ensures same_reference { self.new.out.ghost_name ≡ self.old.out.ghost_name }
        ensures put { Put self.old.out.now self.old.at (spaced (dec n ∷ [])) self.new.out.now self.new.at }
        ensures upper_bound { self.new.at ≤ self.old.at + 21 }
    {
        let mut digits = [0u8; 20];
        let k = io::decimal(n, &mut digits);
        self.bytes(b" ");
        self.bytes(&digits[..k]);
    }

    // Numbers, each after a space.
    fn numbers(&mut self, ns: &[u64])
        requires { self.old.at + 21 * length ns.now ≤ length self.old.out.now }
        ensures same_reference { self.new.out.ghost_name ≡ self.old.out.ghost_name }
        ensures put { Put self.old.out.now self.old.at (spaced (map dec ns.now)) self.new.out.now self.new.at }
        ensures upper_bound { self.new.at ≤ self.old.at + 21 * length ns.now }
    {
        for n in ns {
            self.number(*n);
        }
    }
}

// A whole line of a word and a number: conflict, back and refused are such lines, and each promises its own text.
fn named(out: &mut [u8], word: &[u8], n: u64) -> usize
    requires { length word.now + 22 ≤ length out.old }
    ensures { Put out.old 0 (line word.now (dec n ∷ [])) out.new result }
{
    let mut line = Line { out, at: 0 };
    line.bytes(word);
    line.number(n);
    line.bytes(b"\n");
    line.at
}

// `open KEPT implied COUNT codes..`
pub fn opened(out: &mut [u8], kept: u64, codes: &[u64]) -> usize
    requires { 64 + 21 * length codes.now ≤ length out.old }
    ensures { Put out.old 0 (text (Said.opened kept codes.now)) out.new result }
{
    let mut line = Line { out, at: 0 };
    line.bytes(b"open");
    line.number(kept);
    line.bytes(b" implied");
    line.number(codes.len() as u64);
    line.numbers(codes);
    line.bytes(b"\n");
    line.at
}

// `unsat rows..`
pub fn unsatisfiable(out: &mut [u8], rows: &[u64]) -> usize
    requires { 64 + 21 * length rows.now ≤ length out.old }
    ensures { Put out.old 0 (text (Said.unsatisfiable rows.now)) out.new result }
{
    let mut line = Line { out, at: 0 };
    line.bytes(b"unsat");
    line.numbers(rows);
    line.bytes(b"\n");
    line.at
}

// `implied COUNT codes..`
pub fn implied(out: &mut [u8], codes: &[u64]) -> usize
    requires { 64 + 21 * length codes.now ≤ length out.old }
    ensures { Put out.old 0 (text (Said.implied codes.now)) out.new result }
{
    let mut line = Line { out, at: 0 };
    line.bytes(b"implied");
    line.number(codes.len() as u64);
    line.numbers(codes);
    line.bytes(b"\n");
    line.at
}

// `held`
pub fn held(out: &mut [u8]) -> usize
    requires { 64 ≤ length out.old }
    ensures { Put out.old 0 (text Said.held) out.new result }
{
    let mut line = Line { out, at: 0 };
    line.bytes(b"held\n");
    line.at
}

// `conflict VARIABLE`
pub fn conflict(out: &mut [u8], variable: u64) -> usize
    requires { 64 ≤ length out.old }
    ensures { Put out.old 0 (text (Said.conflict variable)) out.new result }
{
    named(out, b"conflict", variable)
}

// `back DEPTH`
pub fn back(out: &mut [u8], depth: u64) -> usize
    requires { 64 ≤ length out.old }
    ensures { Put out.old 0 (text (Said.back depth)) out.new result }
{
    named(out, b"back", depth)
}

// `explain VARIABLE clause codes.. rows numbers..`
pub fn explained(out: &mut [u8], variable: u64, clause: &[u64], rows: &[u64]) -> usize
    requires { 64 + 21 * (length clause.now + length rows.now) ≤ length out.old }
    ensures { Put out.old 0 (text (Said.explained variable clause.now rows.now)) out.new result }
{
    let mut line = Line { out, at: 0 };
    line.bytes(b"explain");
    line.number(variable);
    line.bytes(b" clause");
    line.numbers(clause);
    line.bytes(b" rows");
    line.numbers(rows);
    line.bytes(b"\n");
    line.at
}

// `refused NUMBER`
pub fn refused(out: &mut [u8], number: u64) -> usize
    requires { 64 ≤ length out.old }
    ensures { Put out.old 0 (text (Said.refused number)) out.new result }
{
    named(out, b"refused", number)
}
