// A session step by step: the sheet at the start of the input, and each command after it. A step is one call and its line, which stands
// at the start of the line buffer. Nothing is read or written here. The line buffer is a slice of `room` bytes or more: an array of so
// many would ask more of those who lend it.
#![tactic(auto)]

ghost use Rattle.std.specs.Prelude.{◌≡◌, ◌≤◌, length};
ghost use Rattle.lines.specs.Lines.{Put, text};
ghost use Rattle.dialogue.specs.Dialogue.{sheet_end, command_of, said_opening, said_assuming, said_backing, said_explaining};
ghost use Rattle.dialogue.specs.Steps.{room, OpeningFits, AssumingFits, ExplainingFits, Begins, AssumeStep, BackStep, ExplainStep, Turns};

use format::Refusal;
use judge::Header;
use parity::{Assuming, Explained, Opening, Reply};

// So many bytes hold any line.
pub const ROOM: usize = 16384;

// So many numbers a command can have: its last fourteen bits.
const OPERANDS: u16 = 16384;

// The commands, by their leading two bits.
const END: u16 = 0;

const ASSUME: u16 = 1;

const BACK: u16 = 2;

const EXPLAIN: u16 = 3;

// The header after a step, where its line ends in the line buffer, and whether the session goes on. The header is promised also where it
// does not, so the step is no Option.
#[derive(Clone, Copy)]
pub struct Step {
    pub header: Header,
    pub end: usize,
    pub more: bool,
}

// ---- the input

// Returns how many bytes of the input its sheet has.
pub fn sheet_end(s: &[u8]) -> usize
    ensures { result ≡ sheet_end s.now }
{
    if s.len() < 3 {
        return s.len();
    }
    let head = cursor::head_of(s).head;
    head.size().min(s.len())
}

// Joins two bytes into a command, top bits first.
pub fn command(high: u8, low: u8) -> u16
    ensures { result ≡ command_of high low }
{
    u16::from_be_bytes([high, low])
}

// ---- the line of an answer

// Puts the line of an opening at the start of `line`; returns where it ends.
fn line_of_opening(
    line: &mut [u8],
    answer: Result<Opening, Refusal>,
    kept: usize,
    literals: &[u64],
    rows: &[u64],
) -> usize
    requires { (room ≤ length line.old) × OpeningFits answer literals.now rows.now }
    ensures { Put line.old 0 (text (said_opening answer kept literals.now rows.now)) line.new result }
{
    match answer {
        Err(refusal) => lines::refused(line, refusal.number()),
        Ok(Opening::Unsatisfiable(count)) => lines::unsatisfiable(line, &rows[..count]),
        Ok(Opening::Opened(count)) => lines::opened(line, kept as u64, &literals[..count]),
    }
}

// Puts the line of an assume at the start of `line`; returns where it ends.
fn line_of_assuming(line: &mut [u8], answer: Result<Assuming, Refusal>, literals: &[u64]) -> usize
    requires { (room ≤ length line.old) × AssumingFits answer literals.now }
    ensures { Put line.old 0 (text (said_assuming answer literals.now)) line.new result }
{
    match answer {
        Err(refusal) => lines::refused(line, refusal.number()),
        Ok(Assuming::Held) => lines::held(line),
        Ok(Assuming::Conflict(variable)) => lines::conflict(line, variable as u64),
        Ok(Assuming::Taken(count)) => lines::implied(line, &literals[..count]),
    }
}

// Puts the line of a back at the start of `line`; returns where it ends.
fn line_of_backing(line: &mut [u8], answer: Result<(), Refusal>, depth: usize) -> usize
    requires { room ≤ length line.old }
    ensures { Put line.old 0 (text (said_backing answer depth)) line.new result }
{
    match answer {
        Err(refusal) => lines::refused(line, refusal.number()),
        Ok(()) => lines::back(line, depth as u64),
    }
}

// Puts the line of an explain of `variable` at the start of `line`; returns where it ends.
fn line_of_explaining(
    line: &mut [u8],
    answer: Result<Explained, Refusal>,
    variable: usize,
    clause: &[u64],
    rows: &[u64],
) -> usize
    requires { (room ≤ length line.old) × ExplainingFits answer clause.now rows.now }
    ensures { Put line.old 0 (text (said_explaining answer variable clause.now rows.now)) line.new result }
{
    match answer {
        Err(refusal) => lines::refused(line, refusal.number()),
        Ok(Explained { codes, numbers }) => {
            lines::explained(line, variable as u64, &clause[..codes], &rows[..numbers])
        }
    }
}

// ---- the steps

// Opens the sheet `s`, and puts its line at the start of `line`; the session goes on where the opening is neither refused nor unsatisfiable.
pub fn begin(
    s: &[u8],
    store: &mut [u64],
    work: &mut [u64],
    literals: &mut [u64],
    rows: &mut [u64],
    line: &mut [u8],
) -> Step
    requires { room ≤ length line.old }
    ensures { Begins s.now store.old work.old literals.old rows.old line.old result
        store.new work.new literals.new rows.new line.new }
{
    let Reply { header, answer } = parity::open(Header::default(), s, store, work, literals, rows);
    let end = line_of_opening(line, answer, header.kept, literals, rows);
    let more = matches!(answer, Ok(Opening::Opened(_)));
    Step { header, end, more }
}

// Assumes the literal `code`, and puts its line at the start of `line`; the session goes on.
fn assume(h: Header, work: &mut [u64], literals: &mut [u64], line: &mut [u8], code: usize) -> Step
    requires { room ≤ length line.old }
    ensures { AssumeStep h work.old literals.old line.old code result work.new literals.new line.new }
{
    let Reply { header, answer } = parity::assume(h, work, literals, code);
    let end = line_of_assuming(line, answer, literals);
    Step {
        header,
        end,
        more: true,
    }
}

// Goes back to `depth`, and puts its line at the start of `line`; the session goes on.
fn back(h: Header, work: &mut [u64], line: &mut [u8], depth: usize) -> Step
    requires { room ≤ length line.old }
    ensures { BackStep h work.old line.old depth result work.new line.new }
{
    let Reply { header, answer } = parity::back_core(h, work, depth);
    let end = line_of_backing(line, answer, header.depth);
    Step {
        header,
        end,
        more: true,
    }
}

// Explains `variable`, and puts its line at the start of `line`; the session goes on with the header that it had.
fn explain(
    h: Header,
    work: &[u64],
    literals: &mut [u64],
    rows: &mut [u64],
    line: &mut [u8],
    variable: usize,
) -> Step
    requires { room ≤ length line.old }
    ensures { ExplainStep h work.now literals.old rows.old line.old variable result
        literals.new rows.new line.new }
{
    let answer = parity::explain(h, work, literals, rows, variable);
    let end = line_of_explaining(line, answer, variable, literals, rows);
    Step {
        header: h,
        end,
        more: true,
    }
}

// Carries out a command, whose leading two bits say which it is and whose other fourteen its number, and puts its line at the start of
// `line`; command 0 has no line, and ends the session.
pub fn turn(
    h: Header,
    work: &mut [u64],
    literals: &mut [u64],
    rows: &mut [u64],
    line: &mut [u8],
    command: u16,
) -> Step
    requires { room ≤ length line.old }
    ensures { Turns h work.old literals.old rows.old line.old command result
        work.new literals.new rows.new line.new }
{
    let number = (command % OPERANDS) as usize;
    match command / OPERANDS {
        END => Step {
            header: h,
            end: 0,
            more: false,
        },
        ASSUME => assume(h, work, literals, line, number),
        BACK => back(h, work, line, number),
        EXPLAIN.. => explain(h, work, literals, rows, line, number),
    }
}
