// A session in pages: the lines of one command after another are put into a page, and a page is written once it may have no room for
// the next line, or once the session is over.
#![tactic(auto)]

ghost use Rattle.std.specs.Prelude.{◌≡◌, ◌+◌, ◌≤◌, ◌<◌, IfOk, IfSome, OnOk, OnErr, length, take, drop, true};
ghost use Rattle.io.specs.Counts.{IsPrefixLen};
ghost use Rattle.std.specs.Io.KnownBytes.{Appends, Consumes};
ghost use Rattle.gf2.specs.Answers.{Position};
ghost use Rattle.parity.specs.Promises.{Stands};
ghost use Rattle.dialogue.specs.Steps.{room};
ghost use Rattle.play.specs.Session.{most_bytes, SessionOn, Says, Commands};
ghost use Rattle.play.specs.Pages.{Roomy, Appended, Paged, Spoken, InPart, Begun};

use dialogue::{ROOM, Step};
use judge::Header;
use std::io;
use std::io::{Read, Write};

// The most variables.
const MAX_VARS: usize = 512;
// The most rows.
const MAX_ROWS: usize = 256;
// Words of a row store that has room for the rows of every sheet.
const STORE_WORDS: usize = 9 * MAX_ROWS;
// Bytes of a page.
const PAGE: usize = 65536;
// So many bytes of the input count.
const MOST_BYTES: usize = 65536;

// How far a session has come: where its commands go on, the header there, where the text of the page ends, and whether more may follow.
#[derive(Clone, Copy)]
struct Progress {
    at: usize,
    header: Header,
    end: usize,
    more: bool,
}

// Opens the sheet at the start of the input, and puts its line into the page as the first.
fn start(
    s: &[u8],
    store: &mut [u64],
    work: &mut [u64],
    literals: &mut [u64],
    rows: &mut [u64],
    page: &mut [u8],
) -> Progress
    requires { (2304 ≤ length store.old) × Roomy work.old literals.old rows.old page.old }
    ensures { Paged (SessionOn s.now) s.now result work.new page.old page.new }
{
    let at = dialogue::sheet_end(s);
    let Step { header, end, more } = dialogue::begin(&s[..at], store, work, literals, rows, page);
    Progress {
        at,
        header,
        end,
        more,
    }
}

// Carries out a command, and puts its line into the page from place `at` on.
fn append(
    h: Header,
    work: &mut [u64],
    literals: &mut [u64],
    rows: &mut [u64],
    page: &mut [u8],
    at: usize,
    command: u16,
) -> Step
    requires { at + room ≤ length page.old }
    ensures { Appended h work.old literals.old rows.old page.old at command result work.new literals.new rows.new page.new }
{
    let Step { header, end, more } = dialogue::turn(
        h,
        work,
        literals,
        rows,
        &mut page[at..],
        command,
    );
    Step {
        header,
        end: at + end,
        more,
    }
}

// Carries out the commands from `first` on, until the session is over or the page may have no room for the next line.
fn play(
    s: &[u8],
    first: usize,
    opened: Header,
    work: &mut [u64],
    literals: &mut [u64],
    rows: &mut [u64],
    page: &mut [u8],
) -> Progress
    requires { (first ≤ length s.now) × Roomy work.old literals.old rows.old page.old }
    ensures onward { result.more ≡ true → first < result.at }
    ensures full { result.more ≡ true → length page.new < result.end + room }
    ensures paged { (p : Position) → Stands opened work.old p → Paged (Commands p (drop first s.now)) s.now result work.new page.old page.new }
{
    let mut header = opened;
    let mut at = first;
    let mut end = 0;
    let more = loop {
        if s.len() - at < 2 {
            break false;
        }
        let command = dialogue::command(s[at], s[at + 1]);
        let step = append(header, work, literals, rows, page, end, command);
        if !step.more {
            break false;
        }
        header = step.header;
        at += 2;
        end = step.end;
        if page.len() - end < ROOM {
            break true;
        }
    };
    Progress {
        at,
        header,
        end,
        more,
    }
}

// Writes the bytes to `out`; where that fails, a front of them is written.
fn put<W: Write>(bytes: &[u8], out: &mut W) -> io::Result<()>
    ensures whole { OnOk result (Appends (W.contents out.old) (W.contents out.new) bytes.now) }
    ensures front { OnErr result (InPart (W.contents out.old) (W.contents out.new) bytes.now) }
{
    let mut done = 0;
    while done < bytes.len() {
        let n = out.write(&bytes[done..])?;
        if n == 0 {
            return Err(io::Error::from(io::ErrorKind::WriteZero));
        }
        done += n;
    }
    Ok(())
}

// Writes what the session on `s` says to `out`, page by page. The buffers are large enough for every sheet and every answer: no call is
// refused with 6 or 7, for `Session` has no such line. Where a write fails, a front of the text is written.
fn speak<W: Write>(s: &[u8], out: &mut W) -> io::Result<()>
    ensures whole { OnOk result (Spoken (SessionOn s.now) (W.contents out.old) (W.contents out.new)) }
    ensures front { OnErr result (Begun (SessionOn s.now) (W.contents out.old) (W.contents out.new)) }
{
    let mut store = [0u64; STORE_WORDS];
    let mut work = [0u64; tableau::SIZE];
    let mut literals = [0u64; MAX_VARS];
    let mut rows = [0u64; MAX_ROWS];
    let mut page = [0u8; PAGE];
    let mut progress = start(
        s,
        &mut store,
        &mut work,
        &mut literals,
        &mut rows,
        &mut page,
    );
    put(&page[..progress.end], out)?;
    while progress.more {
        progress = play(
            s,
            progress.at,
            progress.header,
            &mut work,
            &mut literals,
            &mut rows,
            &mut page,
        );
        put(&page[..progress.end], out)?;
    }
    Ok(())
}

// Fills the buffer from its front until it is full or the input ends; returns how many bytes came.
fn filled<R: Read>(input: &mut R, buffer: &mut [u8]) -> io::Result<usize>
    ensures within { IfOk result (λ n. IsPrefixLen n buffer.new) }
    ensures bytes { IfOk result (λ n. IfSome (R.remaining input.old) (λ bytes. take n buffer.new ≡ take (length buffer.new) bytes)) }
    ensures taken { IfOk result (λ n. Consumes (R.remaining input.old) (R.remaining input.new) (take n buffer.new)) }
{
    let mut done = 0;
    while done < buffer.len() {
        let n = input.read(&mut buffer[done..])?;
        if n == 0 {
            break;
        }
        done += n;
    }
    Ok(done)
}

// Writes what the session on the first 65,536 bytes of the input says to `out`; hands on an error of either.
pub fn session<R: Read, W: Write>(input: &mut R, out: &mut W) -> io::Result<()>
    ensures whole { OnOk result (IfSome (R.remaining input.old) (λ bytes. Spoken (Says bytes) (W.contents out.old) (W.contents out.new))) }
    ensures front { OnErr result (IfSome (R.remaining input.old) (λ bytes. Begun (Says bytes) (W.contents out.old) (W.contents out.new))) }
    ensures left { OnOk result (IfSome (R.remaining input.old) (λ bytes. R.remaining input.new ≡ Some (drop most_bytes bytes))) }
{
    let mut buffer = [0u8; MOST_BYTES];
    let n = filled(input, &mut buffer)?;
    speak(&buffer[..n], out)
}
