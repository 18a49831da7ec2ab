// The header of a state, and the refusals that a call gives before it looks into the working buffer.
#![tactic(auto)]

ghost use Rattle.std.specs.Prelude.{◌≡◌, [], ◌∷◌, ltb};
ghost use Rattle.format.specs.Refusals.{check, refusal, answered};
ghost use Rattle.judge.specs.Checks.{unfit, assume_checks, back_checks, explain_checks};

use format::Refusal;

// A state is a header and a working buffer. It is open exactly if `open` is 1. C programs hold it, and may put any number there.
#[repr(C)]
#[derive(Clone, Copy, Debug, Default, PartialEq, Eq)]
pub struct Header {
    pub open: u64,
    pub n: usize,
    pub m: usize,
    pub kept: usize,
    pub depth: usize,
}

// Whether line 11 holds.
fn unfit(h: Header) -> bool
    ensures { result ≡ unfit h }
{
    h.open != 1 || 512 < h.n || 256 < h.m || h.n.min(h.m) < h.kept || h.n < h.depth
}

// Lines 11 and 6, by which assume, back and explain are judged first.
fn judge_state(h: Header, words: usize) -> Result<(), Refusal>
    ensures { answered result ≡ refusal (check 11 (unfit h) ∷ check 6 (ltb words 4096) ∷ []) }
{
    if unfit(h) {
        return Err(Refusal::NotOpen);
    }
    if words < 4096 {
        return Err(Refusal::FewWords);
    }
    Ok(())
}

// The refusal of an assume: line 12 is not judged here.
pub fn judge_assume(h: Header, words: usize, room: usize, code: usize) -> Result<(), Refusal>
    ensures { answered result ≡ refusal (assume_checks h words room code) }
{
    judge_state(h, words)?;
    if room < h.n {
        return Err(Refusal::ShortAnswer);
    }
    if code < 2 || 2 * h.n + 1 < code {
        return Err(Refusal::OutOfRange);
    }
    Ok(())
}

// The refusal of a back.
pub fn judge_back(h: Header, words: usize, depth: usize) -> Result<(), Refusal>
    ensures { answered result ≡ refusal (back_checks h words depth) }
{
    judge_state(h, words)?;
    if h.depth < depth {
        return Err(Refusal::AboveDepth);
    }
    Ok(())
}

// The refusal of an explain: line 10 is not judged here.
pub fn judge_explain(
    h: Header,
    words: usize,
    codes: usize,
    numbers: usize,
    v: usize,
) -> Result<(), Refusal>
    ensures { answered result ≡ refusal (explain_checks h words codes numbers v) }
{
    judge_state(h, words)?;
    if codes < h.n || numbers < h.m {
        return Err(Refusal::ShortAnswer);
    }
    if v < 1 || h.n < v {
        return Err(Refusal::OutOfRange);
    }
    Ok(())
}
