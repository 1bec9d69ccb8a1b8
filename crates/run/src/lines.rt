// The lines that lie whole in a chunk: each is answered where it stands, without a copy.
ghost use Rattle.std.specs.Prelude.{◌≡◌, [], not, ℕ, ◌+◌, ◌<◌, ◌≤◌, length, drop};
ghost use Rattle.line.specs.Lent.{standing_in};
ghost use Rattle.run.specs.Course.{end_in, unsound};
ghost use Rattle.run.specs.Lent.{held_in, session_of, ran_in, run_from, report_from, placed_from};

use crate::{Ran, Session};
use suite::Suite;
use text::Reply;

// Refusal 1 is judged once for all the lines of a chunk.
pub(crate) fn is_sound(standing: &Option<Suite>) -> bool
    ensures { result ≡ not (unsound (standing_in standing.now)) }
{
    match standing {
        Some(suite) => suite.is_sound(),
        None => true,
    }
}

// The place behind the last newline, or 0: from any place before it on a line ends, and from there on none.
pub(crate) fn last_end(text: &[u8]) -> usize
    ensures by_index { (at : ℕ) → at < result → at + end_in (drop at text.now) < length text.now }
    ensures by_index_2 { (at : ℕ) → result ≤ at → at ≤ length text.now → at + end_in (drop at text.now) ≡ length text.now }
{
    match text.iter().rposition(|byte| *byte == b'\n') {
        Some(at) => at + 1,
        None => 0,
    }
}

// The place of the next newline, where one is ahead: the text's end is not asked for at each byte. Two bytes a turn.
pub(crate) fn line_end(text: &[u8], from: usize) -> usize
    requires { from + end_in (drop from text.now) < length text.now }
    ensures { result ≡ from + end_in (drop from text.now) }
{
    let mut i = from;
    while text[i] != b'\n' {
        if text[i + 1] == b'\n' {
            return i + 1;
        }
        i += 2;
    }
    i
}

// The run from `from` on, where a line begins, with the output filled up to `filled`.
pub(crate) fn rest(
    session: &mut Session,
    text: &[u8],
    from: usize,
    out: &mut [u8],
    filled: usize,
) -> Ran
    requires { (session.old ≡ session_of session.old.standing []) × ((from ≤ length text.now) × (filled ≤ length out.old)) }
    ensures lent_after { ran_in result session.new ≡ report_from from filled (run_from (standing_in session.old.standing) text.now from out.old filled) }
    ensures out_after { out.new ≡ placed_from filled (run_from (standing_in session.old.standing) text.now from out.old filled) out.old }
    ensures session_value { session.new ≡ session_of session.new.standing (held_in session.new) }
{
    let last = last_end(text);
    let mut at = from;
    let mut written = filled;
    while at < last {
        if out.len() - written < Reply::LONGEST {
            return Ran { taken: at, written };
        }
        let end = line_end(text, at);
        let reply = line::answer_unchecked(&mut session.standing, &text[at..end]);
        written = text::print(reply, out, written);
        at = end + 1;
    }
    session.hold(&text[at..]);
    Ran {
        taken: text.len(),
        written,
    }
}
