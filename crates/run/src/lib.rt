// The line program over a text that comes in chunks of any size. The answers are the same however the text is cut, and a long
// line needs no more memory than a short one.
#![tactic(auto)]

mod hold;
mod lines;

ghost use Rattle.std.specs.Prelude.{◌≡◌, length};
ghost use Rattle.run.specs.Course.{run_of, finish_of};
ghost use Rattle.run.specs.Lent.{course_in, left_by, report_in, report_of, placed, fresh_session};

use suite::{Refusal, Suite};
use text::Reply;

// What stands between two chunks: the suite, once one was accepted, and of a line that is not ended the first bytes. One
// more is held than a line may have, which tells that it is too long.
#[derive(Clone, Copy)]
pub struct Session {
    pub standing: Option<Suite>,
    pub line: [u8; Session::HELD],
    pub held: usize,
}

// How many bytes of the text were taken, and how many of the output were written.
#[derive(Clone, Copy)]
pub struct Ran {
    pub taken: usize,
    pub written: usize,
}

impl Session {
    // How many bytes of a line are held.
    pub const HELD: usize = 81;

    // Before any text.
    pub fn start() -> Session
        ensures { result ≡ fresh_session }
    {
        Session {
            standing: None,
            line: [0; Session::HELD],
            held: 0,
        }
    }
}

// Answers the lines that end in a chunk of text, as long as any answer has room in `out`, and holds what follows the last
// newline. The caller comes again with what was not taken. A refusal leaves the session and `out` as they were. The last clause says
// what stands behind the held bytes.
pub fn run(session: &mut Session, text: &[u8], out: &mut [u8]) -> Result<Ran, Refusal>
    ensures lent_after { report_in result session.new ≡ report_of (run_of (course_in session.old) text.now (length out.old)) }
    ensures out_after { out.new ≡ placed (run_of (course_in session.old) text.now (length out.old)) out.old }
    ensures session_value { session.new ≡ left_by result session.old session.new }
{
    if !lines::is_sound(&session.standing) {
        return Err(Refusal::Unsound);
    }
    if lines::last_end(text) == 0 {
        session.hold(text);
        return Ok(Ran {
            taken: text.len(),
            written: 0,
        });
    }
    if out.len() < Reply::LONGEST {
        return Err(Refusal::Buffer);
    }
    let end = lines::line_end(text, 0);
    let reply = session.ended(&text[..end]);
    let written = text::print(reply, out, 0);
    Ok(lines::rest(session, text, end + 1, out, written))
}

// The end of the text ends a line too, if that is not empty: a newline is run on, and counts as taken.
pub fn finish(session: &mut Session, out: &mut [u8]) -> Result<Ran, Refusal>
    ensures lent_after { report_in result session.new ≡ report_of (finish_of (course_in session.old) (length out.old)) }
    ensures out_after { out.new ≡ placed (finish_of (course_in session.old) (length out.old)) out.old }
    ensures session_value { session.new ≡ left_by result session.old session.new }
{
    if session.held == 0 {
        session.clear();
        return Ok(Ran {
            taken: 0,
            written: 0,
        });
    }
    run(session, b"\n", out)
}
