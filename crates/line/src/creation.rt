// What a line that asks for a suite comes to before one is accepted.
ghost use Rattle.std.specs.Prelude.{◌≡◌, None, Some};
ghost use Rattle.line.specs.Standing.{without_suite, creation_for};
ghost use Rattle.line.specs.Lent.{standing_in, answer_in};

use crate::reply;
use suite::{Refusal, Suite};
use text::{Creation, Reply};

// The first suite, or why there is none. It stands apart, so that a line that asks for none clears no memory for one.
#[inline(never)]
pub(crate) fn begin(standing: &mut Option<Suite>, asked: Creation) -> Reply
    requires { standing.old ≡ None }
    ensures { answer_in result standing.new ≡ without_suite (standing_in None) (creation_for (Some asked)) }
{
    if Creation::VOTES < asked.count {
        return reply::no(Refusal::Members);
    }
    match Suite::create(asked.read, asked.write, &asked.votes[..asked.count]) {
        Ok(suite) => {
            *standing = Some(suite);
            Reply::SuiteOk
        }
        Err(refusal) => reply::no(refusal),
    }
}
