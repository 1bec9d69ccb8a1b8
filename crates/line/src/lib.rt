// One command line in, its answer out, on the suite that was accepted.
#![tactic(auto)]

mod commands;
mod creation;
mod reply;

ghost use Rattle.std.specs.Prelude.{◌≡◌};
ghost use Rattle.line.specs.Standing.{accepted, answer_of};
ghost use Rattle.line.specs.Lent.{standing_in, answer_in, reply_in};

use suite::{Refusal, Suite};
use text::Reply;

// The answer to one line on a suite that was accepted, for a holder that knows it to be sound: refusal 1 is judged once for
// many lines.
pub fn reply_unchecked(suite: &mut Suite, line: &[u8]) -> Reply
    ensures { reply_in result suite.new ≡ answer_of (accepted suite.old) line.now }
{
    commands::carry_out(suite, text::parse(line))
}

// The same whether a suite was accepted or not: until one is, nothing stands.
pub fn answer_unchecked(standing: &mut Option<Suite>, line: &[u8]) -> Reply
    ensures { answer_in result standing.new ≡ answer_of (standing_in standing.old) line.now }
{
    if let Some(suite) = standing {
        return reply_unchecked(suite, line);
    }
    match text::ballots(line) {
        Some(asked) => creation::begin(standing, asked),
        None => reply::no(Refusal::NotUnderstood),
    }
}
