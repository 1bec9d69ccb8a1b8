// The line that is not ended where a chunk ends.
ghost use Rattle.std.specs.Prelude.{◌≡◌, [], ◌++◌, take};
ghost use Rattle.line.specs.Standing.{answer_of};
ghost use Rattle.line.specs.Lent.{standing_in, answer_in};
ghost use Rattle.run.specs.Course.{most_held};
ghost use Rattle.run.specs.Lent.{held_in, session_of};

use crate::Session;
use text::Reply;

impl Session {
    // A line was answered, and nothing of the next is there.
    pub(crate) fn clear(&mut self)
        ensures { self.new ≡ session_of self.old.standing [] }
    {
        self.line = [0; Session::HELD];
        self.held = 0;
    }

    // More of the line; what is past the most that is held is dropped.
    pub(crate) fn hold(&mut self, more: &[u8])
        ensures { self.new ≡ session_of self.old.standing (take most_held (held_in self.old ++ more.now)) }
    {
        let at = self.held.min(Session::HELD);
        let kept = more.len().min(Session::HELD - at);
        self.line[at..].fill(0);
        self.line[at..at + kept].copy_from_slice(&more[..kept]);
        self.held = at + kept;
    }

    // The answer to the held line, which ends after some more bytes. Where nothing is held, these are not copied.
    pub(crate) fn ended(&mut self, rest: &[u8]) -> Reply
        ensures answer { answer_in result self.new.standing ≡ answer_of (standing_in self.old.standing) (held_in self.old ++ rest.now) }
        ensures cleared { self.new ≡ session_of self.new.standing [] }
    {
        let reply = if self.held == 0 {
            line::answer_unchecked(&mut self.standing, rest)
        } else {
            self.hold(rest);
            line::answer_unchecked(&mut self.standing, &self.line[..self.held])
        };
        self.clear();
        reply
    }
}
