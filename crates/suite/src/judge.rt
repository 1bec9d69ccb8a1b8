// A suite's size and what its frame says: refusals 5 to 9 need no member.
ghost use Rattle.std.specs.Prelude.{◌≡◌, ◌≤◌, ◌-◌, ◌^◌, length};
ghost use Rattle.suite.specs.Suite.{tiles, ballots, frame_of};
ghost use Rattle.suite.specs.Outcome.{judged_of};
ghost use Rattle.suite.specs.Calls.{judged};

use crate::{Frame, Refusal, Suite};

impl Suite {
    // The suite without its members.
    pub fn frame(&self) -> Frame
        ensures { result ≡ frame_of self.now }
    {
        Frame {
            votes: self.votes,
            read: self.read,
            write: self.write,
            count: self.count,
        }
    }

    // How many members there are; a count past the last place counts as all places.
    pub fn size(&self) -> usize
        ensures { (result ≡ length (tiles self.now)) × ((result ≡ length (ballots self.now)) × (result ≤ 8)) }
    {
        self.count.min(Suite::LARGEST)
    }

    // The set of all members.
    pub fn everyone(&self) -> u32
        ensures { result ≡ 2 ^ length (tiles self.now) - 1 }
    {
        (1u32 << self.size()) - 1
    }

    // The first of refusals 5 to 9 that applies.
    pub(crate) fn judge(
        &self,
        name: u32,
        value: u32,
        read: u32,
        write: u32,
        needed: u32,
    ) -> Result<(), Refusal>
        ensures { judged_of result ≡ judged (ballots self.now) self.now.read needed name value read write }
    {
        self.frame().judge(name, value, read, write, needed)
    }
}
