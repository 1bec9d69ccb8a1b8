// A suite without its members: the votes, R, W and how many members there are. What a call is refused for before any member is
// asked, refusals 5 to 9, follows from this and the call's own numbers.
ghost use Rattle.std.specs.Prelude.{◌≡◌, ◌&&◌, ◌≤◌, ◌<◌, ◌-◌, ◌^◌, length, drop};
ghost use Rattle.suite.specs.Suite.{ballots_in, quorum, small_vote, no_vote, sound_frame};
ghost use Rattle.suite.specs.Sets.{exists, votes_of, all, total};
ghost use Rattle.suite.specs.Outcome.{judged_of};
ghost use Rattle.suite.specs.Calls.{judged, judged_votes};

use crate::{Frame, Refusal, Suite};
use member::{Name, Value};

impl Frame {
    // How many members there are; a count past the last place counts as all places.
    pub fn size(self) -> usize
        ensures { (result ≡ length (ballots_in self)) × (result ≤ 8) }
    {
        self.count.min(Suite::LARGEST)
    }

    // The set of all members.
    pub fn everyone(self) -> u32
        ensures { result ≡ 2 ^ length (ballots_in self) - 1 }
    {
        (1u32 << self.size()) - 1
    }

    // Does a set name only members that exist?
    fn names_members(self, set: u32) -> bool
        ensures { result ≡ exists (ballots_in self) set }
    {
        set >> self.size() == 0
    }

    // The votes of the members that a set names.
    pub(crate) fn votes_of(self, set: u32) -> u64
        ensures { result ≡ votes_of (ballots_in self) set }
    {
        let n = self.size();
        let mut left = set;
        let mut sum: u64 = 0;
        for vote in &self.votes[..n] {
            if left % 2 == 1 {
                sum += u64::from(*vote);
            }
            left /= 2;
        }
        sum
    }

    // The first of refusals 5 to 9 that applies. A call without a write set has the empty one, for which it needs no votes.
    #[tactic(auto, unfolding(crate::specs::Calls::judged))]
    pub fn judge(
        self,
        name: u32,
        value: u32,
        read: u32,
        write: u32,
        needed: u32,
    ) -> Result<(), Refusal>
        ensures { judged_of result ≡ judged (ballots_in self) self.read needed name value read write }
    {
        if Name::LARGEST < name {
            return Err(Refusal::Name);
        }
        if Value::LARGEST < value {
            return Err(Refusal::Value);
        }
        if !self.names_members(read) || !self.names_members(write) {
            return Err(Refusal::NoMember);
        }
        self.judge_votes(read, write, needed)
    }

    // Refusals 8 and 9, for sets of members that exist.
    #[tactic(auto, unfolding(crate::specs::Calls::judged_votes))]
    fn judge_votes(self, read: u32, write: u32, needed: u32) -> Result<(), Refusal>
        ensures { judged_of result ≡ judged_votes (ballots_in self) self.read needed read write }
    {
        if self.votes_of(read) < u64::from(self.read) {
            return Err(Refusal::ReadVotes);
        }
        if self.votes_of(write) < u64::from(needed) {
            return Err(Refusal::WriteVotes);
        }
        Ok(())
    }

    // 1 ≤ R ≤ V, 1 ≤ W ≤ V, R + W > V
    pub(crate) fn quorum_holds(self) -> bool
        ensures { result ≡ quorum self.read self.write (total (ballots_in self)) }
    {
        let all = self.votes_of(self.everyone());
        let r = u64::from(self.read);
        let w = u64::from(self.write);
        1 <= r && r <= all && 1 <= w && w <= all && all < r + w
    }

    // Is no vote over 15, and are the unused ones zero?
    fn votes_are_sound(self) -> bool
        ensures { result ≡ all small_vote (ballots_in self) && all no_vote (drop self.count self.votes) }
    {
        let n = self.size();
        self.votes[..n]
            .iter()
            .all(|vote| *vote <= Suite::LARGEST_VOTE)
            && self.votes[n..].iter().all(|vote| *vote == 0)
    }

    // Is all of a suite sound but for its members?
    #[tactic(auto, unfolding(crate::specs::Suite::sound_frame))]
    pub fn is_sound(self) -> bool
        ensures { result ≡ sound_frame self }
    {
        0 < self.count
            && self.count <= Suite::LARGEST
            && self.votes_are_sound()
            && self.quorum_holds()
    }
}
