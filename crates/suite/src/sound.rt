// Is a suite sound?
ghost use Rattle.std.specs.Prelude.{◌≡◌, ◌&&◌, cond, drop};
ghost use Rattle.suite.specs.Sets.{all, total};
ghost use Rattle.suite.specs.Suite.{tiles, ballots, quorum, is_fresh, sound_suite};
ghost use Rattle.suite.specs.Outcome.{judged_of};
ghost use Rattle.member.specs.Sound.{sound_member};

use crate::{Refusal, Suite};
use member::Member;

// An unused place holds zero, which is a fresh member.
fn is_fresh(m: &Member) -> bool
    ensures { result ≡ is_fresh m.now }
{
    m.is_sound() && m.used() == 0 && m.lowest_gap() == 0
}

impl Suite {
    // 1 ≤ R ≤ V, 1 ≤ W ≤ V, R + W > V
    pub(crate) fn quorum_holds(&self) -> bool
        ensures { result ≡ quorum self.now.read self.now.write (total (ballots self.now)) }
    {
        self.frame().quorum_holds()
    }

    // Is every member sound, and every unused one fresh?
    fn members_are_sound(&self) -> bool
        ensures { result ≡ all sound_member (tiles self.now) && all is_fresh (drop self.now.count self.now.members) }
    {
        let n = self.size();
        self.members[..n].iter().all(|m| m.is_sound()) && self.members[n..].iter().all(is_fresh)
    }

    #[tactic(auto, unfolding(crate::specs::Suite::sound_suite, crate::specs::Suite::sound_frame))]
    pub fn is_sound(&self) -> bool
        ensures { result ≡ sound_suite self.now }
    {
        self.frame().is_sound() && self.members_are_sound()
    }

    // Refusal 1, which a call on any suite, as the writer of its image, judges first.
    pub fn must_be_sound(&self) -> Result<(), Refusal>
        ensures { judged_of result ≡ cond (sound_suite self.now) 0 1 }
    {
        if self.is_sound() {
            Ok(())
        } else {
            Err(Refusal::Unsound)
        }
    }
}
