// Creation takes R, W and a list of votes, one for each member; all members start fresh. And the suite that tiles' memory holds.
ghost use Rattle.std.specs.Prelude.{◌≡◌, ◌≤◌, length};
ghost use Rattle.suite.specs.Sets.{all};
ghost use Rattle.suite.specs.Suite.{small_vote};
ghost use Rattle.suite.specs.Cells.{suite_in};
ghost use Rattle.suite.specs.Create.{blank, padded, create_of, created_of};

use crate::{Frame, Refusal, Suite};
use member::Member;

// Is no vote over 15?
fn votes_fit(votes: &[u32]) -> bool
    ensures { result ≡ all small_vote votes.now }
{
    votes.iter().all(|vote| *vote <= Suite::LARGEST_VOTE)
}

// The votes in the lowest places, zero in the others.
fn placed(votes: &[u32]) -> [u32; 8]
    requires { length votes.now ≤ 8 }
    ensures { result ≡ padded votes.now }
{
    let mut places = [0; 8];
    places[..votes.len()].copy_from_slice(votes);
    places
}

impl Suite {
    // A suite of no members, which is not sound.
    pub fn blank() -> Suite
        ensures { result ≡ blank }
    {
        Suite {
            members: [Member::fresh(); 8],
            votes: [0; 8],
            read: 0,
            write: 0,
            count: 0,
        }
    }

    // The suite that eight tiles' memory holds, whatever stands there, with the votes, R, W and the count beside it.
    pub fn of(frame: Frame, lent: &[[u32; 130]; 8]) -> Suite
        ensures { result ≡ suite_in frame lent.now }
    {
        let mut members = [Member::fresh(); 8];
        for (i, member) in members.iter_mut().enumerate() {
            *member = Member::of(&lent[i]);
        }
        let Frame {
            votes,
            read,
            write,
            count,
        } = frame;
        Suite {
            members,
            votes,
            read,
            write,
            count,
        }
    }

    // Refusals 2, 3 and 4, or the fresh suite.
    #[tactic(auto, unfolding(crate::specs::Create::create_of, crate::specs::Create::fresh_suite))]
    pub fn create(read: u32, write: u32, votes: &[u32]) -> Result<Suite, Refusal>
        ensures { created_of result ≡ create_of read write votes.now }
    {
        let n = votes.len();
        if n == 0 || Suite::LARGEST < n {
            return Err(Refusal::Members);
        }
        if !votes_fit(votes) {
            return Err(Refusal::Vote);
        }
        let suite = Suite {
            votes: placed(votes),
            read,
            write,
            count: n,
            ..Suite::blank()
        };
        if !suite.quorum_holds() {
            return Err(Refusal::Quorum);
        }
        Ok(suite)
    }
}
