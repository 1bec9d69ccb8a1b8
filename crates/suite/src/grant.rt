// The two changes, once the name's presence is settled: refusals 12 and 13, then the members of the write set are written.
ghost use Rattle.std.specs.Prelude.{◌≡◌, ◌<◌, ◌^◌, length};
ghost use Rattle.suite.specs.Suite.{tiles};
ghost use Rattle.suite.specs.Calls.{result_of};
ghost use Rattle.suite.specs.Steps.{put_of, join_of};

use crate::rounds::Survey;
use crate::{Done, Refusal, Suite};
use member::Version;

impl Suite {
    // The name written with the version after the one given.
    #[tactic(auto, unfolding(crate::specs::Steps::granted_of))]
    pub(crate) fn put(
        &mut self,
        read: u32,
        write: u32,
        name: u32,
        version: u32,
        value: u32,
    ) -> Result<Done, Refusal>
        requires { write < 2 ^ length (tiles self.old) }
        ensures { result_of result self.new ≡ put_of self.old read write name version value }
    {
        if Version::LARGEST <= version {
            return Err(Refusal::Version);
        }
        if !self.all_fit(write, |member| member.fits_write(name)) {
            return Err(Refusal::Full);
        }
        let next = version + 1;
        self.change(write, |member| member.put(name, next, value));
        Ok(Done {
            version: next,
            requests: u32::count_ones(read) + u32::count_ones(write),
        })
    }

    // The gap between the neighbours found made one, with a version above all that it replaces.
    #[tactic(auto, unfolding(crate::specs::Steps::granted_of))]
    pub(crate) fn join(
        &mut self,
        read: u32,
        write: u32,
        version: u32,
        found: Survey,
    ) -> Result<Done, Refusal>
        requires { write < 2 ^ length (tiles self.old) }
        ensures { result_of result self.new ≡ join_of self.old read write version found }
    {
        let below = found.below;
        let above = found.above;
        let newest = version.max(found.lower.max(found.upper));
        if Version::LARGEST <= newest {
            return Err(Refusal::Version);
        }
        if !self.all_fit(write, |member| member.fits_coalesce(below.end, above.end)) {
            return Err(Refusal::Full);
        }
        let gap = newest + 1;
        self.change(write, |member| member.join(below, above, gap));
        Ok(Done {
            version: gap,
            requests: 2 * u32::count_ones(read) + u32::count_ones(write),
        })
    }
}
