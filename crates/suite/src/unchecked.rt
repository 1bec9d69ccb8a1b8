// The calls on a suite that its holder knows to be sound, because it was made by creation, by these calls or by the image
// reader. They judge everything but refusal 1.
ghost use Rattle.std.specs.Prelude.{◌≡◌};
ghost use Rattle.suite.specs.Outcome.{looked_of, near_of};
ghost use Rattle.suite.specs.Calls.{step_of, lookup, insert, update, remove, neighbours, result_of};

use crate::{Done, Looked, Near, Refusal, Suite};
use member::Reading;

impl Suite {
    pub fn lookup_unchecked(&self, set: u32, name: u32) -> Result<Looked, Refusal>
        ensures { looked_of result ≡ (step_of self.now (lookup set name)).outcome }
    {
        self.judge(name, 0, set, 0, 0)?;
        Ok(Looked {
            reading: self.newest(set, name),
            requests: u32::count_ones(set),
        })
    }

    pub fn neighbours_unchecked(&self, set: u32, name: u32) -> Result<Near, Refusal>
        ensures { near_of result ≡ (step_of self.now (neighbours set name)).outcome }
    {
        self.judge(name, 0, set, 0, 0)?;
        let found = self.survey(set, name);
        Ok(Near {
            below: found.below.end,
            above: found.above.end,
            requests: 2 * u32::count_ones(set),
        })
    }

    pub fn insert_unchecked(
        &mut self,
        read: u32,
        write: u32,
        name: u32,
        value: u32,
    ) -> Result<Done, Refusal>
        ensures { result_of result self.new ≡ step_of self.old (insert read write name value) }
    {
        self.judge(name, value, read, write, self.write)?;
        let Reading::Gap { version } = self.newest(read, name) else {
            return Err(Refusal::Present);
        };
        self.put(read, write, name, version, value)
    }

    pub fn update_unchecked(
        &mut self,
        read: u32,
        write: u32,
        name: u32,
        value: u32,
    ) -> Result<Done, Refusal>
        ensures { result_of result self.new ≡ step_of self.old (update read write name value) }
    {
        self.judge(name, value, read, write, self.write)?;
        let Reading::Entry { version, value: _ } = self.newest(read, name) else {
            return Err(Refusal::Absent);
        };
        self.put(read, write, name, version, value)
    }

    pub fn remove_unchecked(&mut self, read: u32, write: u32, name: u32) -> Result<Done, Refusal>
        ensures { result_of result self.new ≡ step_of self.old (remove read write name) }
    {
        self.judge(name, 0, read, write, self.write)?;
        let found = self.survey(read, name);
        let Reading::Entry { version, value: _ } = found.reading else {
            return Err(Refusal::Absent);
        };
        self.join(read, write, version, found)
    }
}
