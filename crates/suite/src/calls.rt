// The five calls on any suite: refusal 1 for one that isn't sound, and otherwise the call.
#![tactic(auto, unfolding(crate::specs::Calls::call_of))]

ghost use Rattle.std.specs.Prelude.{◌≡◌};
ghost use Rattle.suite.specs.Outcome.{looked_of, near_of};
ghost use Rattle.suite.specs.Calls.{call_of, result_of, lookup, insert, update, remove, neighbours};

use crate::{Done, Looked, Near, Refusal, Suite};

impl Suite {
    pub fn lookup(&self, set: u32, name: u32) -> Result<Looked, Refusal>
        ensures { looked_of result ≡ (call_of self.now (lookup set name)).outcome }
    {
        self.must_be_sound()?;
        self.lookup_unchecked(set, name)
    }

    pub fn neighbours(&self, set: u32, name: u32) -> Result<Near, Refusal>
        ensures { near_of result ≡ (call_of self.now (neighbours set name)).outcome }
    {
        self.must_be_sound()?;
        self.neighbours_unchecked(set, name)
    }

    pub fn insert(&mut self, read: u32, write: u32, name: u32, value: u32) -> Result<Done, Refusal>
        ensures { result_of result self.new ≡ call_of self.old (insert read write name value) }
    {
        self.must_be_sound()?;
        self.insert_unchecked(read, write, name, value)
    }

    pub fn update(&mut self, read: u32, write: u32, name: u32, value: u32) -> Result<Done, Refusal>
        ensures { result_of result self.new ≡ call_of self.old (update read write name value) }
    {
        self.must_be_sound()?;
        self.update_unchecked(read, write, name, value)
    }

    pub fn remove(&mut self, read: u32, write: u32, name: u32) -> Result<Done, Refusal>
        ensures { result_of result self.new ≡ call_of self.old (remove read write name) }
    {
        self.must_be_sound()?;
        self.remove_unchecked(read, write, name)
    }
}
