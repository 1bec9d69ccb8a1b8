// Asking members, and changing them: one loop for the questions of both rounds, one for whether a change fits, one for every change.
ghost use Rattle.std.specs.Prelude.{◌≡◌, ◌++◌, ◌≤◌, List, ℕ, Bool, take, drop};
ghost use Rattle.member.specs.declared.Member.{Member};
ghost use Rattle.suite.specs.Sets.{chosen, changed, all};
ghost use Rattle.suite.specs.Suite.{tiles, with_tiles};
ghost use Rattle.suite.specs.Calls.{answer_to};
ghost use Rattle.suite.specs.Rows.{row_of, table_of};
ghost use Rattle.suite.specs.Question as question;
ghost use Rattle.suite.specs.Asking.{AnswersAs, ChangesAs};

use crate::Suite;
use crate::table::{around_row, offers_row};
use member::{Member, Side};

// A change made in those of the first `n` members that the set names.
fn change_members<F: Fn(&mut Member)>(members: &mut [Member; 8], n: usize, set: u32, change: F)
    requires count { n ≤ 8 }
    requires callable { F.IsAlwaysCallable change }
    ensures { (effect : Member → Member)
        → ChangesAs F.Fn change effect
        → members.new ≡ changed effect (take n members.old) set ++ drop n members.old }
{
    let mut left = set;
    for member in &mut members[..n] {
        if left % 2 == 1 {
            change(member);
        }
        left /= 2;
    }
}

// A member's answer of round two, as a row.
fn offers(member: &Member, name: u32, below: Side, above: Side) -> [u32; 8]
    ensures { result ≡ row_of (answer_to (question.Offers name below above) member.now) }
{
    let both = member.offers(name, below, above);
    offers_row(both.below, both.above)
}

impl Suite {
    // What `answer` says of each member that the set names, in a table with a row for each; the rows of the others are zeros.
    // `answer` says of a member what `row` says.
    fn ask<F: Fn(&Member) -> [u32; 8]>(&self, set: u32, answer: F) -> [[u32; 8]; 8]
        requires { F.IsAlwaysCallable answer }
        ensures { (row : Member → List ℕ) → AnswersAs F.Fn answer row → result ≡ table_of row (tiles self.now) set }
    {
        let n = self.size();
        let mut table = [[0; 8]; 8];
        let mut left = set;
        for (i, member) in self.members[..n].iter().enumerate() {
            if left % 2 == 1 {
                table[i] = answer(member);
            }
            left /= 2;
        }
        table
    }

    // The answers of round one.
    pub(crate) fn ask_around(&self, set: u32, name: u32) -> [[u32; 8]; 8]
        ensures { result ≡ table_of (λ m. row_of (answer_to (question.Around name) m)) (tiles self.now) set }
    {
        let answer = |member: &Member| -> [u32; 8]
            ensures { result ≡ row_of (answer_to (question.Around name) member.now) }
        { around_row(member.around(name)) };
        self.ask(set, answer)
    }

    // The answers of round two.
    pub(crate) fn ask_offers(&self, set: u32, name: u32, below: Side, above: Side) -> [[u32; 8]; 8]
        ensures { result ≡ table_of (λ m. row_of (answer_to (question.Offers name below above) m)) (tiles self.now) set }
    {
        let answer = |member: &Member| -> [u32; 8]
            ensures { result ≡ row_of (answer_to (question.Offers name below above) member.now) }
        { offers(member, name, below, above) };
        self.ask(set, answer)
    }

    // Whether a change fits each member that the set names. `fits` says of a member what `room` says.
    pub(crate) fn all_fit<F: Fn(&Member) -> bool>(&self, set: u32, fits: F) -> bool
        requires { F.IsAlwaysCallable fits }
        ensures { (room : Member → Bool) → AnswersAs F.Fn fits room → result ≡ all room (chosen (tiles self.now) set) }
    {
        let n = self.size();
        let mut left = set;
        for member in &self.members[..n] {
            if left % 2 == 1 && !fits(member) {
                return false;
            }
            left /= 2;
        }
        true
    }

    // A change made in the members that the set names. `change` does to a member what `effect` does.
    pub(crate) fn change<F: Fn(&mut Member)>(&mut self, set: u32, change: F)
        requires { F.IsAlwaysCallable change }
        ensures { (effect : Member → Member)
            → ChangesAs F.Fn change effect
            → self.new ≡ with_tiles self.old (changed effect (tiles self.old) set) }
    {
        let n = self.size();
        change_members(&mut self.members, n, set, change);
    }
}
