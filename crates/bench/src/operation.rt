// What a bench call can ask for.
ghost use Rattle.std.specs.Prelude.{◌≡◌, ◌<◌, MatchResult};
ghost use Rattle.bench.specs.Bench.{number_of};

use suite::Refusal;

#[derive(Clone, Copy, PartialEq, Eq, Debug)]
pub enum Operation {
    Lookup,
    Insert,
    Update,
    Remove,
    Neighbours,
}

// By the paper's numbers.
impl TryFrom<u32> for Operation {
    type Error = Refusal;

    fn try_from(number: u32) -> Result<Operation, Refusal>
        ensures { MatchResult result (λ operation. number ≡ number_of operation) (λ refusal. (4 < number) × (refusal ≡ Refusal.NotUnderstood)) }
    {
        match number {
            0 => Ok(Operation::Lookup),
            1 => Ok(Operation::Insert),
            2 => Ok(Operation::Update),
            3 => Ok(Operation::Remove),
            4 => Ok(Operation::Neighbours),
            _ => Err(Refusal::NotUnderstood),
        }
    }
}
