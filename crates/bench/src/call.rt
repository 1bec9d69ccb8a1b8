// A call on the suite that the image holds.
ghost use Rattle.std.specs.Prelude.{◌≡◌, ℕ, List, []};
ghost use Rattle.suite.specs.Outcome.{answered};
ghost use Rattle.image.specs.Layout.{image_of};
ghost use Rattle.bench.specs.Bench.{status_of, stepped, answering, number_of, call_for, carried, bench_of};

use crate::Operation;
use crate::answer::{kept, put_numbers, shown, written};
use suite::{Near, Refusal, Suite};

// Both sets, the name and the value. Those that an operation lacks are ignored.
#[derive(Clone, Copy)]
pub struct Arguments {
    pub read: u32,
    pub write: u32,
    pub name: u32,
    pub value: u32,
}

// The refusals after 14 in the paper's order, and else the call.
pub(crate) fn carry_out(
    operation: Operation,
    arguments: Arguments,
    image: &[u8],
    out: &mut [u8],
    answer: &mut [u8],
) -> Result<(), Refusal>
    ensures { stepped (status_of result) out.new answer.new
        ≡ bench_of (number_of operation) arguments.read arguments.write arguments.name arguments.value image.now out.old answer.old }
{
    if answer.len() < 16 {
        return Err(Refusal::Buffer);
    }
    let mut suite = Suite::blank();
    image::read(image, &mut suite)?;
    let numbers = call(&mut suite, operation, arguments, image, out)?;
    put_numbers(answer, numbers);
    Ok(())
}

// The call on the suite that was read: image out is written, and the answer's numbers go back. A lookup and a neighbour query
// leave the image as it is.
fn call(
    suite: &mut Suite,
    operation: Operation,
    arguments: Arguments,
    image: &[u8],
    out: &mut [u8],
) -> Result<[u32; 4], Refusal>
    requires { image.now ≡ image_of suite.old }
    ensures { (answer : List ℕ) → answering result out.new answer
        ≡ carried (answered []) suite.old (call_for (number_of operation) arguments.read arguments.write arguments.name arguments.value) out.old answer }
{
    let Arguments {
        read,
        write,
        name,
        value,
    } = arguments;
    match operation {
        Operation::Lookup => {
            let looked = suite.lookup_unchecked(read, name)?;
            kept(image, shown(looked), out)
        }
        Operation::Insert => {
            let done = suite.insert_unchecked(read, write, name, value)?;
            written(suite, done, out)
        }
        Operation::Update => {
            let done = suite.update_unchecked(read, write, name, value)?;
            written(suite, done, out)
        }
        Operation::Remove => {
            let done = suite.remove_unchecked(read, write, name)?;
            written(suite, done, out)
        }
        // Ends are numbered as the answer wants them: LOW 0, a name plus 1, HIGH.
        Operation::Neighbours => {
            let Near {
                below,
                above,
                requests,
            } = suite.neighbours_unchecked(read, name)?;
            kept(image, [below, above, requests, 0], out)
        }
    }
}
