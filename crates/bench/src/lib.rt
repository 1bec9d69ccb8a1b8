// The bench call: one call on the suite, over the bytes that the simulation bench lends.
#![tactic(auto)]

mod answer;
mod call;
mod operation;

ghost use Rattle.std.specs.Prelude.{◌≡◌};
ghost use Rattle.bench.specs.Bench.{status_of, stepped, bench_of};

use call::Arguments;
pub use operation::Operation;
use suite::Refusal;

// `image` is image in and `out` image out. Each refusal leaves `out` and `answer` as they were.
pub fn directory_step(
    operation: u32,
    read: u32,
    write: u32,
    name: u32,
    value: u32,
    image: &[u8],
    out: &mut [u8],
    answer: &mut [u8],
) -> Result<(), Refusal>
    ensures { stepped (status_of result) out.new answer.new
        ≡ bench_of operation read write name value image.now out.old answer.old }
{
    let operation = Operation::try_from(operation)?;
    let arguments = Arguments {
        read,
        write,
        name,
        value,
    };
    call::carry_out(operation, arguments, image, out, answer)
}
