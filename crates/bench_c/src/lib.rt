// The bench call for C: the static library over crate `bench`, with its one function under the name and in the order that
// hosts/c/directory.h has. A crate is a library for other crates or a static library, and not both.
#![tactic(auto)]

ghost use Rattle.std.specs.Prelude.{◌≡◌};
ghost use Rattle.bench.specs.Bench.{stepped, bench_of};

// `bench::directory_step`, its answer as C takes it: 0, or the number of the refusal.
#[unsafe(no_mangle)]
pub extern "C" fn directory_step(
    operation: u32,
    read: u32,
    write: u32,
    name: u32,
    value: u32,
    image: &[u8],
    out: &mut [u8],
    answer: &mut [u8],
) -> u32
    ensures { stepped result out.new answer.new
        ≡ bench_of operation read write name value image.now out.old answer.old }
{
    match bench::directory_step(operation, read, write, name, value, image, out, answer) {
        Ok(()) => 0,
        Err(refusal) => refusal.number(),
    }
}
