// What the bench gets: the new image and the four numbers of the answer, or a refusal's number alone.
ghost use Rattle.std.specs.Prelude.{◌≡◌, ℕ, List, [], ◌∷◌, ◌++◌, ◌≤◌, length, drop};
ghost use Rattle.suite.specs.Outcome.{reading_values};
ghost use Rattle.image.specs.Layout.{image_of};
ghost use Rattle.bench.specs.Bench.{answering, bytes_of, filled};

use member::Reading;
use suite::{Done, Looked, Refusal, Suite};

// Present, version, value, requests; or absent, version, value 0, requests.
pub(crate) fn shown(looked: Looked) -> [u32; 4]
    ensures { result ≡ reading_values looked.reading looked.requests }
{
    let requests = looked.requests;
    match looked.reading {
        Reading::Entry { version, value } => [1, version, value, requests],
        Reading::Gap { version } => [0, version, 0, requests],
    }
}

// After a call that changes nothing, the image as it was, copied: it is byte for byte the one that would be written.
pub(crate) fn kept(image: &[u8], numbers: [u32; 4], out: &mut [u8]) -> Result<[u32; 4], Refusal>
    ensures { (answer : List ℕ) → answering result out.new answer ≡ filled numbers image.now out.old answer }
{
    image::fill(image, out)?;
    Ok(numbers)
}

// The image of a changed suite, written.
pub(crate) fn written(suite: &Suite, done: Done, out: &mut [u8]) -> Result<[u32; 4], Refusal>
    ensures { (answer : List ℕ) → answering result out.new answer
        ≡ filled (done.version ∷ done.requests ∷ 0 ∷ 0 ∷ []) (image_of suite.now) out.old answer }
{
    image::write_unchecked(suite, out)?;
    Ok([done.version, done.requests, 0, 0])
}

// The four numbers into the first 16 bytes, each most significant byte first.
pub(crate) fn put_numbers(answer: &mut [u8], numbers: [u32; 4])
    requires { 16 ≤ length answer.old }
    ensures { answer.new ≡ bytes_of numbers ++ drop 16 answer.old }
{
    for (i, number) in numbers.iter().enumerate() {
        answer[4 * i..4 * i + 4].copy_from_slice(&number.to_be_bytes());
    }
}
