// The suite image: a suite as bytes, written and read back.
#![tactic(auto)]

mod entries;
mod reader;
mod writer;

ghost use Rattle.std.specs.Prelude.{◌≡◌, map, replicate};
ghost use Rattle.member.specs.Tile.{fresh_tile};
ghost use Rattle.image.specs.Layout.{image_of};
ghost use Rattle.image.specs.Writer.{lent_of, fill_of, write_of};
ghost use Rattle.image.specs.Reader.{read_image, load_of, loaded_in};
ghost use Rattle.image.specs.Steps.{ended_of};

use suite::{Refusal, Suite};

// The longest image, in bytes.
pub const LONGEST: usize = 2725;

const EDITION: u32 = 1;
// How many bits a name has.
const NAME: u32 = 20;

// Writes the image of a suite to the start of the lent bytes, and answers how many bytes it has.
#[tactic(auto, unfolding(crate::specs::Writer::write_of))]
pub fn write(suite: &Suite, out: &mut [u8]) -> Result<usize, Refusal>
    ensures { lent_of result out.new ≡ write_of suite.now out.old }
{
    suite.must_be_sound()?;
    write_unchecked(suite, out)
}

// Writes the image of a suite that is known to be sound: of any other, the lowest bits of what does not fit its field.
pub fn write_unchecked(suite: &Suite, out: &mut [u8]) -> Result<usize, Refusal>
    ensures { lent_of result out.new ≡ fill_of (image_of suite.now) out.old }
{
    // A field is put with the bytes that follow it, up to eight at a time.
    let mut image = [0; LONGEST + 8];
    let bits = writer::put_suite(&mut image, suite);
    fill(&image[..bits.div_ceil(8)], out)
}

// Puts an image to the start of the lent bytes, and answers how many bytes it has.
pub fn fill(image: &[u8], out: &mut [u8]) -> Result<usize, Refusal>
    ensures { lent_of result out.new ≡ fill_of image.now out.old }
{
    if out.len() < image.len() {
        return Err(Refusal::Buffer);
    }
    writer::copy(image, out);
    Ok(image.len())
}

// Loads the suite that an image holds in place of the one handed in, or gives the refusal and leaves that one as it was. It reads
// into the suite itself and puts back what that held where the image is refused: a caller that does not look at it then pays for no copy.
pub fn read(bytes: &[u8], suite: &mut Suite) -> Result<(), Refusal>
    ensures { loaded_in result suite.new ≡ load_of bytes.now suite.old }
{
    let saved = *suite;
    *suite = Suite::blank();
    if let Err(refusal) = load(bytes, suite) {
        *suite = saved;
        return Err(refusal);
    }
    Ok(())
}

// Reads an image into a suite whose members are fresh; where the image is refused, part of it stands there.
fn load(bytes: &[u8], suite: &mut Suite) -> Result<(), Refusal>
    requires { suite.old.members ≡ replicate 8 fresh_tile }
    ensures { ended_of result suite.new ≡ read_image bytes.now }
{
    let end = reader::read_suite(bytes, suite)?;
    if reader::only_padding(bytes, end) {
        Ok(())
    } else {
        Err(Refusal::Padding)
    }
}
