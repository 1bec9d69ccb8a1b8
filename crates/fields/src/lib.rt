// Bit fields of an image, most significant bit first: reading one, and appending one.
#![tactic(auto)]

ghost use Rattle.std.specs.Prelude.{◌≡◌, ◌+◌, ◌-◌, ◌^◌, ◌≤◌, ◌<◌, length};
ghost use Rattle.fields.specs.Field.{fits_in, read_of, has_word, word_of, append_of, after_of};
ghost use Rattle.fields.specs.Word.{word_at, with_word, part_of, join_of, behind_of};

// The most bits that a field has: with the up to seven bits before it in its first byte it lies within eight bytes.
pub const WIDEST: u32 = 56;

// The field of `width` bits at bit `at`; none where the image ends before the field does.
pub fn read(bytes: &[u8], at: usize, width: u32) -> Option<u64>
    ensures { result ≡ read_of bytes.now at width }
{
    if fits(bytes.len(), at, width) {
        Some(part(word(bytes, at / 8), behind(at, width), width))
    } else {
        None
    }
}

// The same where the eight bytes from the field's first one on are all there, which is so but for the end of the image:
// one test and one load.
pub fn read_word(bytes: &[u8], at: usize, width: u32) -> Option<u64>
    ensures { result ≡ word_of bytes.now at width }
{
    if has_word(bytes.len(), at, width) {
        Some(part(whole_word(bytes, at / 8), behind(at, width), width))
    } else {
        None
    }
}

// Puts the lowest `width` bits of `v` at bit `at`, where the eight bytes from their first one on are all there. The bits
// before them stay, and those behind them become 0 to the end of the eight bytes.
pub fn append(bytes: &mut [u8], at: usize, width: u32, v: u64)
    ensures { bytes.new ≡ append_of bytes.old at width v }
{
    if has_word(bytes.len(), at, width) {
        let before = u64::from(bytes[at / 8]) >> (8 - (at % 8) as u32);
        put_word(bytes, at / 8, join(before, behind(at, width), width, v));
    }
}

// The same where the bits before the field in its first byte are known to be the lowest of `before`: they are put too, and
// nothing is loaded, which would wait for the store before.
pub fn append_after(bytes: &mut [u8], at: usize, before: u64, width: u32, v: u64)
    ensures { bytes.new ≡ after_of bytes.old at before width v }
{
    if has_word(bytes.len(), at, width) {
        let known = part(before, 0, (at % 8) as u32);
        put_word(bytes, at / 8, join(known, behind(at, width), width, v));
    }
}

// Whether a field of `width` bits at bit `at` lies within `len` bytes. It counts bytes, since the bits of a long image may
// be more than a usize holds.
fn fits(len: usize, at: usize, width: u32) -> bool
    ensures { result ≡ fits_in len at width }
{
    width <= WIDEST && at / 8 + (at % 8 + width as usize + 7) / 8 <= len
}

// Whether the eight bytes from the field's first one on lie within `len` bytes.
fn has_word(len: usize, at: usize, width: u32) -> bool
    ensures { result ≡ has_word len at width }
{
    width <= WIDEST && at / 8 + 8 <= len
}

// How many of the 64 bits that start with the field's first byte stand behind the field; none where all of them do.
fn behind(at: usize, width: u32) -> u32
    requires { width ≤ 56 }
    ensures { result ≡ behind_of at width }
{
    (64 - (at % 8) as u32 - width) % 64
}

// The `width` bits of a word that stand above its lowest `after`.
fn part(word: u64, after: u32, width: u32) -> u64
    requires { (after < 64) × (width < 64) }
    ensures { result ≡ part_of word after width }
{
    (word >> after) & ((1u64 << width) - 1)
}

// The word with the lowest `width` bits of `v` above its lowest `after`, which are 0, and `before` above those.
fn join(before: u64, after: u32, width: u32, v: u64) -> u64
    requires { (width ≤ 56) × ((after < 64) × ((width + after ≤ 64) × (before < 2 ^ (64 - after - width)))) }
    ensures { result ≡ join_of before after width v }
{
    ((before << width) + part(v, 0, width)) << after
}

// The eight bytes from byte `first` on as one number, the first the highest; a byte past the end counts as 0.
fn word(bytes: &[u8], first: usize) -> u64
    requires { first ≤ length bytes.now }
    ensures { result ≡ word_at bytes.now first }
{
    if first + 8 <= bytes.len() {
        whole_word(bytes, first)
    } else {
        last_word(bytes, first)
    }
}

// Where all eight are there no byte is tested by itself. Both this and `put_word` become one access to memory.
fn whole_word(bytes: &[u8], first: usize) -> u64
    requires { first + 8 ≤ length bytes.now }
    ensures { result ≡ word_at bytes.now first }
{
    u64::from_be_bytes([
        bytes[first],
        bytes[first + 1],
        bytes[first + 2],
        bytes[first + 3],
        bytes[first + 4],
        bytes[first + 5],
        bytes[first + 6],
        bytes[first + 7],
    ])
}

fn last_word(bytes: &[u8], first: usize) -> u64
    requires { (first ≤ length bytes.now) × (length bytes.now < first + 8) }
    ensures { result ≡ word_at bytes.now first }
{
    let mut eight = [0; 8];
    let rest = &bytes[first..];
    eight[..rest.len()].copy_from_slice(rest);
    u64::from_be_bytes(eight)
}

fn put_word(bytes: &mut [u8], first: usize, word: u64)
    requires { first + 8 ≤ length bytes.old }
    ensures { bytes.new ≡ with_word bytes.old first word }
{
    bytes[first..first + 8].copy_from_slice(&word.to_be_bytes());
}
