// Going along a line, word by word. A place is where a word begins; the place behind the last word is one past the line's end.
ghost use Rattle.std.specs.Prelude.{◌≡◌, ◌≤◌, length, drop};
ghost use Rattle.std.specs.List.{prefix_len};
ghost use Rattle.text.specs.Line.{with_number, with_nothing};
ghost use Rattle.text.specs.Scan.{is_letter, ends_at, dash_at, words_from, number_on, number_at, set_at};

use crate::Members;

// What the word at a place writes, a number or a set, and where the word ends.
#[derive(Clone, Copy)]
pub(crate) struct Found<T> {
    pub(crate) it: T,
    pub(crate) end: usize,
}

// How many letters the line begins with.
pub(crate) fn letters(line: &[u8]) -> usize
    ensures { result ≡ prefix_len is_letter line.now }
{
    line.iter().take_while(|b| is_letter(**b)).count()
}

fn is_letter(b: u8) -> bool
    ensures { result ≡ is_letter b }
{
    matches!(b, b'a'..=b'z')
}

// Whether a word ends at `at`: the line does, or a space is there.
fn ends_at(line: &[u8], at: usize) -> bool
    ensures { result ≡ ends_at line.now at }
{
    line.len() <= at || line[at] == b' '
}

// Whether the word at `at` is `-`.
fn dash_at(line: &[u8], at: usize) -> bool
    ensures { result ≡ dash_at line.now at }
{
    at < line.len() && line[at] == b'-' && ends_at(line, at + 1)
}

// The set at a place.
pub(crate) fn set_at(line: &[u8], at: usize) -> Option<Found<Members>>
    ensures { result ≡ set_at line.now at }
{
    if dash_at(line, at) {
        return Some(Found {
            it: Members::Everyone,
            end: at + 1,
        });
    }
    let number = number_at(line, at)?;
    Some(Found {
        it: Members::Only(number.it),
        end: number.end,
    })
}

// The number at a place. A zero stands alone.
pub(crate) fn number_at(line: &[u8], at: usize) -> Option<Found<u32>>
    ensures { result ≡ number_at line.now at }
{
    let b = *line.get(at)?;
    match b {
        b'1'..=b'9' => digits(line, at + 1, u32::from(b - b'0')),
        b'0' => {
            if ends_at(line, at + 1) {
                Some(Found { it: 0, end: at + 1 })
            } else {
                None
            }
        }
        _ => None,
    }
}

// The number at a place, where the line ends with it.
pub(crate) fn last_number_at(line: &[u8], at: usize) -> Option<u32>
    ensures { result ≡ with_number (words_from line.now at) (λ n ws. with_nothing ws n) }
{
    let number = number_at(line, at)?;
    if number.end < line.len() {
        return None;
    }
    Some(number.it)
}

// The number whose digits go on at `at`, after digits that come to `value`; none where it does not fit.
fn digits(line: &[u8], at: usize, value: u32) -> Option<Found<u32>>
    requires { at ≤ length line.now }
    ensures { result ≡ number_on value at (drop at line.now) }
{
    let mut value = value;
    for i in at..line.len() {
        let b = line[i];
        match b {
            b'0'..=b'9' => {
                value = value.checked_mul(10)?.checked_add(u32::from(b - b'0'))?;
            }
            b' ' => {
                return Some(Found { it: value, end: i });
            }
            _ => return None,
        }
    }
    Some(Found {
        it: value,
        end: line.len(),
    })
}
