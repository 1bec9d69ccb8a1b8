// The text of an answer: its size, and the text itself, written from its end to its front, since a number gives its last digit first.
ghost use Rattle.std.specs.Prelude.{◌≡◌, ◌++◌, ◌+◌, ◌≤◌, length, take, drop};
ghost use Rattle.text.specs.Words.{ascii};
ghost use Rattle.text.specs.Answer.{decimal, end_of, text_of, Written};

use crate::Reply;

// Puts a word in front of `at`, and answers where it begins.
fn prepend(text: &mut [u8], at: usize, word: &[u8]) -> usize
    requires { (length word.now ≤ at) × (at ≤ length text.old) }
    ensures { Written text.old at text.new result word.now }
{
    let from = at - word.len();
    text[from..at].copy_from_slice(word);
    from
}

// Puts a number in front of `at`, and answers where it begins.
fn number(text: &mut [u8], at: usize, n: u32) -> usize
    requires { (length (decimal n) ≤ at) × (at ≤ length text.old) }
    ensures { Written text.old at text.new result (decimal n) }
{
    let mut from = at - 1;
    let mut left = n;
    while 10 <= left {
        text[from] = (left % 10) as u8 + b'0';
        left /= 10;
        from -= 1;
    }
    text[from] = left as u8 + b'0';
    from
}

// Puts an end of a gap in front of `at`.
fn end(text: &mut [u8], at: usize, e: u32) -> usize
    requires { (length (end_of e) ≤ at) × (at ≤ length text.old) }
    ensures { Written text.old at text.new result (end_of e) }
{
    if e == 0 {
        return prepend(text, at, b"LOW");
    }
    if e == Reply::HIGH {
        return prepend(text, at, b"HIGH");
    }
    number(text, at, e - 1)
}

// A word and a number.
fn one(text: &mut [u8], at: usize, word: &[u8], n: u32) -> usize
    requires { (length word.now + length (decimal n) ≤ at) × (at ≤ length text.old) }
    ensures { Written text.old at text.new result (word.now ++ decimal n) }
{
    let from = number(text, at, n);
    prepend(text, from, word)
}

// A word, a number, a space and a number.
fn two(text: &mut [u8], at: usize, word: &[u8], n: u32, m: u32) -> usize
    requires { (length word.now + length (decimal n) + 1 + length (decimal m) ≤ at) × (at ≤ length text.old) }
    ensures { Written text.old at text.new result (word.now ++ (decimal n ++ (ascii " " ++ decimal m))) }
{
    let last = number(text, at, m);
    let space = prepend(text, last, b" ");
    one(text, space, word, n)
}

// Two ends and a number.
fn near(text: &mut [u8], at: usize, below: u32, above: u32, n: u32) -> usize
    requires { (length (end_of below) + 1 + length (end_of above) + 1 + length (decimal n) ≤ at) × (at ≤ length text.old) }
    ensures { Written text.old at text.new result (end_of below ++ (ascii " " ++ (end_of above ++ (ascii " " ++ decimal n)))) }
{
    let last = number(text, at, n);
    let second = prepend(text, last, b" ");
    let high = end(text, second, above);
    let first = prepend(text, high, b" ");
    end(text, first, below)
}

// Puts an answer and its newline in front of `at`.
pub(crate) fn line(text: &mut [u8], at: usize, reply: Reply) -> usize
    requires { (length (text_of reply) ≤ at) × (at ≤ length text.old) }
    ensures { Written text.old at text.new result (text_of reply) }
{
    let end = prepend(text, at, b"\n");
    match reply {
        Reply::SuiteOk => prepend(text, end, b"suite ok"),
        Reply::Ok { version } => one(text, end, b"ok ", version),
        Reply::Removed { version, requests } => two(text, end, b"ok ", version, requests),
        Reply::At { version, value } => two(text, end, b"at ", version, value),
        Reply::Absent { version } => one(text, end, b"none ", version),
        Reply::Near {
            below,
            above,
            requests,
        } => near(text, end, below, above, requests),
        Reply::Refused { number } => one(text, end, b"no ", number),
    }
}

// How many digits a number has. Few tests decide, where a match on ten ranges would try one after another.
fn digits(n: u32) -> usize
    ensures { (result ≡ length (decimal n)) × (result ≤ 10) }
{
    if n < 1_000 {
        if n < 10 {
            return 1;
        }
        if n < 100 {
            return 2;
        }
        return 3;
    }
    if n < 1_000_000 {
        if n < 10_000 {
            return 4;
        }
        if n < 100_000 {
            return 5;
        }
        return 6;
    }
    if n < 10_000_000 {
        return 7;
    }
    if n < 100_000_000 {
        return 8;
    }
    if n < 1_000_000_000 {
        return 9;
    }
    10
}

// How many bytes an end of a gap has.
fn end_size(end: u32) -> usize
    ensures { (result ≡ length (end_of end)) × (result ≤ 10) }
{
    if end == 0 {
        return 3;
    }
    if end == Reply::HIGH {
        return 4;
    }
    digits(end - 1)
}

// How many bytes an answer has, with its spaces and its newline.
pub(crate) fn size(reply: Reply) -> usize
    ensures { result ≡ length (text_of reply) }
{
    match reply {
        Reply::SuiteOk => 9,
        Reply::Ok { version } => digits(version) + 4,
        Reply::Removed { version, requests } => digits(version) + digits(requests) + 5,
        Reply::At { version, value } => digits(version) + digits(value) + 5,
        Reply::Absent { version } => digits(version) + 6,
        Reply::Near {
            below,
            above,
            requests,
        } => end_size(below) + end_size(above) + digits(requests) + 3,
        Reply::Refused { number } => digits(number) + 4,
    }
}
