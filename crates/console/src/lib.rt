// The line program over standard input and standard output. It only moves bytes: what is answered is settled in crate `run`.
#![tactic(auto)]

ghost use Rattle.std.specs.Prelude.{◌≤◌, length};

use run::Session;
use std::io;
use std::io::{Input, Print, Read, Write};

// How much is read at a time, and for how many times: the first 16,777,216 bytes of input and no more.
const CHUNK: usize = 65_536;

const CHUNKS: usize = 256;

// Reads until `text` is full, the input ends or a read fails, which counts as the end of the input. Says how many bytes of
// `text` were read.
fn fill<R: Read>(from: &mut R, text: &mut [u8]) -> usize
    ensures within { result ≤ length text.new }
{
    let mut done = 0;
    while done < text.len() {
        match from.read(&mut text[done..]) {
            Ok(0) | Err(_) => break,
            Ok(got) => done += got,
        }
    }
    done
}

// Answers a whole chunk, as many answers at a time as the output has room for. A write that fails is the error. A chunk that is refused
// is left.
fn answer<W: Write>(
    to: &mut W,
    session: &mut Session,
    text: &[u8],
    out: &mut [u8],
) -> io::Result<()> {
    let mut rest = text;
    while !rest.is_empty() {
        let Ok(ran) = run::run(session, rest, out) else {
            return Ok(());
        };
        to.write_all(&out[..ran.written])?;
        rest = &rest[ran.taken..];
    }
    Ok(())
}

// Reads standard input to its end, or to the most that is read of it, and answers each line on standard output. A read that
// fails counts as the end of the input; a write that fails ends the program at once, and is the error.
pub fn console<R: Input + Print>(rt: &R) -> io::Result<()> {
    let mut from = rt.reader();
    let mut to = io::writer(rt);
    let mut text = [0u8; CHUNK];
    let mut out = [0u8; CHUNK];
    let mut session = Session::start();
    for _ in 0..CHUNKS {
        let got = fill(&mut from, &mut text);
        answer(&mut to, &mut session, &text[..got], &mut out)?;
        if got < CHUNK {
            break;
        }
    }
    if let Ok(ran) = run::finish(&mut session, &mut out) {
        to.write_all(&out[..ran.written])?;
    }
    Ok(())
}
