// What is printed: numbers, the ends of a neighbour query, readings and refusals. A write that fails is the error.
use member::{Name, Reading};
use std::io;
use suite::Refusal;

// A space and the number.
pub(crate) fn show(rt: &impl Print, n: u32) -> io::Result<()> {
    print!(rt; " {n}")
}

// A line that says what the calls below it show.
pub(crate) fn title(rt: &impl Print, text: &str) -> io::Result<()> {
    println!(rt; "# {text}")
}

pub(crate) fn end_line(rt: &impl Print) -> io::Result<()> {
    println!(rt; "")
}

// A name by its end, or LOW or HIGH.
pub(crate) fn show_end(rt: &impl Print, end: u32) -> io::Result<()> {
    if end == 0 {
        print!(rt; " LOW")
    } else {
        if end == Name::HIGH {
            print!(rt; " HIGH")
        } else {
            show(rt, end - 1)
        }
    }
}

pub(crate) fn show_reading(rt: &impl Print, reading: Reading) -> io::Result<()> {
    match reading {
        Reading::Entry { version, value } => print!(rt; " -> at {version} {value}"),
        Reading::Gap { version } => print!(rt; " -> none {version}"),
    }
}

pub(crate) fn show_refusal(rt: &impl Print, refusal: Refusal) -> io::Result<()> {
    print!(rt; " -> no")?;
    show(rt, refusal.number())
}
