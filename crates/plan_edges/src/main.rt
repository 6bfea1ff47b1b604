// The edges of the plan format: the texts of standard input, and what each is read as.
// A line of input is a name and a text, with \n, \t, \r, \0 and \x for the bytes 10, 9, 13, 0 and 255.
#![tactic(auto)]

use plan::{Fault, read};
use std::alloc::{AllocError, Global};
use std::io;

fn main(rt: HostRuntime) -> io::Result<()> {
    for line in rt.lines(rt.alloc()) {
        let line = line?;
        if let Some((name, shown)) = line.as_str().split_once(": ") {
            let text = unescaped(rt.alloc(), shown)?;
            show(&rt, name, &text)?;
        }
    }
    let mut text = longest_text(rt.alloc())?;
    show(&rt, "16384 bytes", &text)?;
    text.push(b'\n')?;
    show(&rt, "16385 bytes", &text)?;
    let text = vec![in rt.alloc(); b'x'; 16385]?;
    show(&rt, "16385 bytes, malformed from the first", &text)
}

// Prints what a text is read as.
fn show(rt: &HostRuntime, name: &str, text: &[u8]) -> io::Result<()> {
    match read(rt.alloc(), text) {
        Ok(plan) => {
            let longest = plan.longest;
            let channels = plan.channels.len();
            let calls = plan.calls.len();
            println!(rt; "{name}: P {longest}, {channels} channels, {calls} calls")
        }
        Err(Fault::Malformed { section, line }) => println!(rt; "{name}: E {section} {line}"),
        Err(Fault::NoMemory) => println!(rt; "{name}: no memory"),
    }
}

// The bytes that a text of the input stands for. A backslash at its end stands for nothing.
fn unescaped(heap: Global, shown: &str) -> Result<Vec<u8>, AllocError> {
    let mut text = Vec::new(heap);
    let mut bytes = shown.bytes();
    while let Some(b) = bytes.next() {
        let byte = match b {
            b'\\' => bytes.next().map(byte_after_backslash),
            _ => Some(b),
        };
        if let Some(byte) = byte {
            text.push(byte)?;
        }
    }
    Ok(text)
}

fn byte_after_backslash(b: u8) -> u8 {
    match b {
        b'n' => 10,
        b't' => 9,
        b'r' => 13,
        b'0' => 0,
        b'x' => 255,
        _ => b,
    }
}

// A plan of 16,384 bytes whose last line lacks its byte 10.
fn longest_text(heap: Global) -> Result<Vec<u8>, AllocError> {
    let mut text = Vec::from_slice(heap, b"1\nP 5\n0\n4093\n")?;
    for _ in 0..4092 {
        text.extend_from_slice(b"T 1\n")?;
    }
    text.extend_from_slice(b"T 1")?;
    Ok(text)
}
