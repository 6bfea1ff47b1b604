// Runs the course program's library on worked cases; what it prints is compared.
#![tactic(auto)]

use answers::answer;
use lines::cases::{AT_ONCE, FULL, LIMITS, SHUT_MALFORMED, SOONER, THREE};
use lines::replies::show;
use std::{fs, io};

// A link that opens shut.
const SHUT: &[u8] = b"1\nP 256\n1\nS 1 10 2 5\n0\n";

fn main(rt: HostRuntime) -> io::Result<()> {
    let mut output = io::writer(&rt);
    for text in [THREE, SOONER, AT_ONCE, FULL, LIMITS, SHUT, SHUT_MALFORMED] {
        show(&mut output, text, |text| answer(rt.alloc(), text))?;
    }
    for name in ["track-meet.plan", "trail-course.plan"] {
        let text = fs::read(&rt, name)?;
        show(&mut output, &text, |text| answer(rt.alloc(), text))?;
    }
    Ok(())
}
