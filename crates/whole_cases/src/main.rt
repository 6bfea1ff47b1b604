// Runs the course program's library on worked cases; what it prints is compared.
#![tactic(auto)]

use lines::cases::{AT_ONCE, FULL, LIMITS, SHUT_MALFORMED, SOONER, THREE};
use lines::replies::show;
use std::{fs, io};
use whole_answers::answer;

// A link that opens shut, so that its calls are not made.
const SHUT: &[u8] = b"1\nP 256\n1\nS 1 10 2 5\n1\nT 1\n";

// Offers for mat 0, of no bytes, of too many bytes, for a mat with no channel, of a packet that is too long for its channel.
const OFFERS: &[u8] = b"1\nP 4\n1\nS 1 10 2 20\n5\nO 0 32\nO 1 0\nO 1 8161\nO 3 32\nO 1 65\n";
// A spaced channel takes one packet in 10 slots, a bucket of 2 takes two at once; a refused offer is no packet. No ticks pass no slot.
const STEPS: &[u8] =
    b"1\nP 4\n2\nS 1 10 2 20\nB 2 20 3 2 40\n11\nO 1 64\nO 1 32\nO 2 96\nO 2 96\nO 2 1\nT 0\nT 9\nO 1 33\nT 1\nO 1 33\nT 2\n";
// Releases of mat 0 and of a mat with no channel; a released mat takes no packet and no second release, and its packet is still sent.
const RELEASES: &[u8] =
    b"1\nP 4\n1\nS 1 10 2 20\n8\nR 0\nR 3\nO 1 64\nR 1\nR 1\nO 1 64\nT 3\nR 1\n";
// Bulk of no bytes and of too many; one waits at a time, also while another is on the air, and it begins only in a quiet slot.
const BULK: &[u8] =
    b"1\nP 4\n1\nS 1 10 2 20\n9\nK 0\nK 129\nK 128\nK 1\nO 1 64\nT 3\nK 1\nK 1\nT 4\n";
// The end of the clock: the tick after it is refused, and the rest of its ticks are dropped.
const CLOCK_END: &[u8] = b"1\nP 1\n0\n2\nT 2000000000\nT 5\n";

fn main(rt: HostRuntime) -> io::Result<()> {
    let mut output = io::writer(&rt);
    for text in [THREE, SOONER, AT_ONCE, FULL, LIMITS, SHUT, SHUT_MALFORMED] {
        show(&mut output, text, |text| answer(rt.alloc(), text))?;
    }
    for text in [OFFERS, STEPS, RELEASES, BULK, CLOCK_END] {
        show(&mut output, text, |text| answer(rt.alloc(), text))?;
    }
    // in the last, 256 packets wait, and one more is refused
    for name in ["track-meet.plan", "trail-course.plan", "full-list.plan"] {
        let text = fs::read(&rt, name)?;
        show(&mut output, &text, |text| answer(rt.alloc(), text))?;
    }
    Ok(())
}
