// Cases of the sender: an idle link, and a busy one.
use crate::kinds::{Kind, row};
use link::state::{Link, Packet, Sent};
use std::{fmt, io};

// What some slots carried: pieces of the mats, pieces of the files, and ends.
#[derive(Clone, Copy, Default)]
struct Carried {
    mats: u32,
    files: u32,
    ends: u32,
}

impl Carried {
    // The piece of one slot more.
    fn add(&mut self, sent: Sent) {
        if sent.mat == 0 {
            self.files = self.files.wrapping_add(1);
        } else {
            self.mats = self.mats.wrapping_add(1);
        }
        self.ends = self.ends.wrapping_add(u32::from(sent.ended));
    }
}

impl fmt::Display for Carried {
    fn fmt<W: fmt::Write>(&self, f: &mut fmt::Formatter<W>) -> fmt::Result {
        let Carried { mats, files, ends } = *self;
        write!(f, "{mats} slots of mats, {files} of files, {ends} packets")
    }
}

// So many slots pass.
fn pass(link: &mut Link<'_, Kind>, slots: u32, all: &mut Carried) {
    for _ in 0..slots {
        if let Ok(Some(sent)) = link.tick() {
            all.add(sent);
        }
    }
}

// A link on which nothing is sent.
pub fn idle(rt: &HostRuntime, slots: u32) -> io::Result<()> {
    let mut rows = [row(Kind::spaced(1, 1, 1)); 32];
    let mut places = [Packet::default(); 256];
    let mut link = Link::open(0, 8, &mut rows, &mut places);
    let mut all = Carried::default();
    pass(&mut link, slots, &mut all);
    println!(rt; "idle: clock {}, {all}", link.clock())
}

// Each of 32 mats offers 8 packets of one slot, so that the waiting list is full.
fn offer_all(link: &mut Link<'_, Kind>) {
    for mat in 1..33u8 {
        for _ in 0..8 {
            let _ = link.offer(mat, 0, 32);
        }
    }
}

// 320 slots: the packets of 32 mats, and files of 8 slots whenever there is room.
fn busy_round(link: &mut Link<'_, Kind>, all: &mut Carried) {
    offer_all(link);
    for _ in 0..40 {
        let _ = link.bulk(0, 256);
        pass(link, 8, all);
    }
}

// A link with 32 live mats that send as much as they may; the later a mat joined, the sooner its packets are due.
pub fn busy(rt: &HostRuntime, rounds: u32) -> io::Result<()> {
    let mut rows = [row(Kind::spaced(1, 1, 1)); 32];
    let mut places = [Packet::default(); 256];
    let mut link = Link::open(0, 8, &mut rows, &mut places);
    for mat in 1..33u8 {
        let _ = link.join(mat, Kind::bucket(40, 1, 8, 700 - 10 * u32::from(mat)));
    }
    let mut all = Carried::default();
    for _ in 0..rounds {
        busy_round(&mut link, &mut all);
    }
    println!(rt; "busy: clock {}, {all}", link.clock())
}
