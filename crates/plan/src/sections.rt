// The sections of a plan: a count on a line of its own, and then as many entries.
ghost use Rattle.std.specs.Prelude.{◌≡◌};
ghost use Rattle.plan.specs.Steps.{NextCount, NextEntry, Sectioned};
ghost use Rattle.plan.specs.declared.Fault.TheVariants.{Malformed};

use crate::Fault;
use crate::cursor::Lines;
use crate::entries::{Entry, parse};
use crate::fields::number;
use std::alloc::Global;

// Reads the lines that are left, as those of a section.
#[derive(Drop)]
pub(crate) struct Reader<'a> {
    pub(crate) heap: Global,
    pub(crate) lines: Lines<'a>,
    pub(crate) section: u32,
}

impl Reader<'_> {
    // The fault at a line of the section, which counts its entries from 1.
    pub(crate) fn malformed(&self, line: u32) -> Fault
        ensures { result ≡ Malformed self.now.section line }
    {
        Fault::Malformed {
            section: self.section,
            line,
        }
    }

    // The count on the next line, which is line 0 of its section.
    pub(crate) fn count(&mut self) -> Result<u32, Fault>
        ensures same_section { self.new.section ≡ self.old.section }
        ensures counted { NextCount self.old.section self.old.lines self.new.lines result }
    {
        let fault = self.malformed(0);
        self.lines.next().and_then(number).ok_or(fault)
    }

    // The entry on the next line, whose number in the section is `line`.
    pub(crate) fn entry<E: Entry>(&mut self, line: u32) -> Result<E, Fault>
        ensures same_section { self.new.section ≡ self.old.section }
        ensures read { NextEntry E.Entry.words E.Entry.mats self.old.section line self.old.lines self.new.lines result }
    {
        let fault = self.malformed(line);
        let text = self.lines.next().ok_or(fault)?;
        parse(self.heap, text)?.ok_or(fault)
    }

    // The entries of the whole section with this number.
    pub(crate) fn section<E: Entry>(&mut self, number: u32) -> Result<Vec<E>, Fault>
        ensures same_section { self.new.section ≡ number }
        ensures read { Sectioned E.Entry.words E.Entry.mats number self.old.lines self.new.lines result }
    {
        self.section = number;
        let count = self.count()?;
        let mut items = Vec::new(self.heap);
        // how many are read; from 1, an empty section would need a fact of its own
        for read in 0..count {
            items.push(self.entry(read + 1)?)?;
        }
        Ok(items)
    }
}
