//! Texts that are changed in the middle, and what decoding them has to leave.

use crate::rig::{Left, plain};
use agcode_top::Status;
use std::alloc::Global;
use std::test::Fail;
use std::thread::Threads;

/// Which symbols of a text are changed: in each codeword every so many-th position up to the last one that is named. A group
/// takes so many bytes, for so many stored symbols of so many bits; the bits after them are changed too, as they may be.
#[derive(Clone, Copy)]
pub struct Damage {
    pub group: u32,
    pub symbols: u32,
    pub width: u8,
    pub depth: u8,
    pub step: u8,
    pub last: u16,
}

impl Damage {
    // Whether a bit of a group is changed: the last one of a symbol that is, or one after all symbols.
    fn changes(&self, bit: u64) -> bool {
        let width = u64::from(self.width).max(1);
        let symbol = bit / width;
        if symbol >= u64::from(self.symbols) {
            return true;
        }
        let position = symbol / u64::from(self.depth).max(1);
        let is_named = position <= u64::from(self.last)
            && position % u64::from(self.step).max(1) == 0;
        is_named && bit % width == width - 1
    }

    /// Changes a text.
    pub fn apply(&self, text: &mut [u8]) {
        let group = u64::from(self.group).max(1);
        for (place, byte) in text.iter_mut().enumerate() {
            let first = place as u64 % group * 8;
            for bit in 0..8u8 {
                if self.changes(first + u64::from(bit)) {
                    *byte ^= 0x80 >> bit;
                }
            }
        }
    }
}

// Whether a run is done, and report has so many lines, of which this is the last.
fn is_told(left: &Left, lines: usize, end: &str) -> bool {
    let told = left.report.iter().filter(|byte| **byte == b'\n').count();
    left.status == Status::Done && told == lines && left.report.ends_with(end.as_bytes())
}

/// A file of bytes 5a is encoded, changed and decoded with 1 and with 8 workers: it comes back, and report has so many lines,
/// of which `end` is the last.
pub fn assert_repairs<X: Threads + Sync>(
    rt: &X,
    alloc: Global,
    desc: &str,
    bytes: usize,
    damage: &Damage,
    lines: usize,
    end: &str,
) -> Result<(), Fail> {
    let file = vec![in alloc; 0x5au8; bytes]?;
    let mut text = plain(rt, alloc, "encode D", desc, &file)?.out;
    damage.apply(&mut text);
    for line in ["decode D", "decode --workers 8 D"] {
        let left = plain(rt, alloc, line, desc, &text)?;
        if left.out != file || !is_told(&left, lines, end) {
            return Err(Fail::new(line));
        }
    }
    Ok(())
}
