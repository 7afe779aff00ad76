//! What is told of decoded groups.

ghost use Rattle.std.specs.Prelude.{ℕ, ◌≡◌, ◌<◌, ◌≤◌, ◌^◌, ◌++◌, List, length, All, map, MatchResult};
ghost use Rattle.ag_texts.specs.Lines.{done_line_of, salvaged_line_of};
ghost use Rattle.ag_io.specs.Puts.{Wrote, WroteSome, WroteAllBut};
ghost use Rattle.stored_form.specs.Salvage.{changes_in, lost_in};
ghost use Rattle.stream_codec.specs.Report.{lines_of, text_of};
ghost use Rattle.stream_codec.specs.GroupLines.{place_changes, told_by, slot_lines};
ghost use Rattle.stream_codec.specs.Salvaging.{end_line};

use crate::pending::Pending;
use crate::salvage::{SalvageCounts, SalvageEnd};
use crate::slot::Slot;
use ag_io::{Failed, Sink, put};
use ag_texts::{
    LineBuf, changed_line, done_line, lost_line, number_line, plain_line, salvaged_line,
};
use coded_block::{BlockBench, Verdict};

/// What was told of codewords: how many changes, and how many of them are lost.
#[derive(Clone, Copy)]
pub struct Told {
    pub changes: u64,
    pub lost: u64,
}

/// Tells the changes and the lost codewords of a group, codeword by codeword.
pub fn tell_group<B: BlockBench, R: Sink>(
    group: u64,
    slots: &[Slot<B>],
    n: usize,
    report: &mut R,
) -> Result<Told, Failed>
    requires few { length slots.now ≤ 64 }
    requires n_few { n ≤ 1024 }
    requires got_long { All (λ s. length s.got ≡ n) slots.now }
    requires word_long { All (λ s. length s.word ≡ n) slots.now }
    ensures { let lines = slot_lines n group 0 slots.now in MatchResult result
        (λ told. Wrote R.tells (R.view report.old) (R.view report.new) (text_of lines)
        × (told.changes ≡ changes_in lines) × (told.lost ≡ lost_in lines))
        (λ _. WroteSome R.tells (R.view report.old) (R.view report.new) (text_of lines)) }
{
    let mut line = LineBuf::new();
    let mut pending = Pending::new();
    let mut changes: u64 = 0;
    let mut lost: u64 = 0;
    for (c, slot) in slots.iter().enumerate() {
        let told = tell_slot(&mut line, &mut pending, group, c as u32, slot, report)?;
        changes += told.changes;
        lost += told.lost;
    }
    pending.write(report)?;
    Ok(Told { changes, lost })
}

/// Tells the changes of a codeword, or that it is lost. The last lines may be left to wait.
fn tell_slot<B: BlockBench, R: Sink>(
    line: &mut LineBuf,
    pending: &mut Pending,
    group: u64,
    word: u32,
    slot: &Slot<B>,
    report: &mut R,
) -> Result<Told, Failed>
    requires few { length slot.now.got ≤ 1024 }
    requires same { length slot.now.word ≡ length slot.now.got }
    ensures { let s = slot.now in
        let lines = told_by (length s.got) group word s.got s.word s.verdict in
        let bytes = pending.old ++ text_of lines in MatchResult result
        (λ told. WroteAllBut R.tells (R.view report.old) (R.view report.new) bytes pending.new
        × (told.changes ≡ changes_in lines) × (told.lost ≡ lost_in lines))
        (λ _. WroteSome R.tells (R.view report.old) (R.view report.new) bytes) }
{
    match slot.verdict() {
        Verdict::Near { .. } => {
            let changes = tell_block(line, pending, group, word, slot.got(), slot.word(), report)?;
            Ok(Told { changes, lost: 0 })
        }
        Verdict::Beyond => {
            lost_line(line, group, word);
            pending.add(line.bytes(), report)?;
            Ok(Told {
                changes: 0,
                lost: 1,
            })
        }
    }
}

/// Tells the changes from a block to its codeword, and answers how many they are. The last lines may be left to wait.
fn tell_block<R: Sink>(
    line: &mut LineBuf,
    pending: &mut Pending,
    group: u64,
    word: u32,
    got: &[u8],
    codeword: &[u8],
    report: &mut R,
) -> Result<u64, Failed>
    requires few { length got.now ≤ 1024 }
    requires same { length codeword.now ≡ length got.now }
    ensures { let changes = place_changes (length got.now) group word got.now codeword.now in
        let bytes = pending.old ++ lines_of changes in MatchResult result
        (λ count. WroteAllBut R.tells (R.view report.old) (R.view report.new) bytes pending.new
        × (count ≡ length changes))
        (λ _. WroteSome R.tells (R.view report.old) (R.view report.new) bytes) }
{
    let mut count: u64 = 0;
    for p in 0..got.len() {
        if got[p] != codeword[p] {
            changed_line(line, group, word, p as u32, got[p], codeword[p]);
            pending.add(line.bytes(), report)?;
            count += 1;
        }
    }
    Ok(count)
}

/// Tells that a text was decoded.
pub fn tell_done<R: Sink>(
    bytes: u64,
    groups: u64,
    changes: u64,
    report: &mut R,
) -> Result<(), Failed>
    ensures { let line = done_line_of bytes groups changes in MatchResult result
        (λ _. Wrote R.tells (R.view report.old) (R.view report.new) line)
        (λ _. WroteSome R.tells (R.view report.old) (R.view report.new) line) }
{
    let mut line = LineBuf::new();
    done_line(&mut line, bytes, groups, changes);
    put(report, line.bytes())
}

/// Tells how a text ends of which codewords are lost, and what was counted.
pub fn tell_salvaged<R: Sink>(counts: &SalvageCounts, report: &mut R) -> Result<(), Failed>
    ensures { let c = counts.now in
        let lines = end_line c.end ++ salvaged_line_of c.bytes c.groups c.changes c.lost in
        MatchResult result
        (λ _. Wrote R.tells (R.view report.old) (R.view report.new) lines)
        (λ _. WroteSome R.tells (R.view report.old) (R.view report.new) lines) }
{
    tell_end_line(counts.end, report)?;
    let mut line = LineBuf::new();
    salvaged_line(
        &mut line,
        counts.bytes,
        counts.groups,
        counts.changes,
        counts.lost,
    );
    put(report, line.bytes())
}

/// Tells an end that is no file.
fn tell_end_line<R: Sink>(end: SalvageEnd, report: &mut R) -> Result<(), Failed>
    ensures { MatchResult result
        (λ _. Wrote R.tells (R.view report.old) (R.view report.new) (end_line end))
        (λ _. WroteSome R.tells (R.view report.old) (R.view report.new) (end_line end)) }
{
    let mut line = LineBuf::new();
    match end {
        SalvageEnd::File => return Ok(()),
        SalvageEnd::Ragged { extra } => number_line(&mut line, "ragged", u64::from(extra)),
        SalvageEnd::Framing => plain_line(&mut line, "framing"),
    }
    put(report, line.bytes())
}
