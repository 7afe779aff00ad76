//! Trials of a code: a file is made from a number and encoded, its image is damaged within the radius and decoded, and what
//! came of it is told. The coder is really run: nothing here is answered by what is known of it. Start at [`trial_text`];
//! its text stands in specs/Trials.
#![tactic(auto)]

ghost use Rattle.std.specs.Prelude.{◌≡◌, ◌≤◌, length, IfOk, IsOk};
ghost use Rattle.stored_form.specs.Frame.{IsFile, image};
ghost use Rattle.stream_codec.specs.Layouts.{Fits, in_groups};
ghost use Rattle.ag_trial.specs.Words.{trial_of, file_bytes, after_bytes};
ghost use Rattle.code_trial.specs.Trials.{outcome_for, trial_text_of};

mod back;
mod image;
mod outcome;

use crate::back::read_back;
use crate::image::image_of;
use crate::outcome::{Outcome, outcome_text};
use ag_frame::Layout;
use ag_trial::Trial;
use coded_block::BlockCode;
use std::alloc::{AllocError, Global};
use std::thread::Threads;

/// A trial of a code in groups of a layout, with a file of `bytes` bytes from `seed` and at most `t` changes in
/// each codeword: the lines `bytes`, `codewords`, `changed`, `corrected` and `equal`. As many changes are corrected as were
/// made, and the file comes back. The only error is want of memory.
pub fn trial_text<X: Threads + Sync, C: BlockCode + Sync>(
    rt: &X,
    alloc: Global,
    code: &C,
    layout: &Layout,
    t: u32,
    seed: u64,
    bytes: u32,
) -> Result<Vec<u8>, AllocError>
    requires fits { Fits layout.now (C.form code.now) }
    requires radius { t ≤ (C.form code.now).radius }
    requires short { bytes ≤ 65536 }
    ensures { IfOk result
        (λ text. text.items ≡ trial_text_of (in_groups layout.now (C.form code.now)) t seed bytes) }
{
    let outcome = outcome_of(rt, alloc, code, layout, t, seed, bytes)?;
    outcome_text(alloc, bytes, &outcome)
}

// Makes the file and its image, and tries it.
fn outcome_of<X: Threads + Sync, C: BlockCode + Sync>(
    rt: &X,
    alloc: Global,
    code: &C,
    layout: &Layout,
    t: u32,
    seed: u64,
    bytes: u32,
) -> Result<Outcome, AllocError>
    requires fits { Fits layout.now (C.form code.now) }
    requires radius { t ≤ (C.form code.now).radius }
    requires short { bytes ≤ 65536 }
    ensures { IfOk result (λ outcome. outcome
        ≡ outcome_for (in_groups layout.now (C.form code.now)) t
        (file_bytes bytes (trial_of seed)) (after_bytes bytes (trial_of seed))) }
{
    let mut trial = Trial::new(seed);
    let file = file_of(alloc, &mut trial, bytes)?;
    let mut text = image_of(alloc, code, layout, &file)?;
    damage_and_decode(rt, alloc, code, layout, t, &mut trial, &file, &mut text)
}

// The next bytes of a generator, as a file.
fn file_of(alloc: Global, trial: &mut Trial, bytes: u32) -> Result<Vec<u8>, AllocError>
    ensures file { IfOk result (λ file. file.items ≡ file_bytes bytes trial.old) }
    ensures rest { IsOk result → trial.new ≡ after_bytes bytes trial.old }
{
    let mut file = vec![in alloc; 0u8; bytes as usize]?;
    trial.fill_bytes(&mut file);
    Ok(file)
}

// Damages the image of a file, decodes it, and compares.
fn damage_and_decode<X: Threads + Sync, C: BlockCode + Sync>(
    rt: &X,
    alloc: Global,
    code: &C,
    layout: &Layout,
    t: u32,
    trial: &mut Trial,
    file: &[u8],
    text: &mut [u8],
) -> Result<Outcome, AllocError>
    requires fits { Fits layout.now (C.form code.now) }
    requires radius { t ≤ (C.form code.now).radius }
    requires file { IsFile file.now }
    requires short { length file.now ≤ 65536 }
    requires image { text.old ≡ image (in_groups layout.now (C.form code.now)) file.now }
    ensures { IfOk result (λ outcome. outcome
        ≡ outcome_for (in_groups layout.now (C.form code.now)) t file.now trial.old) }
{
    let changed = trial.damage_text(layout, t, text);
    let back = read_back(rt, alloc, code, layout, text, file)?;
    let groups = text.len() / layout.group_bytes() as usize;
    Ok(Outcome {
        codewords: groups as u64 * u64::from(layout.depth),
        changed,
        corrected: back.corrected,
        equal: back.equal,
    })
}

#[cfg(test)]
mod tests;
