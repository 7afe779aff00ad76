//! Files and damage from a number, for trials: the same number gives the same bytes and the same changes on every machine.
//! Start at [`Trial::new`]. The generator is PCG32 of `rand_pcg`, and each draw is its next word modulo a bound; what is
//! drawn, in which order, stands in specs/Words and specs/Damage, and by the layout of a group in specs/Groups. No call
//! takes memory.
#![tactic(auto)]

ghost use Rattle.std.specs.Prelude.{true, ℕ, ◌≡◌, ◌≢◌, ◌+◌, ◌*◌, ◌%◌, ◌^◌, ◌<◌, ◌≤◌, length, slice_index_or, []};
ghost use Rattle.stored_form.specs.Form.{distance};
ghost use Rattle.ag_frame.specs.Layouts.{IsLayout, bytes_in_group, words_of_group, fill_of_group};
ghost use Rattle.ag_trial.specs.Words.{trial_of, drawn, after_draw, file_bytes, after_bytes};
ghost use Rattle.ag_trial.specs.Damage.{damaged, total_distance, DamageLaw, TrialLaw};
ghost use Rattle.ag_trial.specs.Groups.{word_of_group, words_of_text, fill_of_text, group_damage, group_changes, text_damage, text_changes};

use ag_frame::{Layout, put_symbol, symbol_at};
use rand_core::SeedableRng;
use rand_core::utils::NextWord;
use rand_pcg::Lcg64Xsh32;
use std::marker::Model;

/// A generator of bytes and of damage.
#[derive(Drop)]
pub struct Trial {
    words: Lcg64Xsh32,
}

impl Model for Trial {
    ghost use Rattle.rand_pcg.specs.Lcg.{Lcg};

    ghost Value = { Lcg };

    ghost view = { λ t. t.words };
}

/// In each codeword exactly as many stored symbols are changed as were drawn for it, at distinct positions, and at most t.
/// The contract is the theorem.
pub fn damage_is_as_drawn()
    ensures { DamageLaw }
{}

/// The image of a file whose codewords are damaged within the radius is read as that file, with exactly as many changes as
/// were drawn. The contract is the theorem.
pub fn damaged_images_are_read()
    ensures { TrialLaw }
{}

impl Trial {
    /// The generator of a seed.
    #[tactic(auto, unfolding(crate::specs::Words::trial_of))]
    pub fn new(seed: u64) -> Trial
        ensures { result ≡ trial_of seed }
    {
        Trial {
            words: Lcg64Xsh32::seed_from_u64(seed),
        }
    }

    // The next word modulo `bound`.
    #[tactic(auto, unfolding(crate::specs::Words::drawn, crate::specs::Words::after_draw))]
    fn draw(&mut self, bound: u32) -> u32
        requires { 0 < bound }
        ensures value { result ≡ drawn bound self.old }
        ensures small { result < bound }
        ensures rest { self.new ≡ after_draw self.old }
    {
        self.words.next_word() % bound
    }

    /// The next byte of a file.
    pub fn byte(&mut self) -> u8
        ensures value { result ≡ drawn 256 self.old }
        ensures rest { self.new ≡ after_draw self.old }
    {
        self.draw(256) as u8
    }

    /// The next bytes of a file, as many as there is room for.
    pub fn fill_bytes(&mut self, bytes: &mut [u8])
        ensures bytes { bytes.new ≡ file_bytes (length bytes.old) self.old }
        ensures rest { self.new ≡ after_bytes (length bytes.old) self.old }
    {
        for byte in bytes.iter_mut() {
            *byte = self.byte();
        }
    }

    // Changes up to `t` stored symbols of codeword `c` of the group, and answers how many.
    fn damage_word(&mut self, layout: &Layout, t: u32, c: usize, group: &mut [u8]) -> u32
        requires layout { IsLayout layout.now }
        requires t { t ≤ layout.now.n }
        requires c { c < layout.now.depth }
        requires long { length group.old ≡ bytes_in_group layout.now }
        ensures word { word_of_group layout.now group.new c
            ≡ (damaged (2 ^ layout.now.bits) t (word_of_group layout.now group.old c) self.old).0 }
        ensures others { (k : ℕ) → k < layout.now.depth → k ≢ c
            → word_of_group layout.now group.new k ≡ word_of_group layout.now group.old k }
        ensures fill { fill_of_group layout.now group.new ≡ fill_of_group layout.now group.old }
        ensures rest { self.new
            ≡ (damaged (2 ^ layout.now.bits) t (word_of_group layout.now group.old c) self.old).1 }
        ensures changes { result ≡ drawn (t + 1) self.old }
        ensures small { result ≤ t }
    {
        let changes = self.draw(t + 1);
        let mut left = changes;
        for p in 0..layout.n {
            if self.draw(layout.n - p) < left {
                let change = 1 + self.draw((1 << layout.bits) - 1);
                let place = (p * layout.depth) as usize + c;
                let symbol = symbol_at(layout, place, group) ^ change as u8;
                put_symbol(layout, place, symbol, group);
                left -= 1;
            }
        }
        changes
    }

    /// Changes up to `t` stored symbols in each codeword of a stored group, and answers how many in all. Its fill bits stay
    /// as they are.
    pub fn damage_group(&mut self, layout: &Layout, t: u32, group: &mut [u8]) -> u32
        requires layout { IsLayout layout.now }
        requires t { t ≤ layout.now.n }
        requires long { length group.old ≡ bytes_in_group layout.now }
        ensures words { words_of_group layout.now group.new
            ≡ (group_damage layout.now t group.old self.old).0 }
        ensures fill { fill_of_group layout.now group.new ≡ fill_of_group layout.now group.old }
        ensures rest { self.new ≡ (group_damage layout.now t group.old self.old).1 }
        ensures drawn { result ≡ group_changes layout.now t group.old self.old }

        // What follows from these: how far the words are from those before.
        ensures changes { result ≡ total_distance
            (words_of_group layout.now group.new)
            (words_of_group layout.now group.old) }
        ensures small { result ≤ layout.now.depth * t }
        ensures near { (c : ℕ) → c < layout.now.depth → distance
            (word_of_group layout.now group.new c)
            (word_of_group layout.now group.old c) ≤ t }
    {
        let mut changes = 0;
        for c in 0..layout.depth {
            changes += self.damage_word(layout, t, c as usize, group);
        }
        changes
    }

    /// Changes up to `t` stored symbols in each codeword of a text of whole groups, group after group, and answers how many
    /// in all. Its fill bits stay as they are. There may be four packed symbols in a byte, so that the number fits where the text is below 2^62 bytes.
    pub fn damage_text(&mut self, layout: &Layout, t: u32, text: &mut [u8]) -> u64
        requires layout { IsLayout layout.now }
        requires t { t ≤ layout.now.n }
        requires whole { length text.old % bytes_in_group layout.now ≡ 0 }
        requires few { layout.now.packed ≡ true → length text.old < 2 ^ 62 }
        ensures words { words_of_text layout.now text.new
            ≡ (text_damage layout.now t text.old self.old).0 }
        ensures fill { fill_of_text layout.now text.new ≡ fill_of_text layout.now text.old }
        ensures rest { self.new ≡ (text_damage layout.now t text.old self.old).1 }
        ensures drawn { result ≡ text_changes layout.now t text.old self.old }
    {
        let size = layout.group_bytes() as usize;
        let mut changes = 0;
        for g in 0..text.len() / size {
            let group = &mut text[g * size..(g + 1) * size];
            changes += u64::from(self.damage_group(layout, t, group));
        }
        changes
    }
}

// The expected bytes were worked out apart from this code, from PCG32's definition.
#[cfg(test)]
mod tests {
    use super::*;

    #[test]
    fn gives_the_bytes_of_a_seed(rt: HostRuntime) {
        let cases = [
            (1, [230, 238, 81, 192, 59, 232]),
            (0x1_0000_0001, [97, 126, 203, 31, 79, 20]),
            (u64::MAX, [126, 134, 12, 61, 202, 192]),
        ];
        for (seed, bytes) in cases {
            let mut trial = Trial::new(seed);
            for byte in bytes {
                assert_eq!(rt; trial.byte(), byte);
            }
            let mut file = [0; 6];
            Trial::new(seed).fill_bytes(&mut file);
            assert_eq!(rt; file, bytes);
        }
    }

    #[test]
    fn damages_a_group(rt: HostRuntime) {
        let layout = Layout {
            n: 8,
            k: 3,
            bits: 8,
            depth: 2,
            packed: false,
        };
        let mut trial = Trial::new(6);
        let mut group = [0; 16];
        assert_eq!(rt; trial.damage_group(&layout, 8, &mut group), 12);
        let damaged = [
            26, 0, 91, 58, 0, 5, 129, 0, 223, 204, 165, 210, 152, 0, 179, 109,
        ];
        assert_eq!(rt; group, damaged);
        assert_eq!(rt; trial.byte(), 3);
        assert_eq!(rt; trial.damage_group(&layout, 0, &mut group), 0);
        assert_eq!(rt; group, damaged);
    }

    // Three bits a symbol: the two fill bits stay.
    #[test]
    fn damages_a_packed_group(rt: HostRuntime) {
        let layout = Layout {
            n: 5,
            k: 2,
            bits: 3,
            depth: 2,
            packed: true,
        };
        let mut trial = Trial::new(7);
        let mut group = [5, 57, 119, 7];
        assert_eq!(rt; trial.damage_group(&layout, 5, &mut group), 9);
        assert_eq!(rt; group, [245, 209, 47, 107]);
        assert_eq!(rt; trial.byte(), 55);
    }

    // Two groups of one codeword, each with a fill bit.
    #[test]
    fn damages_a_packed_text(rt: HostRuntime) {
        let layout = Layout {
            n: 5,
            k: 2,
            bits: 3,
            depth: 1,
            packed: true,
        };
        let mut trial = Trial::new(7);
        let mut text = [250, 199, 5, 57];
        assert_eq!(rt; trial.damage_text(&layout, 5, &mut text), 9);
        assert_eq!(rt; text, [28, 241, 157, 191]);
        assert_eq!(rt; trial.byte(), 55);
    }

    // The codewords of the group above, as two groups of one codeword each.
    #[test]
    fn damages_a_text(rt: HostRuntime) {
        let layout = Layout {
            n: 8,
            k: 3,
            bits: 8,
            depth: 1,
            packed: false,
        };
        let mut trial = Trial::new(6);
        let mut text = [0; 16];
        assert_eq!(rt; trial.damage_text(&layout, 8, &mut text), 12);
        let damaged = [
            26, 91, 0, 129, 223, 165, 152, 179, 0, 58, 5, 0, 204, 210, 0, 109,
        ];
        assert_eq!(rt; text, damaged);
        assert_eq!(rt; trial.byte(), 3);
    }
}
