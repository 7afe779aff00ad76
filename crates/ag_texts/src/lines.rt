//! The lines of fixed form.

ghost use Rattle.std.specs.Prelude.{◌≡◌, ◌+◌, ◌≤◌, ◌∷◌, ◌++◌, length};
ghost use Rattle.std.specs.Fmt.{decimal};
ghost use Rattle.ag_texts.specs.Numbers.{hex_of};
ghost use Rattle.ag_texts.specs.Lines.{plain_line_of, number_line_of, point1_line_of, point_line_of, point3_line_of, votes_line_of, plan_line_of, stop_line_of, changed_line_of, filled_line_of, done_line_of, salvaged_line_of, beyond_line_of, lost_line_of, counts_of};

use crate::buffer::LineBuf;

/// A line of one text. As with each of these calls, the buffer then holds just this line with its line feed.
pub fn plain_line(buf: &mut LineBuf, text: &str)
    requires { length text.now ≤ 200 }
    ensures { buf.new ≡ plain_line_of text.now }
{
    buf.clear();
    buf.word(text);
    buf.end();
}

/// A name, a space and a number.
pub fn number_line(buf: &mut LineBuf, name: &str, v: u64)
    requires { length name.now ≤ 200 }
    ensures { buf.new ≡ number_line_of name.now v }
{
    buf.clear();
    buf.word(name);
    field(buf, v);
    buf.end();
}

/// A point of one coordinate, as `[X],`.
#[tactic(auto, using(crate::proofs::Digits::twenty_digits))]
pub fn point1_line(buf: &mut LineBuf, x: u8)
    ensures { buf.new ≡ point1_line_of x }
{
    buf.clear();
    buf.word("[");
    buf.number(u64::from(x));
    buf.word("],");
    buf.end();
}

/// A point, as `[X, Y],`.
#[tactic(auto, using(crate::proofs::Digits::twenty_digits))]
pub fn point_line(buf: &mut LineBuf, x: u8, y: u8)
    ensures { buf.new ≡ point_line_of x y }
{
    buf.clear();
    buf.word("[");
    buf.number(u64::from(x));
    buf.word(", ");
    buf.number(u64::from(y));
    buf.word("],");
    buf.end();
}

/// A point of three coordinates, as `[X, Y, Z],`.
#[tactic(auto, using(crate::proofs::Digits::twenty_digits))]
pub fn point3_line(buf: &mut LineBuf, x: u8, y: u8, z: u8)
    ensures { buf.new ≡ point3_line_of x y z }
{
    buf.clear();
    buf.word("[");
    buf.number(u64::from(x));
    buf.word(", ");
    buf.number(u64::from(y));
    buf.word(", ");
    buf.number(u64::from(z));
    buf.word("],");
    buf.end();
}

/// A label, its pairs, and its right and wrong candidates.
#[tactic(auto, using(crate::proofs::Digits::twenty_digits))]
pub fn votes_line(buf: &mut LineBuf, label: u32, pairs: u32, right: u32, wrong: u32)
    ensures { buf.new ≡ votes_line_of label pairs right wrong }
{
    buf.clear();
    buf.number(u64::from(label));
    field(buf, u64::from(pairs));
    field(buf, u64::from(right));
    field(buf, u64::from(wrong));
    buf.end();
}

/// A plan: what it is called, the number that it goes by, how many members it checks, and its bound.
pub fn plan_line(buf: &mut LineBuf, head: &str, first: u32, checks: u32, bound: u32)
    requires { length head.now ≤ 200 }
    ensures { buf.new ≡ plan_line_of head.now first checks bound }
{
    buf.clear();
    buf.word(head);
    short_field(buf, first);
    buf.word(" checks");
    short_field(buf, checks);
    buf.word(" bound");
    short_field(buf, bound);
    buf.end();
}

/// The stop of a plan: its label and its pairs.
pub fn stop_line(buf: &mut LineBuf, label: u32, pairs: u32)
    ensures { buf.new ≡ stop_line_of label pairs }
{
    buf.clear();
    buf.word("stop");
    short_field(buf, label);
    short_field(buf, pairs);
    buf.end();
}

/// A changed position: its group, its codeword in the group, its place, the byte read and the codeword's byte.
pub fn changed_line(buf: &mut LineBuf, group: u64, word: u32, place: u32, old: u8, new: u8)
    ensures { buf.new ≡ changed_line_of group word place old new }
{
    buf.clear();
    buf.word("changed");
    field(buf, group);
    field(buf, u64::from(word));
    field(buf, u64::from(place));
    hex_field(buf, old);
    hex_field(buf, new);
    buf.end();
}

/// A position that was filled in: its place, and the byte.
pub fn filled_line(buf: &mut LineBuf, place: u32, new: u8)
    ensures { buf.new ≡ filled_line_of place new }
{
    buf.clear();
    buf.word("filled");
    short_field(buf, place);
    hex_field(buf, new);
    buf.end();
}

/// The end of a decoded text: the bytes of the file, the groups and the changes.
pub fn done_line(buf: &mut LineBuf, bytes: u64, groups: u64, changes: u64)
    ensures { buf.new ≡ done_line_of bytes groups changes }
{
    buf.clear();
    buf.word("done");
    counts(buf, bytes, groups, changes);
    buf.end();
}

/// The end of a text that was decoded past lost codewords: the bytes of the file, the groups, the changes and the lost
/// codewords.
pub fn salvaged_line(buf: &mut LineBuf, bytes: u64, groups: u64, changes: u64, lost: u64)
    ensures { buf.new ≡ salvaged_line_of bytes groups changes lost }
{
    buf.clear();
    buf.word("salvaged");
    counts(buf, bytes, groups, changes);
    buf.word(" lost");
    field(buf, lost);
    buf.end();
}

/// A codeword that is lost: its group, and its number in the group.
pub fn lost_line(buf: &mut LineBuf, group: u64, word: u32)
    ensures { buf.new ≡ lost_line_of group word }
{
    buf.clear();
    buf.word("lost");
    field(buf, group);
    field(buf, u64::from(word));
    buf.end();
}

/// A codeword that is not within the radius of any: its group, and its number in the group.
pub fn beyond_line(buf: &mut LineBuf, group: u64, word: u32)
    ensures { buf.new ≡ beyond_line_of group word }
{
    buf.clear();
    buf.word("beyond");
    field(buf, group);
    field(buf, u64::from(word));
    buf.end();
}

/// What a decoding counts: the bytes of the file, the groups and the changes.
fn counts(buf: &mut LineBuf, bytes: u64, groups: u64, changes: u64)
    requires { length buf.old ≤ 100 }
    ensures added { buf.new ≡ buf.old ++ 32 ∷ counts_of bytes groups changes }
    ensures len { length buf.new ≤ length buf.old + 84 }
{
    buf.word(" bytes");
    field(buf, bytes);
    buf.word(" groups");
    field(buf, groups);
    buf.word(" changed");
    field(buf, changes);
}

/// A space and a number.
#[tactic(auto, using(crate::proofs::Digits::twenty_digits))]
fn field(buf: &mut LineBuf, v: u64)
    requires { length buf.old ≤ 235 }
    ensures added { buf.new ≡ buf.old ++ 32 ∷ decimal v }
    ensures len { length buf.new ≤ length buf.old + 21 }
{
    buf.word(" ");
    buf.number(v);
}

/// A space and a number of 32 bits, which has at most ten digits.
#[tactic(auto, using(crate::proofs::Digits::ten_digits))]
fn short_field(buf: &mut LineBuf, v: u32)
    requires { length buf.old ≤ 245 }
    ensures added { buf.new ≡ buf.old ++ 32 ∷ decimal v }
    ensures len { length buf.new ≤ length buf.old + 11 }
{
    buf.word(" ");
    buf.number(u64::from(v));
}

/// A space and a byte in hexadecimal.
fn hex_field(buf: &mut LineBuf, v: u8)
    requires { length buf.old ≤ 253 }
    ensures { buf.new ≡ buf.old ++ 32 ∷ hex_of v }
{
    buf.word(" ");
    buf.hex(v);
}
