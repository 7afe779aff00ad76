//! All points of a space.

ghost use Rattle.std.specs.Prelude.{◌≡◌, ℕ, ◌≤◌, ◌++◌, IfOk, OnOk, IsTrue, Bool};
ghost use Rattle.std.specs.List.{flat_map};
ghost use Rattle.agcode_top.specs.Commands.{point_text, points_text};
ghost use Rattle.agcode_top.specs.Calls.{sink_call, still_source, still_sink};
ghost use Rattle.agcode_top.specs.Leaves.{AnswerLeaves};
ghost use Rattle.ag_io.specs.Views.{SourceView, SinkView};
ghost use Rattle.command_words.specs.declared.words.Command.TheVariants.{Points};
ghost use Rattle.command_words.specs.declared.words.Words.{Words};

use crate::status::Status;
use crate::word::answer;
use ag_io::Sink;
use ag_texts::{LineBuf, point_line, point1_line, point3_line};
use code_descriptor::Descriptor;
use order_domain::Point;
use std::alloc::{AllocError, Global};

// Makes the line of a point of so many coordinates.
fn line_of(line: &mut LineBuf, coordinates: u32, point: &Point)
    ensures { line.new ≡ point_text coordinates point.now }
{
    if coordinates == 1 {
        point1_line(line, point.x);
    } else if coordinates == 2 {
        point_line(line, point.x, point.y);
    } else {
        point3_line(line, point.x, point.y, point.z);
    }
}

// The lines of these points of so many coordinates.
fn lines_of(alloc: Global, coordinates: u32, points: &[Point]) -> Result<Vec<u8>, AllocError>
    ensures { IfOk result (λ text. text.items ≡ flat_map (point_text coordinates) points.now) }
{
    let mut text = Vec::new(alloc);
    let mut line = LineBuf::new();
    for point in points {
        line_of(&mut line, coordinates, point);
        text.extend_from_slice(line.bytes())?;
    }
    Ok(text)
}

// The text of all points of the space.
fn text_of_points(alloc: Global, descriptor: &Descriptor) -> Result<Vec<u8>, AllocError>
    ensures { IfOk result (λ text. text.items ≡ points_text descriptor.now) }
{
    let space = descriptor.space();
    let points = space.all_points(alloc, descriptor.field())?;
    lines_of(alloc, space.coordinates(), &points)
}

/// Writes all points of the space, a line each.
pub fn points<O: Sink>(alloc: Global, descriptor: &Descriptor, out: &mut O) -> Status
    ensures leaves { (w : Words) (reads tells : Bool) (input : SourceView) (report : SinkView) →
        AnswerLeaves w Points descriptor.now (still_source reads input)
        (sink_call O.Sink out.old out.new) (still_sink tells report) result }
    ensures out_counted { (O.view out.old).faults ≤ (O.view out.new).faults }
{
    match text_of_points(alloc, descriptor) {
        Ok(text) => answer(out, &text, Status::Done),
        Err(_) => Status::NoMemory,
    }
}
