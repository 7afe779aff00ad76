//! The top call.

ghost use Rattle.std.specs.Prelude.{◌≡◌, ℕ, ◌+◌, ◌≤◌, ◌↔◌, map, true, false};
ghost use Rattle.std.specs.String.{string_bytes};
ghost use Rattle.ag_io.specs.Counts.{Rose};
ghost use Rattle.command_words.specs.declared.words.Command.TheVariants.{Encode, Decode};
ghost use Rattle.agcode_top.specs.Calls.{call, source_call, sink_call, IsUngiven, GivesOrFails, TakesAtMost};
ghost use Rattle.agcode_top.specs.Statuses.{OnWords, OnCommand, CanEnd, IsQuiet, is_streamed};
ghost use Rattle.agcode_top.specs.Lines.{line_of};
ghost use Rattle.agcode_top.specs.Headline.{StoresImage, Repairs, ReadsText, Completes, RefusesBy};
ghost use Rattle.agcode_top.specs.Headline.{Answers, RefusesExactly, AnswersExactly, EncodesAs, DecodesAs};
ghost use Rattle.agcode_top.specs.Headline.{AnswersPart, AnswersUntold, LeavesUntouched, LeavesUnread};
ghost use Rattle.agcode_top.specs.Headline.{AcceptsFirst};
ghost use Rattle.agcode_top.specs.Headline.{Rescues, SalvagesExactly, SalvagesAs};
ghost use Rattle.agcode_top.specs.Headline.{TellsLine, TakesWithin, TellsNumber, KeepsCounts};

use crate::obey::obey;
use crate::report::tell;
use crate::status::Status;
use ag_io::{Sink, Source};
use ag_pool::Gate;
use code_descriptor::MOST_TEXT;
use std::alloc::Global;
use std::thread::Threads;

/// Runs the program on the words of the command line (without the program's own name): it reads the descriptor from `desc`,
/// the data of the command from `input`, writes the answer on `out`, and on `report` what decoding tells and one line where
/// the status has one. Each status comes as its clause says, over every source and sink.
pub fn run<X: Threads + Sync, D: Source, I: Source, O: Sink, R: Sink, G: Gate>(
    rt: &X,
    alloc: Global,
    words: &[String],
    desc: &mut D,
    input: &mut I,
    out: &mut O,
    report: &mut R,
    gate: &G,
) -> Status
    // The headline: encoding, repair, reading, completeness.
    ensures encode { OnCommand (map string_bytes words.now) Encode (StoresImage (call
        D.Source desc.old desc.new I.Source input.old input.new
        O.Sink out.old out.new R.Sink report.old report.new) result) }
    ensures repair { OnCommand (map string_bytes words.now) Decode (Repairs (call
        D.Source desc.old desc.new I.Source input.old input.new
        O.Sink out.old out.new R.Sink report.old report.new) result) }
    ensures reading { OnCommand (map string_bytes words.now) Decode (ReadsText (call
        D.Source desc.old desc.new I.Source input.old input.new
        O.Sink out.old out.new R.Sink report.old report.new) result) }
    ensures complete { OnWords (map string_bytes words.now) (λ w. Completes w (call
        D.Source desc.old desc.new I.Source input.old input.new
        O.Sink out.old out.new R.Sink report.old report.new) result) }

    // Each status only by its cause, and of the statuses of its command.
    ensures usage { (result ≡ Status.Usage) ↔ OnWords (map string_bytes words.now) (λ w. ⊥) }
    ensures own { OnWords (map string_bytes words.now) (λ w. CanEnd result w.command) }
    ensures descriptor { OnWords (map string_bytes words.now)
        (λ w. RefusesBy w.command (source_call D.Source desc.old desc.new) result) }
    ensures accepted { OnWords (map string_bytes words.now)
        (λ w. AcceptsFirst w.command (source_call D.Source desc.old desc.new) result) }
    ensures desc_fault { result ≡ Status.DescFault →
        Rose (D.view desc.old).faults (D.view desc.new).faults }
    ensures input_fault { result ≡ Status.InputFault →
        Rose (I.view input.old).faults (I.view input.new).faults }
    ensures out_fault { result ≡ Status.OutFault →
        Rose (O.view out.old).faults (O.view out.new).faults }
    ensures report_fault { result ≡ Status.ReportFault →
        Rose (R.view report.old).faults (R.view report.new).faults }

    // What the other commands say, by the descriptor and the input, with their text on out.
    ensures answer { OnWords (map string_bytes words.now) (λ w. Answers w (call
        D.Source desc.old desc.new I.Source input.old input.new
        O.Sink out.old out.new R.Sink report.old report.new) result) }

    // A refusal wherever there is one, and an answer wherever it is what the command says.
    ensures refused { OnWords (map string_bytes words.now)
        (λ w. RefusesExactly w.command (source_call D.Source desc.old desc.new) result) }
    ensures exactly { OnWords (map string_bytes words.now) (λ w. AnswersExactly w (call
        D.Source desc.old desc.new I.Source input.old input.new
        O.Sink out.old out.new R.Sink report.old report.new) result) }

    // All that encode and decode leave, by the status that they end with.
    ensures encoded { OnCommand (map string_bytes words.now) Encode (EncodesAs (call
        D.Source desc.old desc.new I.Source input.old input.new
        O.Sink out.old out.new R.Sink report.old report.new) result) }
    ensures decoded { OnWords (map string_bytes words.now) (λ w.
        w.command ≡ Decode → w.salvage ≡ false → DecodesAs (call
        D.Source desc.old desc.new I.Source input.old input.new
        O.Sink out.old out.new R.Sink report.old report.new) result) }

    // Decoding that goes on past lost codewords.
    ensures salvaged { OnWords (map string_bytes words.now) (λ w.
        w.command ≡ Decode → w.salvage ≡ true → SalvagesAs (call
        D.Source desc.old desc.new I.Source input.old input.new
        O.Sink out.old out.new R.Sink report.old report.new) result) }
    ensures rescue { OnCommand (map string_bytes words.now) Decode (Rescues (call
        D.Source desc.old desc.new I.Source input.old input.new
        O.Sink out.old out.new R.Sink report.old report.new) result) }
    ensures salvages { OnWords (map string_bytes words.now) (λ w.
        w.command ≡ Decode → w.salvage ≡ true → SalvagesExactly (call
        D.Source desc.old desc.new I.Source input.old input.new
        O.Sink out.old out.new R.Sink report.old report.new) result) }

    // What stands on out, on report and in the sources after a refusal or a fault.
    ensures part { OnWords (map string_bytes words.now) (λ w. AnswersPart w (call
        D.Source desc.old desc.new I.Source input.old input.new
        O.Sink out.old out.new R.Sink report.old report.new) result) }
    ensures untold { OnWords (map string_bytes words.now) (λ w. AnswersUntold w (call
        D.Source desc.old desc.new I.Source input.old input.new
        O.Sink out.old out.new R.Sink report.old report.new) result) }
    ensures quiet { OnWords (map string_bytes words.now) (λ w.
        is_streamed w.command ≡ false → IsQuiet result →
        IsUngiven (sink_call O.Sink out.old out.new)) }
    ensures early { LeavesUntouched (call
        D.Source desc.old desc.new I.Source input.old input.new
        O.Sink out.old out.new R.Sink report.old report.new) result }
    ensures unread { OnWords (map string_bytes words.now) (λ w. LeavesUnread w.command
        (source_call I.Source input.old input.new) result) }
    ensures line { OnWords (map string_bytes words.now) (λ w. TellsLine w.command
        (sink_call R.Sink report.old report.new) result) }
    ensures usage_line { result ≡ Status.Usage →
        GivesOrFails (sink_call R.Sink report.old report.new) (line_of result) }

    // How much is taken.
    ensures desc_taken { TakesAtMost (MOST_TEXT + 1) (source_call D.Source desc.old desc.new) }
    ensures taken { OnWords (map string_bytes words.now) (λ w. TakesWithin w.command (call
        D.Source desc.old desc.new I.Source input.old input.new
        O.Sink out.old out.new R.Sink report.old report.new)) }
    ensures number { TellsNumber (source_call I.Source input.old input.new) result }

    // A call that fails ends the command.
    ensures kept { OnWords (map string_bytes words.now) (λ w. KeepsCounts w.command (call
        D.Source desc.old desc.new I.Source input.old input.new
        O.Sink out.old out.new R.Sink report.old report.new) result) }

    // Counts of faults never fall.
    ensures desc_counted { (D.view desc.old).faults ≤ (D.view desc.new).faults }
    ensures input_counted { (I.view input.old).faults ≤ (I.view input.new).faults }
    ensures out_counted { (O.view out.old).faults ≤ (O.view out.new).faults }
    ensures report_counted { (R.view report.old).faults ≤ (R.view report.new).faults }
{
    let status = obey(rt, alloc, words, desc, input, out, report, gate);
    tell(report, &status);
    status
}
