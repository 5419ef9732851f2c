//! The tools by their words.
ghost use Rattle.std.specs.Prelude.{◌≡◌, true, false, None, Some, IfSome, string_bytes};
ghost use Rattle.std.specs.Io.KnownBytes.{IsAtEnd};
ghost use Rattle.octet_tools.specs.Course.{MayRun};
ghost use Rattle.octet_tools.specs.declared.tool.OctetTool.{OctetTool as AnyTool};
ghost use Rattle.trace_words.specs.Numbers.{number_in};
ghost use Rattle.trace_tool.specs.Tool.{is_replay, frame_limit, octet_tool, Replays, OctetsTold, ReadCause, WriteCause};

use crate::replay::run_replay;
use crate::status::Status;
use keeper_core::Keeper;
use octet_tools::{OctetTool, run_octets};
use outside_core::{Sink, Source};
use std::alloc::Global;
use trace_words::number_upto;

/// Whether the words are those of `replay`.
fn is_replay(words: &[String]) -> bool
    ensures { result ≡ is_replay words.now }
{
    match words {
        [word] => word.as_str() == "replay",
        _ => false,
    }
}

/// The largest frame of `reframe`, out of its number.
fn frame_limit(number: &str) -> Option<OctetTool>
    ensures tool { result ≡ frame_limit (number_in 65535 number.now) }
    ensures may { IfSome result MayRun }
{
    match number_upto(number.as_bytes(), 65_535) {
        Some(number) if number >= 4_096 => Some(OctetTool::Reframe {
            max_frame: number as u16,
        }),
        _ => None,
    }
}

/// The tool over octets that the words name.
fn octet_tool(words: &[String]) -> Option<OctetTool>
    ensures tool { result ≡ octet_tool words.now }
    ensures may { IfSome result MayRun }
{
    match words {
        [word] if word.as_str() == "show" => Some(OctetTool::Show),
        [word, number] if word.as_str() == "reframe" => frame_limit(number.as_str()),
        _ => None,
    }
}

/// Runs the tool of these words over an input, and gives the keeper back.
///
/// They are `replay`, `show` or `reframe N` with N from 4096 to 65535. Nothing is stored yet: the keeper isn't
/// asked.
pub fn run_tool<A: Source, B: Sink, K: Keeper>(
    alloc: Global,
    words: &[String],
    input: &mut A,
    out: &mut B,
    keeper: K,
) -> (Status, Option<K>)
    ensures usage { is_replay words.now ≡ false → octet_tool words.now ≡ None → (result.0 ≡ Status.Usage) × (input.new ≡ input.old) × (out.new ≡ out.old) }
    ensures replays { is_replay words.now ≡ true → Replays (A.left input.old) (A.left input.new) (B.held out.old) (B.held out.new) result.0 }
    ensures octets { (tool : AnyTool) → is_replay words.now ≡ false → octet_tool words.now ≡ Some tool
        → OctetsTold tool (A.left input.old) (A.left input.new) (B.held out.old) (B.held out.new) result.0 }
    ensures keeper { result.1 ≡ Some keeper }
    ensures read_to_end { result.0 ≡ Status.Ok → IsAtEnd (A.left input.new) }
    ensures read_cause { ReadCause (A.faults input.old) (A.faults input.new) result.0 }
    ensures write_cause { WriteCause (B.faults out.old) (B.faults out.new) result.0 }
{
    if is_replay(words) {
        let (ended, keeper) = run_replay(alloc, keeper, input, out);
        return (Status::of(ended), Some(keeper));
    }
    match octet_tool(words) {
        Some(tool) => {
            let ended = run_octets(alloc, tool, input, out);
            (Status::of_octets(ended), Some(keeper))
        }
        None => (Status::Usage, Some(keeper)),
    }
}
