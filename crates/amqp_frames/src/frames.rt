//! Assemblies laid in frames.
ghost use Rattle.std.specs.Prelude.{◌≡◌, ℕ, List, ◌++◌, ◌+◌, ◌-◌, ◌<◌, ◌≤◌, ◌^◌, suc, length, OnOk, OnErr};
ghost use Rattle.amqp_frames.specs.Back.{MayCome, ComesBack};
ghost use Rattle.amqp_frames.specs.Cut.{Frame};
ghost use Rattle.amqp_frames.specs.Frames.{frame, frames_from, laid_segment, last_mark, laid_segments, laid};

use crate::assembly::{Assembly, Segment};
use octet_reading::NoMemory;
use std::alloc::Global;

/// The octets of a frame's header.
const HEADER: u16 = 12;

/// The marks of the first and the last segment, and of the first and the last frame of one.
const FIRST_SEGMENT: u8 = 8;

const LAST_SEGMENT: u8 = 4;

const FIRST_FRAME: u8 = 2;

const LAST_FRAME: u8 = 1;

/// Appends an assembly on a channel, each segment in as few frames as fit; a frame has so many octets at
/// most, its header included. Without memory nothing is appended.
pub fn write_frames(
    alloc: Global,
    channel: u16,
    assembly: &Assembly,
    max_frame: u16,
    out: &mut Vec<u8>,
) -> Result<(), NoMemory>
    requires { 4096 ≤ max_frame }
    ensures ok { OnOk result (out.new.items ≡ out.old.items ++ laid channel assembly.now max_frame) }
    // What was laid comes back, whatever whole frames stand before it.
    ensures back { (limits : ℕ → ℕ) (first : ℕ) (frames : List Frame) → MayCome limits first frames channel assembly.now max_frame
        → ComesBack limits first frames channel assembly.now (laid channel assembly.now max_frame) }
    ensures err { OnErr result (out.new.items ≡ out.old.items) }
{
    let mut octets = Vec::new(alloc);
    put_segments(
        &mut octets,
        max_frame - HEADER,
        FIRST_SEGMENT,
        channel,
        assembly.as_slice(),
    )?;
    out.extend_from_slice(octets.as_slice())?;
    Ok(())
}

/// Puts segments, the first with a mark. Without memory a part of them may stand there.
fn put_segments(
    out: &mut Vec<u8>,
    most: u16,
    first: u8,
    channel: u16,
    segments: &[Segment],
) -> Result<(), NoMemory>
    requires most { (1 ≤ most) × (most + 12 < 2 ^ 16) }
    requires first { first ≤ 8 }
    ensures { OnOk result (out.new.items ≡ out.old.items ++ laid_segments most first channel segments.now) }
{
    match segments.split_first() {
        None => Ok(()),
        Some((segment, rest)) => {
            let ends = first + last_mark(rest);
            put_segment(
                out,
                most,
                ends,
                segment.kind,
                channel,
                segment.octets.as_slice(),
            )?;
            put_segments(out, most, 0, channel, rest)
        }
    }
}

/// The mark of a segment that so many follow.
fn last_mark(rest: &[Segment]) -> u8
    ensures mark { result ≡ last_mark rest.now }
    ensures low { result ≤ 4 }
{
    match rest.split_first() {
        None => LAST_SEGMENT,
        Some(_) => 0,
    }
}

/// Puts the frames of a segment.
fn put_segment(
    out: &mut Vec<u8>,
    most: u16,
    ends: u8,
    kind: u8,
    channel: u16,
    octets: &[u8],
) -> Result<(), NoMemory>
    requires most { (1 ≤ most) × (most + 12 < 2 ^ 16) }
    requires ends { ends ≤ 12 }
    ensures { OnOk result (out.new.items ≡ out.old.items ++ laid_segment most ends kind channel octets.now) }
{
    let mut first = FIRST_FRAME;
    let mut rest = octets;
    for _ in 0..octets.len() {
        if rest.len() <= most as usize {
            return put_frame(out, ends + first + LAST_FRAME, kind, channel, rest);
        }
        let (payload, after) = rest.split_at(most as usize);
        put_frame(out, ends + first, kind, channel, payload)?;
        first = 0;
        rest = after;
    }
    put_frame(out, ends + first + LAST_FRAME, kind, channel, rest)
}

/// Puts a frame.
fn put_frame(
    out: &mut Vec<u8>,
    flags: u8,
    kind: u8,
    channel: u16,
    payload: &[u8],
) -> Result<(), NoMemory>
    requires { length payload.now + 12 < 2 ^ 16 }
    ensures { OnOk result (out.new.items ≡ out.old.items ++ frame flags kind channel payload.now) }
{
    let [high, low] = (payload.len() as u16 + HEADER).to_be_bytes();
    let [upper, lower] = channel.to_be_bytes();
    let track = if kind == 0 { 0 } else { 1 };
    let header = [flags, kind, high, low, 0, track, upper, lower, 0, 0, 0, 0];
    out.extend_from_slice(header.as_slice())?;
    out.extend_from_slice(payload)?;
    Ok(())
}
