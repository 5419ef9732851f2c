//! The lanes of a connection, and how a change of them is taken back.
ghost use Rattle.std.specs.Prelude.{◌≡◌, ◌==◌, ◌+◌, ◌<◌, ◌≤◌, ℕ, [], length, OnOk, IfOk, OnErr, vec_len, if◌then◌else◌};
ghost use Rattle.amqp_frames.specs.Assembly.{IsPlaced};
ghost use Rattle.amqp_frames.specs.Lane.{empty_lane, marked, pushed, lane_segments};
ghost use Rattle.amqp_frames.specs.Touched.{lane_in, lane_number, undone, InReach};

use crate::assembly::Assembly;
use crate::header::FrameHeader;
use crate::lane::{Lane, Mark};
use octet_reading::NoMemory;
use std::alloc::Global;

/// What a lane was before it changed.
#[derive(Clone, Copy, Debug)]
pub(crate) struct Touch {
    pub(crate) lane: usize,
    /// The type of the segment that may have grown, and its octets before.
    pub(crate) kind: u8,
    pub(crate) len: usize,
    pub(crate) mark: Mark,
}

/// The lane of a frame: two for each channel, by the track.
pub(crate) fn lane_number(header: FrameHeader) -> usize
    ensures { result ≡ lane_number header }
{
    2 * header.channel as usize + header.track as usize
}

/// What is known of a lane.
pub(crate) fn mark_in(lanes: &Vec<Lane>, number: usize) -> Mark
    ensures { result ≡ (lane_in lanes.now.items number).mark }
{
    match lanes.get(number) {
        Some(lane) => lane.mark,
        None => Mark::NONE,
    }
}

/// Makes so many lanes be there; those that are added are empty.
fn make_lanes(alloc: Global, lanes: &mut Vec<Lane>, count: usize) -> Result<(), NoMemory>
    ensures there { OnOk result (count ≤ vec_len lanes.new) }
    ensures more { vec_len lanes.old ≤ vec_len lanes.new }
    ensures same { (i : ℕ) → lane_in lanes.new.items i ≡ lane_in lanes.old.items i }
{
    while lanes.len() < count {
        lanes.push(Lane::new(alloc))?;
    }
    Ok(())
}

/// Notes a frame's header in its lane.
pub(crate) fn begin(
    alloc: Global,
    lanes: &mut Vec<Lane>,
    log: &mut Vec<Touch>,
    header: FrameHeader,
    at: u64,
) -> Result<(), NoMemory>
    ensures began { OnOk result ((i : ℕ) → lane_in lanes.new.items i
        ≡ (if i == lane_number header then record (lane_in lanes.old.items i) { mark = marked (lane_in lanes.old.items i).mark header at } else lane_in lanes.old.items i)) }
    ensures undone { (i : ℕ) → undone log.new.items (lane_in lanes.new.items) i ≡ undone log.old.items (lane_in lanes.old.items) i }
    ensures reach { InReach log.old.items lanes.old.items → InReach log.new.items lanes.new.items }
{
    let number = lane_number(header);
    make_lanes(alloc, lanes, number + 1)?;
    let lane = &mut lanes[number];
    let touch = Touch {
        lane: number,
        kind: header.kind,
        len: lane.len(header.kind),
        mark: lane.mark,
    };
    log.push(touch)?;
    lane.mark = lane.mark.with(header, at);
    Ok(())
}

/// Puts octets of a frame's payload to its lane.
pub(crate) fn gather(
    alloc: Global,
    lanes: &mut Vec<Lane>,
    log: &mut Vec<Touch>,
    header: FrameHeader,
    octets: &[u8],
) -> Result<(), NoMemory>
    ensures gathered { OnOk result ((i : ℕ) → lane_in lanes.new.items i
        ≡ (if i == lane_number header then pushed header.kind octets.now (lane_in lanes.old.items i) else lane_in lanes.old.items i)) }
    ensures undone { (i : ℕ) → undone log.new.items (lane_in lanes.new.items) i ≡ undone log.old.items (lane_in lanes.old.items) i }
    ensures reach { InReach log.old.items lanes.old.items → InReach log.new.items lanes.new.items }
{
    let number = lane_number(header);
    make_lanes(alloc, lanes, number + 1)?;
    let lane = &mut lanes[number];
    let touch = Touch {
        lane: number,
        kind: header.kind,
        len: lane.len(header.kind),
        mark: lane.mark,
    };
    log.push(touch)?;
    lane.push(alloc, header.kind, octets)
}

/// Takes a whole assembly out of its lane.
pub(crate) fn finish(
    alloc: Global,
    lanes: &mut Vec<Lane>,
    header: FrameHeader,
) -> Result<Assembly, NoMemory>
    ensures taken { IfOk result (λ assembly. assembly ≡ lane_segments header.track (lane_in lanes.old.items (lane_number header))) }
    ensures placed { IfOk result (λ assembly. IsPlaced assembly) }
    ensures emptied { OnOk result ((i : ℕ) → lane_in lanes.new.items i ≡ (if i == lane_number header then empty_lane else lane_in lanes.old.items i)) }
    ensures err { OnErr result ((i : ℕ) → lane_in lanes.new.items i ≡ lane_in lanes.old.items i) }
    ensures more { vec_len lanes.old ≤ vec_len lanes.new }
{
    let number = lane_number(header);
    make_lanes(alloc, lanes, number + 1)?;
    let lane = &mut lanes[number];
    let assembly = lane.assembly(alloc, header.track)?;
    *lane = Lane::new(alloc);
    Ok(assembly)
}

/// Takes all noted changes back, the newest first.
pub(crate) fn undo(lanes: &mut Vec<Lane>, log: &mut Vec<Touch>)
    requires { InReach log.old.items lanes.old.items }
    ensures { (i : ℕ) → lane_in lanes.new.items i ≡ undone log.old.items (lane_in lanes.old.items) i }
{
    while let Some(touch) = log.pop() {
        lanes[touch.lane].restore(touch.kind, touch.len, touch.mark);
    }
}
