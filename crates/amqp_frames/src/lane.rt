//! What came of the open assembly of a channel and track.
ghost use Rattle.std.specs.Prelude.{◌≡◌, ◌<◌, ◌≤◌, ◌^◌, length, IfOk, OnOk, OnErr};
ghost use Rattle.amqp_frames.specs.Assembly.{IsPlaced};
ghost use Rattle.amqp_frames.specs.Lane.{empty_lane, empty_mark, marked, pushed, octets_of, restored, lane_segments};

use crate::assembly::{Assembly, Segment};
use crate::gathered::Gathered;
use crate::header::FrameHeader;
use octet_reading::NoMemory;
use std::alloc::Global;

/// What its frames' headers said.
#[derive(Clone, Copy, Debug)]
pub(crate) struct Mark {
    /// The newest frame's header; none where no assembly is open.
    pub(crate) last: Option<FrameHeader>,
    /// The place of its first octet.
    pub(crate) at: u64,
    /// The octets of its frames' payloads.
    pub(crate) size: u32,
    /// Whether a header segment began, and a body.
    pub(crate) header: bool,
    pub(crate) body: bool,
}

impl Mark {
    /// No assembly is open.
    pub(crate) const NONE: Mark = Mark {
        last: None,
        at: 0,
        size: 0,
        header: false,
        body: false,
    };

    /// One frame more, at this place.
    pub(crate) fn with(self, header: FrameHeader, at: u64) -> Mark
        ensures { result ≡ marked self header at }
    {
        Mark {
            last: Some(header),
            at: if self.last.is_none() { at } else { self.at },
            size: self.size.saturating_add(header.payload()),
            header: self.header || header.kind == 2,
            body: self.body || header.kind == 3,
        }
    }
}

/// The octets of its segments so far, by their types.
#[derive(Drop)]
pub(crate) struct Lane {
    /// Those of the control, or of the command.
    pub(crate) first: Gathered,
    pub(crate) header: Gathered,
    pub(crate) body: Gathered,
    pub(crate) mark: Mark,
}

impl Lane {
    /// Nothing came. Takes no memory.
    pub(crate) fn new(alloc: Global) -> Lane
        ensures { result ≡ empty_lane }
    {
        Lane {
            first: Gathered::new(alloc),
            header: Gathered::new(alloc),
            body: Gathered::new(alloc),
            mark: Mark::NONE,
        }
    }

    /// How many octets of a segment of this type came.
    pub(crate) fn len(&self, kind: u8) -> usize
        ensures { result ≡ length (octets_of kind self.now) }
    {
        match kind {
            2 => self.header.len(),
            3 => self.body.len(),
            _ => self.first.len(),
        }
    }

    /// Puts octets to a segment of this type.
    pub(crate) fn push(&mut self, alloc: Global, kind: u8, octets: &[u8]) -> Result<(), NoMemory>
        ensures ok { OnOk result (self.new ≡ pushed kind octets.now self.old) }
        ensures err { OnErr result (self.new ≡ self.old) }
    {
        match kind {
            2 => self.header.push(alloc, octets),
            3 => self.body.push(alloc, octets),
            _ => self.first.push(alloc, octets),
        }
    }

    /// Takes back what came after this mark, with all octets but so many of a segment of this type.
    pub(crate) fn restore(&mut self, kind: u8, len: usize, mark: Mark)
        ensures { self.new ≡ restored kind len mark self.old }
    {
        match kind {
            2 => self.header.truncate(len),
            3 => self.body.truncate(len),
            _ => self.first.truncate(len),
        }
        self.mark = mark;
    }

    /// The assembly of this track that came, its octets shared. They stay here too.
    pub(crate) fn assembly(&mut self, alloc: Global, track: u8) -> Result<Assembly, NoMemory>
        ensures segments { IfOk result (λ assembly. assembly ≡ lane_segments track self.old) }
        ensures placed { IfOk result (λ assembly. IsPlaced assembly) }
        ensures kept { self.new ≡ self.old }
    {
        let mut assembly = Assembly::new(alloc);
        let octets = self.first.share(alloc)?;
        if track == 0 {
            assembly.push(Segment { kind: 0, octets })?;
            return Ok(assembly);
        }
        assembly.push(Segment { kind: 1, octets })?;
        if self.mark.header {
            let octets = self.header.share(alloc)?;
            assembly.push(Segment { kind: 2, octets })?;
        }
        if self.mark.body {
            let octets = self.body.share(alloc)?;
            assembly.push(Segment { kind: 3, octets })?;
        }
        Ok(assembly)
    }
}
