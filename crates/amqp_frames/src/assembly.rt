//! Assemblies: the segments that stand for one unit (AMQP 0-10, "transport", "assemblies, segments and frames").
ghost use Rattle.std.specs.Prelude.{◌≡◌, ◌++◌, ◌∷◌, [], OnOk, OnErr};

use bytes::Bytes;
use octet_reading::NoMemory;
use std::alloc::Global;
use std::marker::Model;

/// A segment: its octets without frame headers, shared.
#[derive(Debug, Drop)]
pub struct Segment {
    /// 0 for a control, 1 for a command, 2 for a header, 3 for a body.
    pub kind: u8,
    pub octets: Bytes,
}

/// The segments of one unit, in order.
#[derive(Debug, Drop)]
pub struct Assembly {
    segments: Vec<Segment>,
}

impl Model for Assembly {
    ghost use Rattle.std.specs.Prelude.{List};
    ghost use Rattle.amqp_frames.specs.declared.assembly.Segment.{Segment};

    ghost Value = { List Segment };

    ghost view = { λ a. a.segments.items };
}

impl Assembly {
    /// No segments. Takes no memory.
    pub fn new(alloc: Global) -> Assembly
        ensures { result ≡ [] }
    {
        Assembly {
            segments: Vec::new(alloc),
        }
    }

    /// Puts a segment last. Without memory it is let go, and the assembly stays.
    pub fn push(&mut self, segment: Segment) -> Result<(), NoMemory>
        ensures ok { OnOk result (self.new ≡ self.old ++ segment ∷ []) }
        ensures err { OnErr result (self.new ≡ self.old) }
    {
        self.segments.push(segment)?;
        Ok(())
    }

    /// The segments, lent.
    pub fn as_slice(&self) -> &[Segment]
        ensures { result.now ≡ self.now }
    {
        self.segments.as_slice()
    }
}
