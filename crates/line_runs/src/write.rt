//! Writing whole pieces to a sink that may take a part of them.
ghost use Rattle.std.specs.Prelude.{◌≡◌, ◌≤◌};
ghost use Rattle.line_runs.specs.Write.{WritesPiece, WrittenHasCause};

use outside_core::{Sink, WriteAnswer};

/// How a whole piece was written.
#[derive(Clone, Copy, Debug, PartialEq, Eq)]
pub enum Written {
    All,
    /// The sink failed; it took a front of the piece.
    Failed,
    /// The sink found no memory; it took a front of the piece.
    NoMemory,
}

/// Writes a piece whole, over as many calls as the sink wants.
pub fn write_all<B: Sink>(out: &mut B, piece: &[u8]) -> Written
    ensures moves { WritesPiece (B.held out.old) (B.held out.new) piece.now result }
    ensures cause { WrittenHasCause (B.faults out.old) (B.faults out.new) result }
{
    let mut rest = piece;
    while !rest.is_empty() {
        match out.write(rest) {
            WriteAnswer::Took(count) => rest = &rest[count..],
            WriteAnswer::Failed => return Written::Failed,
            WriteAnswer::NoMemory => return Written::NoMemory,
        }
    }
    Written::All
}
