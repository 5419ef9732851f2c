//! A tool that takes lines: what it answers to each, and how a refusal is named.
ghost use Rattle.std.specs.Prelude.{◌≡◌, ℕ, ◌++◌, List, Bool, IfOk};
ghost use Rattle.line_runs.specs.Lines.{LineStep};
ghost use Rattle.line_runs.specs.Tool.{Grows, StepsBy};

use octet_reading::{NoMemory, Octets};
use std::alloc::Global;

/// Why a line breaks its form, in the order in which the reasons are tried.
#[derive(Clone, Copy, Debug, PartialEq, Eq)]
pub enum TraceWhy {
    /// More than 131,200 octets before the line's LF.
    TooLong,
    /// Another word, or another count of words.
    Unknown,
    /// No decimal number, or one out of its range.
    BadNumber,
    /// No octets in hex.
    BadHex,
    /// A connection that isn't there.
    NoSuchConnection,
    /// A connection number that is in use.
    InUse,
}

/// Why a tool didn't take a line. The run ends with it, and the tool is only closed.
#[derive(Clone, Copy, Debug, PartialEq, Eq)]
pub enum Stop {
    BadLine(TraceWhy),
    /// The line's form is right, and what it asks for isn't built yet.
    Unbuilt,
    NoMemory,
}

/// What takes the lines of an input one by one.
///
/// Its output is a function of the tool as it was opened, of the lines so far, and of what its store
/// answered: contracts speak of a tool by the lines that it took, the newest first, and not by its state. A line may
/// lack its law: then nothing is said of it, nor of what follows.
pub trait LineTool {
    ghost use Rattle.std.specs.Prelude.{◌≡◌, ℕ, ◌++◌, List, Bool, IfOk};
    ghost use Rattle.line_runs.specs.Lines.{LineStep};
    ghost use Rattle.line_runs.specs.Tool.{Grows, StepsBy};

    /// The answers that the tool's store gave so far.
    ghost given: { Self → List Bool };

    /// A tool stands for an opened one and the lines that it took since.
    ghost stands: { Self → Self → List (List ℕ) → Type 0 };

    /// What holds of a tool at each moment, by the tool as it was opened: what became of its store.
    ghost rests: { Self → Self → Type 0 };

    /// What an opened tool does with a line, after others, by all that its store answers in the run.
    ghost step: { Self → List Bool → List (List ℕ) → List ℕ → LineStep };

    /// What it writes when the input ends well.
    ghost closing: { Self → List Bool → List (List ℕ) → List ℕ };

    /// Takes a line, without its LF, and gives what is to be written for it.
    fn take(&mut self, alloc: Global, line: &[u8]) -> Result<Octets, Stop>
        ensures grows { Grows (given self.old) (given self.new) }
        ensures steps { (opened : Self) (past : List (List ℕ)) → stands self.old opened past
            → StepsBy (step opened) (stands self.new opened) (given self.new) past line.now result }
        ensures rests { (opened : Self) → rests self.old opened → rests self.new opened };

    /// Gives what is to be written at the end of the input.
    fn close(&self, alloc: Global) -> Result<Octets, NoMemory>
        ensures closes { (opened : Self) (past : List (List ℕ)) → stands self.now opened past
            → IfOk result (λ text. (later : List Bool) → text ≡ closing opened (given self.now ++ later) past) };
}
