//! What the program says of itself.

/// The answer to `--help`.
pub(crate) const HELP: &str = "\
usage: amqp_broker WORDS..

  replay       runs the broker over a written trace, from standard input to standard output
  show         prints a line for each unit of the octets of one direction of a connection
  reframe N    lays the same assemblies in frames of at most N octets, 4096 to 65535
  --help       shows these lines
  --version    shows the program's name and version

The process ends with the number of its status, 0 where all went well. Another status is
named on standard error. README.md has the form of a trace, and the statuses.
";

/// The answer to `--version`.
pub(crate) const VERSION: &str = "amqp_broker 0.1.0\n";
