//! The bench of the program.

use engine::Engine;

/// The timelines that a script has made, each over the structure of its kind, and the block that is being read.
pub type Bench = timelines::Bench<Engine>;
