//! Sources and sinks of bytes that count their faults, whole texts read and written over them, the
//! making of texts piece by piece, and the gate before the turns of threads.
#![tactic(auto)]

mod gate;
mod memory;
mod reading;
mod standard;
pub mod text;
mod traits;
mod writing;

pub use gate::{Gate, NoGate};
pub use memory::{MemSink, MemSource};
pub use reading::{ReadEnd, read_all};
pub use standard::{StdSink, StdSource};
pub use traits::{Put, Sink, Source, Took};
pub use writing::{WriteFailed, write_all};
