//! The program's top call: words, input and output become one run.
#![tactic(auto)]

mod app;
mod check;
mod help;
mod history;
mod input;
mod laws;
mod made;
mod parts;
mod refusal;
mod request;
mod status;
mod threads;

pub use app::user_plain;
pub use help::mistake;
pub use laws::{
    constants_are_those_of_windows, one_log, one_output, one_refusal,
    runs_are_listed_by_their_movers,
};
pub use status::Status;
pub use threads::{user_main, user_threads};

/// The traits of the outside, their forms in memory, and the adapters over std's reader and writer.
pub mod io {
    pub use input_hints::Kept;
    pub use user_io::{
        Gate, MemSink, MemSource, NoGate, Put, Sink, Source, StdSink, StdSource, Took, write_all,
    };
}
