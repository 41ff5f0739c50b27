//! The program: a script is read from a source, played, and the text of its run is written to a sink. The program's
//! `main` stands in a crate of its own.
#![tactic(auto)]

mod command;
mod device;
mod finished;
mod generator;
mod no_run;
mod playing;
mod program;
mod reading;
mod service;
mod status;

pub use device::ScriptDevice;
pub use finished::Finished;
pub use generator::make_script;
pub use no_run::{NoRun, Unfit};
pub use playing::play_script;
pub use program::run_script;
pub use reading::read_script;
pub use service::ScriptService;
pub use status::Status;

// what the program is made of, by the names under which a user of it knows them
pub use vub_model::{DriveFault, Run, Setup, SetupFault};
pub use vub_script::{DeviceForm, Fault, Limit, Rule, Script, ServiceForm, script_of};
pub use vub_stream::{
    MemSink, MemSource, ReadSource, Sink, SinkError, Source, SourceError, WriteSink,
};
pub use vub_text::{print_run, print_summary};
