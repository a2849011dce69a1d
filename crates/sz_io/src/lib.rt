//! The outside of the program: files, an output, a network, a listener, a clock and random bytes, each as a
//! trait that counts its faults and may tell what it holds, and each with a form in memory that fails at the
//! calls it is told to.
#![tactic(auto)]

mod clock;
mod entropy;
mod exchange;
mod folder;
mod listener;
mod memory_folder;
mod memory_sink;
mod net;
mod ongoing;
mod plan;
mod read;
mod rest;
mod script;
mod script_connection;
mod script_listener;
mod script_net;
mod set_clock;
mod set_entropy;
mod sink;

pub use clock::Clock;
pub use entropy::Entropy;
pub use exchange::{Exchange, ExchangeEnd};
pub use folder::Folder;
pub use listener::Listener;
pub use memory_folder::{Files, MemoryFolder};
pub use memory_sink::MemorySink;
pub use net::Net;
pub use plan::FaultPlan;
pub use read::{Found, read_whole};
pub use script::{Script, Scripts};
pub use script_listener::ScriptListener;
pub use script_net::ScriptNet;
pub use set_clock::{SetClock, Times};
pub use set_entropy::SetEntropy;
pub use sink::Sink;
