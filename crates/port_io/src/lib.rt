//! The ports that a session reads its script from and writes its replies to.
#![tactic(auto)]

mod console;
mod file;
mod memory;
mod port;
mod settled;
mod source;
mod stream;
mod words;

pub use console::{ConsolePort, Printed, console_port};
pub use file::{Created, FilePort, Opened, file_port};
pub use memory::{MemPort, mem_port};
pub use port::{Port, PortBox, PortFault};
pub use source::{Sink, Source};
pub use stream::StreamPort;
pub use words::{Status, WordList};
