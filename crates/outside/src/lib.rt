//! What a program asks of the world outside it: a folder of files and streams to write to.
//!
//! It stands on no other crate of the repository. A `Folder` is seen as the files that it holds and the names that
//! were called, where it tells them, and a count of its faults; a `Sink` as the bytes that it took. The main promise:
//! an object's count of faults rises exactly in a call that answers `Failed`, and after it nothing that is told has changed.
#![tactic(auto)]

mod disk_folder;
mod folder;
mod memory_folder;
mod memory_sink;
mod sink;
mod std_sink;

pub use disk_folder::DiskFolder;
pub use folder::{Folder, FolderFault};
pub use memory_folder::MemoryFolder;
pub use memory_sink::MemorySink;
pub use sink::{OutFault, Sink};
pub use std_sink::StdSink;
