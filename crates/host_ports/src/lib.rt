//! The program's host: standard streams as sources and sinks, the words of the command line, and the directory of the
//! folder and of the sockets.
#![tactic(auto)]

mod argument_words;
mod host_folders;
mod standard_descriptors;
mod standard_streams;
mod zeros;

pub use argument_words::host_words;
pub use host_folders::{DIRECTORY, MOST_PATH_BYTES, directory_path, folder_path, sockets_path};
pub use standard_descriptors::take_descriptors;
pub use standard_streams::{InputSource, OutputSink};
