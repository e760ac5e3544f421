//! Unformatted records in files: bytes as a list of frames, and values as bytes (ISO/IEC 1539-1:2004, 9.1.2).
#![tactic(auto)]

mod append;
mod backspace;
mod laws;
mod length;
mod read;
mod value;

pub use append::append_frame;
pub use backspace::backspace_frame;
pub use laws::{frames_are_found, values_come_back};
pub use read::{FrameRead, read_frame};
pub use value::{get_value, put_value};
