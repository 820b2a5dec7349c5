//! Lines of a stream of bytes, however its bytes are read.
#![tactic(auto)]

mod goodbye;
mod lines;
mod listener;
mod reader;
mod source;

pub use goodbye::is_bye;
pub use lines::{Bounds, Heard, LineFault, Lines};
pub use listener::{Ended, Listener, listen};
pub use reader::Reading;
pub use source::{Failed, Source};
