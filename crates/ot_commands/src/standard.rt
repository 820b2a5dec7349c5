//! Standard descriptors that a program was started without.
use std::fs::{File, Files};
use std::os::fd::{AsRawFd, IntoRawFd};

/// What is opened in the place of a standard descriptor. It is a folder, so nothing is read from it, and nothing written to it.
const PLACEHOLDER: &str = "/";

/// Holds, until the process ends, each of standard input, output and error that is closed, so that no file or socket that is
/// opened later gets its number, and with it what is meant for another: a read of such an input fails, and so does a write.
/// It is called before anything is opened. Where the folder can't be opened, as where no descriptor is left, nothing is held.
pub fn hold_standard<R>(rt: &R)
where
    R: Files,
    R::File: AsRawFd + IntoRawFd,
{
    for _ in 0..3 {
        let Ok(placeholder) = File::open(rt, PLACEHOLDER) else {
            return;
        };
        if placeholder.as_raw_fd() > 2 {
            return;
        }
        let _held = placeholder.into_raw_fd();
    }
}
