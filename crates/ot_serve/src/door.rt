//! The socket at which clients knock.
use crate::fault::Fault;
use std::alloc::Global;
use std::fs::Files;
use std::net::Net;
use std::os::unix::fs::FileTypeExt;
use std::os::unix::net::{UnixListener, UnixStream};
use std::{fs, io};

/// A listening socket. Its file stands beside its place until the door is opened, so that whoever
/// finds a file at the place can connect.
#[derive(Drop)]
pub(crate) struct Door {
    listener: UnixListener,
    place: String,
    beside: String,
}

impl Door {
    ghost use Rattle.std.specs.Prelude.{IfErr};
    ghost use Rattle.ot_serve.specs.Starting.{IsLate};

    /// A socket for this place. What a server that is gone has left there is removed.
    pub(crate) fn build<R: Files + Net>(rt: &R, alloc: Global, place: &str) -> Result<Door, Fault>
        ensures { IfErr result IsLate }
    {
        let Ok(place) = String::from_str(alloc, place) else {
            return Err(Fault::Memory);
        };
        let Ok(beside) = format!(in alloc; "{place}~") else {
            return Err(Fault::Memory);
        };
        if !make_way(rt, place.as_str()) || !make_way(rt, beside.as_str()) {
            return Err(Fault::SocketFailed);
        }
        match UnixListener::bind(rt, beside.as_str()) {
            Ok(listener) => Ok(Door {
                listener,
                place,
                beside,
            }),
            Err(_) => Err(Fault::SocketFailed),
        }
    }

    /// Moves the file to its place.
    pub(crate) fn open<R: Files>(&self, rt: &R) -> Result<(), Fault>
        ensures { IfErr result IsLate }
    {
        match fs::rename(rt, self.beside.as_str(), self.place.as_str()) {
            Ok(()) => Ok(()),
            Err(_) => Err(Fault::SocketFailed),
        }
    }

    pub(crate) fn listener(&self) -> &UnixListener {
        &self.listener
    }

    /// Removes the file, wherever it stands.
    pub(crate) fn remove<R: Files>(&self, rt: &R) {
        if fs::remove_file(rt, self.beside.as_str()).is_err() {
            let _ = fs::remove_file(rt, self.place.as_str());
        }
    }
}

/// Whether a socket can be made at `place`: nothing is there, or a socket at which nobody answers,
/// which is removed.
fn make_way<R: Files + Net>(rt: &R, place: &str) -> bool {
    match fs::symlink_metadata(rt, place) {
        Ok(found) => found.file_type().is_socket()
            && is_left(rt, place)
            && fs::remove_file(rt, place).is_ok(),
        Err(error) => error.kind() == io::ErrorKind::NotFound,
    }
}

/// Whether nobody listens at a socket.
fn is_left<R: Net>(rt: &R, place: &str) -> bool {
    match UnixStream::connect(rt, place) {
        Ok(_) => false,
        Err(error) => error.kind() == io::ErrorKind::ConnectionRefused,
    }
}
