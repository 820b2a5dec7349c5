ghost use Rattle.std.specs.Prelude.{◌≡◌, IfOk, map};
ghost use Rattle.ot_model.specs.Programs.{arrays_of};
ghost use Rattle.ot_book.specs.declared.told.Told.TheVariants.{Lost, Refused};
ghost use Rattle.ot_book.specs.Faults.{told_by_store, told_by_program, told_by_check};

use crate::code::Code;
use ot_check::{CheckFault, Offence};
use ot_model::ArrayShape;
use ot_program::ProgramFault;
use ot_store::{StoreFault, StoreRefusal};
use std::alloc::{AllocError, AllocFailed, Global};

/// What a tenant is told of one request.
#[derive(Debug, Drop)]
pub enum Told {
    Accepted,
    /// The numbers that were asked for.
    Cells(Vec<u64>),
    /// The arrays in order of creation.
    Arrays(Vec<ArrayShape>),
    /// The units of all done replies.
    Used(u64),
    /// Executed task statements, units, and the numbers of each section shown after the run.
    Done(u32, u32, Vec<Vec<u64>>),
    Refused(Code),
    /// The program could race: its first offence, and the number of the statement, from 1.
    Offends(Offence, u32),
    /// 508: memory ran out.
    Lost,
}

impl Told {
    ghost use Rattle.ot_book.specs.ReplyView.{told_of};

    /// An equal one.
    pub fn copy(&self, alloc: Global) -> Result<Told, AllocError>
        ensures { IfOk result (λ copy. told_of copy ≡ told_of self.now) }
    {
        Ok(match self {
            Told::Accepted => Told::Accepted,
            Told::Cells(values) => Told::Cells(Vec::from_slice(alloc, values.as_slice())?),
            Told::Arrays(arrays) => Told::Arrays(copy_arrays(alloc, arrays)?),
            Told::Used(units) => Told::Used(*units),
            Told::Done(tasks, units, shows) => {
                Told::Done(*tasks, *units, copy_shows(alloc, shows)?)
            }
            Told::Refused(code) => Told::Refused(*code),
            Told::Offends(offence, place) => Told::Offends(*offence, *place),
            Told::Lost => Told::Lost,
        })
    }
}

impl From<AllocError> for Told {
    ghost from_gives = { λ _ told. told ≡ Lost };

    fn from(_error: AllocError) -> Told {
        Told::Lost
    }
}

impl<T: Drop> From<AllocFailed<T>> for Told {
    ghost from_gives = { λ _ told. told ≡ Lost };

    fn from(_error: AllocFailed<T>) -> Told {
        Told::Lost
    }
}

impl From<StoreRefusal> for Told {
    ghost use Rattle.ot_book.specs.declared.code.Code.TheVariants.{Store};

    ghost from_gives = { λ refusal told. told ≡ Refused (Store refusal) };

    fn from(refusal: StoreRefusal) -> Told {
        Told::Refused(Code::Store(refusal))
    }
}

impl From<StoreFault> for Told {
    ghost from_gives = { λ fault told. told ≡ told_by_store fault };

    fn from(fault: StoreFault) -> Told {
        match fault {
            StoreFault::Memory => Told::Lost,
            StoreFault::Refused(refusal) => Told::Refused(Code::Store(refusal)),
        }
    }
}

impl From<ProgramFault> for Told {
    ghost from_gives = { λ fault told. told ≡ told_by_program fault };

    fn from(fault: ProgramFault) -> Told {
        match fault {
            ProgramFault::Memory => Told::Lost,
            ProgramFault::Refused(refusal) => Told::Refused(Code::Program(refusal)),
        }
    }
}

impl From<CheckFault> for Told {
    ghost from_gives = { λ fault told. told ≡ told_by_check fault };

    fn from(fault: CheckFault) -> Told {
        match fault {
            CheckFault::Memory => Told::Lost,
            CheckFault::Offence(offence, place) => Told::Offends(offence, place),
        }
    }
}

/// Equal arrays.
fn copy_arrays(alloc: Global, arrays: &Vec<ArrayShape>) -> Result<Vec<ArrayShape>, AllocError>
    ensures { IfOk result (λ copy. arrays_of copy.items ≡ arrays_of arrays.now.items) }
{
    let mut copy = Vec::with_capacity(alloc, arrays.len())?;
    for array in arrays {
        copy.push(ArrayShape {
            name: String::from_str(alloc, array.name.as_str())?,
            len: array.len,
        })?;
    }
    Ok(copy)
}

/// Equal lists.
fn copy_shows(alloc: Global, shows: &Vec<Vec<u64>>) -> Result<Vec<Vec<u64>>, AllocError>
    ensures { IfOk result (λ copy. map (λ s. s.items) copy.items ≡ map (λ s. s.items) shows.now.items) }
{
    let mut copy = Vec::with_capacity(alloc, shows.len())?;
    for show in shows {
        copy.push(Vec::from_slice(alloc, show.as_slice())?)?;
    }
    Ok(copy)
}
