use ot_program::Refusal;
use ot_store::StoreRefusal;

/// Why a request was refused, where its program doesn't offend.
#[derive(Clone, Copy, Debug, PartialEq, Eq)]
pub enum Code {
    /// 410: the line is no JSON, no UTF-8, or nested deeper than 127.
    NotJson,
    /// 411: the line is JSON, but no request.
    NotRequest,
    /// 412 to 416: the arrays refuse it.
    Store(StoreRefusal),
    /// The code of the program's refusal.
    Program(Refusal),
}

impl Code {
    ghost use Rattle.std.specs.Prelude.{◌≡◌};
    ghost use Rattle.ot_book.specs.Codes.{code_number};

    /// The number that a client is told.
    pub fn number(self) -> u32
        ensures { result ≡ code_number self }
    {
        match self {
            Code::NotJson => 410,
            Code::NotRequest => 411,
            Code::Store(refusal) => refusal.code(),
            Code::Program(refusal) => refusal.code(),
        }
    }
}
