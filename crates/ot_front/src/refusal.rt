//! Why a connection gets no book.
ghost use Rattle.std.specs.Prelude.{◌≡◌};
ghost use Rattle.ot_front.specs.Greetings.{refusal_text};

/// Why a first line gets no book.
#[derive(Clone, Copy, Debug, PartialEq, Eq)]
pub(crate) enum Refusal {
    /// 410: the line is no JSON, or no UTF-8.
    NotJson,
    /// 411: the line is no greeting, or too long for one.
    NotGreeting,
    /// 404: there is no tenant of that name.
    Unknown,
    /// 409: another session has the tenant's book.
    Busy,
}

impl Refusal {
    /// The line that the client is told, with its LF.
    pub(crate) fn text(self) -> &'static [u8]
        ensures { result.now ≡ refusal_text self }
    {
        match self {
            Refusal::NotJson => b"[\"err\",0,410]\n",
            Refusal::NotGreeting => b"[\"err\",0,411]\n",
            Refusal::Unknown => b"[\"err\",0,404]\n",
            Refusal::Busy => b"[\"err\",0,409]\n",
        }
    }
}
