//! How much room a type takes.

/// In cells, one for each scalar, and in bytes as x86-64 has it.
#[derive(Clone, Copy, Debug, PartialEq, Eq)]
pub struct Extent {
    pub cells: u32,
    pub bytes: u64,
    pub align: u32,
}

impl Extent {
    pub const EMPTY: Extent = Extent {
        cells: 0,
        bytes: 0,
        align: 1,
    };

    /// Of one scalar.
    pub fn scalar(bytes: u32) -> Extent {
        Extent {
            cells: 1,
            bytes: u64::from(bytes),
            align: bytes,
        }
    }

    /// Of so many of them, one after another.
    pub fn times(self, count: u64) -> Option<Extent> {
        let cells = u64::from(self.cells).checked_mul(count)?;
        let cells = u32::try_from(cells).ok()?;
        let bytes = self.bytes.checked_mul(count)?;
        Some(Extent {
            cells,
            bytes,
            align: self.align,
        })
    }

    /// With another one behind it, and where that begins.
    pub fn followed(self, other: Extent) -> Option<Extent> {
        let cells = self.cells.checked_add(other.cells)?;
        let bytes = aligned(self.bytes, other.align)?;
        let bytes = bytes.checked_add(other.bytes)?;
        Some(Extent {
            cells,
            bytes,
            align: self.align.max(other.align),
        })
    }

    /// In one place with another one.
    pub fn over(self, other: Extent) -> Extent {
        Extent {
            cells: self.cells.max(other.cells),
            bytes: self.bytes.max(other.bytes),
            align: self.align.max(other.align),
        }
    }

    /// In one place with another one, each with cells of its own.
    pub fn beside(self, other: Extent) -> Option<Extent> {
        let cells = self.cells.checked_add(other.cells)?;
        Some(Extent {
            cells,
            bytes: self.bytes.max(other.bytes),
            align: self.align.max(other.align),
        })
    }

    /// With a cell for each byte behind its own.
    pub fn with_bytes(self) -> Option<Extent> {
        let more = u32::try_from(self.bytes).ok()?;
        let cells = self.cells.checked_add(more)?;
        Some(Extent {
            cells,
            bytes: self.bytes,
            align: self.align,
        })
    }

    /// With what it needs behind it so that another one may follow.
    pub fn closed(self) -> Option<Extent> {
        let bytes = aligned(self.bytes, self.align)?;
        Some(Extent {
            cells: self.cells,
            bytes,
            align: self.align,
        })
    }
}

/// The next number of bytes at which what is so aligned may begin.
fn aligned(bytes: u64, align: u32) -> Option<u64> {
    let align = u64::from(align);
    if align == 0 {
        return Some(bytes);
    }
    let over = bytes % align;
    if over == 0 {
        Some(bytes)
    } else {
        bytes.checked_add(align - over)
    }
}
