use std::alloc::AllocError;
use thiserror::Error;

/// Why a line is bad, in the order in which the reasons are looked for (the table of reasons,
/// `specs/Reasons.antt`).
#[derive(Clone, Copy, PartialEq, Eq, Debug)]
pub enum Why {
    /// An odd byte, or a word that is none of those that are known and built.
    Word,
    /// A word that is no number, where a number is wanted.
    Number,
    /// A number out of its range, or more than there is room for.
    Range,
    /// Too few or too many words, or at the end of the text a line that is missing.
    Count,
    /// Before a line that must stand before it.
    Order,
    /// Behind a line that must stand behind it, or once more.
    Late,
    /// More bytes than a text may have, before all else.
    Long,
}

/// Why there is no script.
#[derive(Clone, Copy, Debug, Error)]
pub enum Fault {
    /// The first bad line, and the first reason that it meets.
    #[error("bad script")]
    Bad { line: u32, why: Why },
    #[error("out of memory")]
    Memory,
}

impl From<AllocError> for Fault {
    ghost use Rattle.std.specs.Prelude.{◌≡◌};
    ghost use Rattle.kn_script.specs.declared.faults.Fault.TheVariants.{Memory};

    ghost from_gives = { λ _ fault. fault ≡ Memory };

    fn from(_failed: AllocError) -> Fault {
        Fault::Memory
    }
}
