// What has a spelling as bytes.
ghost use Rattle.std.specs.Prelude.{◌≡◌, OnOk};
ghost use Rattle.payloads.specs.Form.{Form};
ghost use Rattle.payloads.specs.Reading.{Appends, Reads};

use olm_base as base;
use std::alloc::{AllocError, AllocFailed, Global};

/// Why no value was read.
#[derive(Clone, Copy, Debug)]
pub enum ReadFault {
    /// No spelling stands in front of the bytes.
    NoSpelling,
    Memory,
}

impl From<AllocError> for ReadFault {
    ghost use Rattle.std.specs.Prelude.{◌≡◌};
    ghost use Rattle.payloads.specs.declared.stored.ReadFault.TheVariants.{Memory};

    ghost from_gives = { λ _ fault. fault ≡ Memory };

    fn from(_: AllocError) -> ReadFault {
        ReadFault::Memory
    }
}

impl<T: Drop> From<AllocFailed<T>> for ReadFault {
    ghost use Rattle.std.specs.Prelude.{◌≡◌};
    ghost use Rattle.payloads.specs.declared.stored.ReadFault.TheVariants.{Memory};

    ghost from_gives = { λ _ fault. fault ≡ Memory };

    fn from(_: AllocFailed<T>) -> ReadFault {
        ReadFault::Memory
    }
}

/// What has one spelling as bytes.
pub trait Stored: Sized + Drop {
    ghost form: { Form Self };

    /// Appends the spelling. After want of memory a beginning of it may stand there.
    fn write_to(&self, out: &mut Vec<u8>) -> Result<(), base::Memory>
        ensures { OnOk result (Appends form self.now out.old.items out.new.items) };

    /// Reads the value that stands in front of the bytes, and lends the bytes behind it.
    fn read_from(alloc: Global, bytes: &[u8]) -> Result<(Self, &[u8]), ReadFault>
        ensures { Reads (form.read bytes.now) result };
}
