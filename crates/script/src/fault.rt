// Why a row was not done.
ghost use Rattle.std.specs.Prelude.{◌≡◌};
ghost use Rattle.script.specs.declared.fault.Fault.TheVariants as fault;

use crate::mistake::Mistake;
use std::alloc::{AllocError, AllocFailed};
use std::io;

#[derive(Debug, Drop)]
pub enum Fault {
    // The row is answered with this, and the run goes on.
    Mistake(Mistake),
    // The stream or the memory failed, and the run ends.
    Io(io::Error),
}

impl From<Mistake> for Fault {
    ghost from_gives = { λ mistake r. r ≡ fault.Mistake mistake };

    fn from(mistake: Mistake) -> Fault {
        Fault::Mistake(mistake)
    }
}

impl From<io::Error> for Fault {
    ghost from_gives = { λ error r. r ≡ fault.Io error };

    fn from(error: io::Error) -> Fault {
        Fault::Io(error)
    }
}

impl From<AllocError> for Fault {
    ghost from_gives = { λ _ r. (error : _) × (r ≡ fault.Io error) };

    fn from(error: AllocError) -> Fault {
        Fault::Io(io::Error::from(error))
    }
}

impl<T: Drop> From<AllocFailed<T>> for Fault {
    ghost from_gives = { λ _ r. (error : _) × (r ≡ fault.Io error) };

    fn from(failed: AllocFailed<T>) -> Fault {
        Fault::Io(io::Error::from(AllocError::from(failed)))
    }
}
