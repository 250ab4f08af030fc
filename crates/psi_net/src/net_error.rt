//! Why bytes give no network.

ghost use Rattle.std.specs.Prelude.{◌≡◌};
ghost use Rattle.psi_net.specs.declared.net_error.NetError.TheVariants.{OutOfMemory};

use psi_net_document::NetRefusal;
use std::alloc::{AllocError, AllocFailed};

/// Why bytes give no network.
#[derive(Clone, Copy, PartialEq, Eq, Debug)]
pub enum NetError {
    /// The bytes are refused.
    Refused(NetRefusal),
    /// An allocation for the network or for its reading failed.
    OutOfMemory,
}

impl From<AllocError> for NetError {
    ghost from_gives = { λ _ error. error ≡ OutOfMemory };

    fn from(_error: AllocError) -> NetError {
        NetError::OutOfMemory
    }
}

impl<T: Drop> From<AllocFailed<T>> for NetError {
    ghost from_gives = { λ _ error. error ≡ OutOfMemory };

    fn from(_error: AllocFailed<T>) -> NetError {
        NetError::OutOfMemory
    }
}

/// What a reading that does not allocate gives, or the return of its refusal from one that allocates.
#[macro_export]
macro_rules! judged {
    ($reading:expr) => {
        match $reading {
            Ok(value) => value,
            Err(refusal) => return Err(NetError::Refused(refusal)),
        }
    };
}
