//! Why a text is not read.

ghost use Rattle.std.specs.Prelude.{◌≡◌};

use tube_io::NoMemory;

/// Why a text is not read as a bundle.
#[derive(Clone, Copy, Debug, PartialEq, Eq)]
pub enum BundleFault {
    /// It is no bundle's text.
    Form,
    /// Memory was refused.
    NoMemory,
}

impl From<NoMemory> for BundleFault {
    ghost use Rattle.bundle_reader.specs.declared.fault.BundleFault.TheVariants as fault;

    ghost from_gives = { λ _ e. e ≡ fault.NoMemory };

    fn from(_error: NoMemory) -> BundleFault {
        BundleFault::NoMemory
    }
}
