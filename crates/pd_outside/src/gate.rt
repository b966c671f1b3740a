//! The gate that packages pass.

/// A gate that each package of a job enters before it is made. It returns nothing, and changes nothing that a clause sees. Tests
/// hold workers with it.
pub trait Gate {
    /// Lets a package through that is about to be made. Packages are counted from 0.
    fn enter(&self, package: u64);
}

/// The gate that holds nobody.
#[derive(Clone, Copy, Debug, Default, PartialEq, Eq)]
pub struct OpenGate;

impl Gate for OpenGate {
    fn enter(&self, _package: u64) {}
}
