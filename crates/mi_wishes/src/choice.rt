//! What becomes of a feature.

/// What is asked of a feature (ADDLOCAL, REMOVE and REINSTALL Properties).
#[derive(Clone, Copy)]
pub enum Request {
    /// It is to be installed.
    Local,
    /// It is to be removed.
    Absent,
    /// It is to be repaired.
    Reinstall,
}

/// What becomes of a feature.
#[derive(Clone, Copy)]
pub struct FeatureChoice {
    /// What is asked of it.
    pub request: Option<Request>,
    /// Whether it is installed after the run.
    pub local_after: bool,
}
