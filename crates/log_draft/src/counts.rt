//! Running counts of what records make and take.

ghost use Rattle.std.specs.Prelude.{◌≡◌};

/// How many signals, variables, beacons, questions and read entries records make.
#[derive(Clone, Copy)]
pub struct Counts {
    pub signals: u32,
    pub variables: u32,
    pub beacons: u32,
    pub revisits: u32,
    pub feet: u32,
}

impl Counts {
    /// Nothing.
    pub fn none() -> Counts
        ensures { result ≡ record { signals = 0; variables = 0; beacons = 0; revisits = 0; feet = 0 } }
    {
        Counts {
            signals: 0,
            variables: 0,
            beacons: 0,
            revisits: 0,
            feet: 0,
        }
    }
}
