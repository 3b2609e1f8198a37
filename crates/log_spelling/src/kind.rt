//! The kinds of records, and the word that each begins with.

ghost use Rattle.std.specs.Prelude.{◌≡◌, bytes_eq};
ghost use Rattle.log_spelling.specs.Kinds.{kind_of, word_of};

/// The kinds of records that a mission log may have, besides notes.
#[derive(Clone, Copy, Debug, PartialEq, Eq)]
pub enum Kind {
    /// `mission`: the version, the last tick and the width of slices.
    Mission,
    /// `signal`: a signal and its declared range.
    Signal,
    /// `var`: a variable and its declared range.
    Variable,
    /// `deriv`: a signal and its rate.
    Deriv,
    /// `bound`: a measured range of a signal over some ticks.
    Bound,
    /// `at`: a measured range of a signal at one tick.
    At,
    /// `eval`: a signal at an uncertain time.
    Eval,
    /// `delay`: a signal that follows another one by an uncertain delay.
    Delay,
    /// `beacon`: a mark in the plane.
    Beacon,
    /// `range`: a distance of two points in the plane.
    Range,
    /// `range3`: a distance of two points in space.
    Range3,
    /// `constell`: a point that is one of the marks.
    Constell,
    /// `ping`: a distance of the robot to a mark, at an uncertain time.
    Ping,
    /// `expr`: a relation that holds at every tick.
    Expr,
    /// `exprv`: a relation of variables.
    Exprv,
    /// `revisit`: a question about loops.
    Revisit,
    /// `settle`: the end of a section.
    Settle,
    /// `cut`: a boundary of slices.
    Cut,
}

impl Kind {
    /// Every kind, once.
    pub const ALL: [Kind; 18] = [
        Kind::Mission,
        Kind::Signal,
        Kind::Variable,
        Kind::Deriv,
        Kind::Bound,
        Kind::At,
        Kind::Eval,
        Kind::Delay,
        Kind::Beacon,
        Kind::Range,
        Kind::Range3,
        Kind::Constell,
        Kind::Ping,
        Kind::Expr,
        Kind::Exprv,
        Kind::Revisit,
        Kind::Settle,
        Kind::Cut,
    ];

    /// The kind that a word stands for. Case counts.
    #[tactic(auto, unfolding(crate::specs::Kinds::kind_of))]
    pub fn of(word: &[u8]) -> Option<Kind>
        ensures { result ≡ kind_of word.now }
    {
        Kind::ALL.iter().copied().find(|kind| kind.is_spelled(word))
    }

    // Whether a word stands for the kind.
    fn is_spelled(&self, word: &[u8]) -> bool
        ensures { result ≡ bytes_eq word.now (word_of self.now) }
    {
        word == self.word()
    }

    /// The word that stands for the kind.
    pub fn word(self) -> &'static [u8]
        ensures { result.now ≡ word_of self }
    {
        match self {
            Kind::Mission => b"mission",
            Kind::Signal => b"signal",
            Kind::Variable => b"var",
            Kind::Deriv => b"deriv",
            Kind::Bound => b"bound",
            Kind::At => b"at",
            Kind::Eval => b"eval",
            Kind::Delay => b"delay",
            Kind::Beacon => b"beacon",
            Kind::Range => b"range",
            Kind::Range3 => b"range3",
            Kind::Constell => b"constell",
            Kind::Ping => b"ping",
            Kind::Expr => b"expr",
            Kind::Exprv => b"exprv",
            Kind::Revisit => b"revisit",
            Kind::Settle => b"settle",
            Kind::Cut => b"cut",
        }
    }
}
