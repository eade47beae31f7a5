// The names of the commands.
ghost use Rattle.std.specs.Prelude.{◌≡◌};
ghost use Rattle.las_words.specs.Verbs.{word_of, verb_by};

/// The name of a command.
#[derive(Clone, Copy, PartialEq, Eq, Debug)]
pub(crate) enum Verb {
    Sweep,
    Check,
    Audit,
    Verify,
    Spec,
    Zx,
    Bench,
}

/// All commands.
pub(crate) const VERBS: [Verb; 7] = [
    Verb::Sweep,
    Verb::Check,
    Verb::Audit,
    Verb::Verify,
    Verb::Spec,
    Verb::Zx,
    Verb::Bench,
];

impl Verb {
    /// The word that names the command.
    pub(crate) fn word(self) -> &'static str
        ensures { result.now ≡ word_of self }
    {
        match self {
            Verb::Sweep => "sweep",
            Verb::Check => "check",
            Verb::Audit => "audit",
            Verb::Verify => "verify",
            Verb::Spec => "spec",
            Verb::Zx => "zx",
            Verb::Bench => "bench",
        }
    }

    /// The command that a word names.
    pub(crate) fn named(word: &str) -> Option<Verb>
        ensures { result ≡ verb_by word.now }
    {
        VERBS.iter().copied().find(|verb| verb.word() == word)
    }
}
