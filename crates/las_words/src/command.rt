// A command, as the words name it.
ghost use Rattle.std.specs.Prelude.{◌≡◌, IsTrue, string_bytes};
ghost use Rattle.las_io.specs.Names.{is_lawful_name};
ghost use Rattle.las_words.specs.declared.command.WordsRefused.TheVariants.{Memory};

use las_base::Size;
use std::alloc::AllocError;
use std::marker::Model;

/// A name that a file on a shelf may have. Callers see its bytes.
#[derive(Debug, Drop)]
pub struct Name {
    text: String,
}

impl Model for Name {
    ghost use Rattle.std.specs.Prelude.{ℕ, List, IsTrue, string_bytes};
    ghost use Rattle.las_io.specs.Names.{is_lawful_name};

    ghost Value = { List ℕ };

    ghost view = { λ n. string_bytes n.text };

    ghost invariant = { λ n. IsTrue (is_lawful_name (string_bytes n.text)) };
}

impl Name {
    /// A name of this text.
    pub(crate) fn new(text: String) -> Name
        requires { IsTrue (is_lawful_name (string_bytes text)) }
        ensures { result ≡ string_bytes text }
    {
        Name { text }
    }

    /// Its text.
    pub fn text(&self) -> &str
        ensures text { result.now ≡ self.now }
        ensures lawful { IsTrue (is_lawful_name self.now) }
    {
        self.text.as_str()
    }
}

/// What the program is asked to do.
#[derive(Debug, Drop)]
pub enum Command {
    /// To find the least box of the source's specification that a diagram solves. Up to so many clauses are learned
    /// for each box.
    Sweep { budget: u64 },
    /// To test the source's diagram.
    Check,
    /// To test the file's diagram against the source's specification.
    Audit { name: Name },
    /// To check the log of a box of the source's specification.
    Verify { size: Size },
    /// To print the source's specification in its normal form.
    Spec,
    /// To print the graph of the source's diagram, with its flows.
    Zx,
    /// To sweep the specification of the state of so many qubits that is the sum of all zeros and all ones.
    Bench { n: u32 },
}

/// Why words are not read as a command.
#[derive(Clone, Copy, PartialEq, Eq, Debug)]
pub enum WordsRefused {
    /// They are no form of a command.
    Words,
    Memory,
}

impl From<AllocError> for WordsRefused {
    ghost from_gives = { λ _ e. e ≡ Memory };

    fn from(_: AllocError) -> Self {
        WordsRefused::Memory
    }
}
