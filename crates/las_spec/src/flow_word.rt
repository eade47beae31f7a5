// A flow: a Pauli for each port.
ghost use Rattle.std.specs.Prelude.{◌≡◌};

use las_base::Pauli;
use std::marker::Model;

/// A word of Paulis, one for each port, seen as a list.
#[derive(Drop)]
pub struct FlowWord {
    letters: Vec<Pauli>,
}

impl Model for FlowWord {
    ghost use Rattle.std.specs.Prelude.{List};
    ghost use Rattle.las_base.specs.declared.Pauli.{Pauli};

    ghost Value = { List Pauli };

    ghost view = { λ w. w.letters.items };
}

impl FlowWord {
    /// The word of these letters.
    pub fn new(letters: Vec<Pauli>) -> FlowWord
        ensures { result ≡ letters.items }
    {
        FlowWord { letters }
    }

    /// Its letters, in the order of ports.
    pub fn letters(&self) -> &[Pauli]
        ensures { result.now ≡ self.now }
    {
        &self.letters
    }
}
