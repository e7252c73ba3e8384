// The lines of a script, in order.
ghost use Rattle.std.specs.Prelude.{◌≡◌};

use crate::Line;
use std::marker::Model;

/// The lines of a script, in order.
#[derive(Drop)]
pub struct Lines {
    items: Vec<Line>,
}

impl Model for Lines {
    ghost use Rattle.std.specs.Prelude.{List};
    ghost use Rattle.grammar_spec.specs.declared.line.Line.{Line};

    ghost Value = { List Line };

    ghost view = { λ l. l.items.items };
}

impl Lines {
    pub fn as_slice(&self) -> &[Line]
        ensures { result.now ≡ self.now }
    {
        &self.items
    }

    pub fn into_vec(self) -> Vec<Line>
        ensures { result.items ≡ self }
    {
        self.items
    }

    pub fn from_vec(v: Vec<Line>) -> Lines
        ensures { result ≡ v.items }
    {
        Lines { items: v }
    }
}
