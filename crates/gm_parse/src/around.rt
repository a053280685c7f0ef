//! What stands around a token.

ghost use Rattle.std.specs.Prelude.{◌≡◌, ◌≤◌, ℕ};

/// What stands around a token: how many statements, and the index of the token at which its outermost expression
/// begins.
#[derive(Clone, Copy, Debug, PartialEq, Eq)]
pub struct Around {
    pub statements: usize,
    pub expression: Option<usize>,
}

impl Around {
    ghost use Rattle.gm_parse.specs.Derivation.{enter, is_too_deep, outside};
    ghost use Rattle.gm_parse.specs.Grammar.{InStatement, InExpression};

    /// Nothing stands around a whole text.
    pub fn outside() -> Around
        ensures { result ≡ outside }
    {
        Around {
            statements: 0,
            expression: None,
        }
    }

    /// What stands around the parts of an expression that begins at this index.
    pub fn in_expression(self, at: usize) -> Around
        ensures { result ≡ enter InExpression at self }
    {
        match self.expression {
            None => Around {
                expression: Some(at),
                ..self
            },
            Some(_) => self,
        }
    }

    /// What stands around the parts of a statement.
    pub fn in_statement(self) -> Around
        requires { self.statements ≤ 64 }
        ensures { (at : ℕ) → result ≡ enter InStatement at self }
    {
        Around {
            statements: self.statements + 1,
            ..self
        }
    }

    /// The token at this index is in more than 64 statements, or past the 256th of its outermost expression.
    pub fn is_too_deep(self, at: usize) -> bool
        ensures { result ≡ is_too_deep self at }
    {
        self.statements > 64
            || match self.expression {
                None => false,
                Some(start) => at.saturating_sub(start) >= 256,
            }
    }
}
