use pnml_grammar::Token;

/// What a piece gives: how many of its bytes were taken, and the token that they complete.
#[derive(Drop)]
pub struct Fed {
    pub taken: usize,
    pub token: Option<Token>,
}
