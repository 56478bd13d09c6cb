//! The symbols of a grammar.

/// What stands on the right side of a production.
#[derive(Clone, Copy, PartialEq, Eq, Debug)]
pub enum Symbol<K, P> {
    /// One token of this class.
    Terminal(K),
    /// The tokens that this part of the grammar stands for.
    Nonterminal(P),
}
