// What comes of a question.
use oracle_iface::Over;

/// What comes of a question that is answered by asking for keys.
#[derive(Debug, Drop)]
pub enum Answered<A> {
    /// Its answer. None of the keys is refused.
    Told(A),
    /// The first refusal.
    Over(Over),
}
