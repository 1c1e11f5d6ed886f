// What an evaluation comes to that asks a forcer on the way.
use oracle_iface::Over;

/// What comes of an evaluation that asks for the values of other keys.
#[derive(Debug, Drop)]
pub enum Found<T> {
    /// Its value. No key that it asks for is refused.
    Value(T),
    /// The first refusal that it meets.
    Over(Over),
}
