/// What a refused call hands back: the state that it was given, equal to what was handed in, and
/// why it was refused.
#[derive(Debug, Drop)]
pub struct Back<S, F> {
    /// The state as it was handed in.
    pub state: S,
    /// Why the call refused it.
    pub fault: F,
}
