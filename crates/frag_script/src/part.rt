/// A part of a run: one more item, or what ends the run.
#[derive(Drop)]
pub(crate) enum Part<T, E> {
    /// One more item.
    Item(T),
    /// What ends the run.
    End(E),
}
