use std::alloc::Global;

/// Someone who is shown the progress of a phase while it is served. `X` is the type of the
/// watchers, such as [`Watcher`](escrow_stats::Watcher).
pub trait Audience<X> {
    /// Takes a watcher for each database, in order of the databases, before the first phase.
    fn watch(&mut self, alloc: Global, watchers: Vec<X>);

    /// Begins to watch: from now on, the sessions of a phase are served. They have this many
    /// statements.
    fn begin(&mut self, statements: usize);

    /// Stops watching: the phase was served, or ended in a fault. Its replies are written next.
    fn end(&mut self);
}

/// An audience that doesn't watch.
#[derive(Drop)]
pub(crate) struct Nobody;

impl<X: Drop> Audience<X> for Nobody {
    fn watch(&mut self, _alloc: Global, _watchers: Vec<X>) {}

    fn begin(&mut self, _statements: usize) {}

    fn end(&mut self) {}
}
