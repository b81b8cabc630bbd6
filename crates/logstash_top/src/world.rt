// The objects of the outside that a run takes.
/// The outside of a run: a store `S`, files `P`, stdin `I`, connections `L`, sinks `O` and a clock `K`.
#[derive(Drop)]
pub struct World<S, P, I, L, O, K> {
    /// Where the files of the pipeline stand: its queue, its dead letters, its positions, and what it writes.
    pub store: S,
    /// The files that other programs write: configurations, and those that inputs read.
    pub files: P,
    /// Where stdin's bytes come from.
    pub stdin: I,
    /// The connections that other programs make.
    pub links: L,
    /// Where what outputs to stdout write of events goes, and nothing else.
    pub stdout: O,
    /// Where the line on a refusal or a fault goes.
    pub stderr: O,
    /// What gives each event its moment.
    pub clock: K,
}
