// All objects of the outside that a program is given.
/// All of the outside that a program sees: stores `S`, files `F`, stdin `I`, connections `L`, sinks
/// `O`, a clock `K` and a control `C`.
#[derive(Drop)]
pub struct World<S, F, I, L, O, K, C> {
    /// The stores, whose files belong to the program alone.
    pub stores: Vec<S>,
    /// The files that other programs write.
    pub files: F,
    /// Where stdin's bytes come from.
    pub stdin: I,
    /// The connections that other programs make.
    pub links: L,
    /// Where events go.
    pub stdout: O,
    /// Where lines on refusals and faults go.
    pub stderr: O,
    /// What shows the moment.
    pub clock: K,
    /// Who says whether the program goes on.
    pub control: C,
}
