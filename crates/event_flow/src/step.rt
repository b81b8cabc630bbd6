// The steps of a configuration that is laid out flat.
/// One step of a configuration that is laid out flat. Plugins and conditions go by their numbers.
#[derive(Clone, Copy)]
pub enum FlowStep {
    /// The event meets the plugin of this number.
    Plugin(u64),
    /// The event meets the condition of this number. Where it is No, so many steps are passed over.
    Test(u64, u64),
    /// So many steps are passed over.
    Skip(u64),
}
