// The calls that the words of a command line may ask for.
/// The call that the words of a command line are for.
#[derive(Clone, Copy, Debug)]
pub enum Which {
    /// `logstash`; it also tells why words are refused.
    Run,
    /// `test_config`.
    Test,
    /// A run with each pipeline on a thread of its own. It isn't built yet: `logstash` says so.
    Apart,
    /// `pq_tools::pqcheck`.
    Check,
    /// `pq_tools::pqrepair`.
    Repair,
}
