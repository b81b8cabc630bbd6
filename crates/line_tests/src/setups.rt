// What a run is given, by its words.
use line_core::LineLimits;
use settings_lines::Policy;

/// The workers of a run.
pub const WORKERS: u32 = 1;

/// What a run is given, beside its files.
#[derive(Clone, Copy)]
pub struct Setup<'a> {
    pub batch: u32,
    pub page: u64,
    pub max: u64,
    pub writes: u64,
    pub acks: u64,
    pub dead: u64,
    pub policy: Policy,
    /// How many steps it makes at most.
    pub steps: u64,
    /// What a stop before it left of the store, by a choice; None where nothing stopped.
    pub left: Option<u64>,
    /// The numbers of the calls that fail: of the store from its first call on, and from the first behind an opening on.
    pub opening_fails: u64,
    pub store_fails: Option<u64>,
    pub stdout_fails: u64,
    pub stdin_fails: u64,
    /// The lines of stdin, with commas between them.
    pub stdin: &'a str,
}

impl<'a> Setup<'a> {
    /// What the words of a run say.
    pub fn of_words(words: &'a str) -> Setup<'a> {
        let mut setup = Setup {
            batch: 125,
            page: 67_108_864,
            max: 1_073_741_824,
            writes: 1024,
            acks: 1024,
            dead: 1_073_741_824,
            policy: Policy::Hold,
            steps: 100_000,
            left: None,
            opening_fails: u64::MAX,
            store_fails: None,
            stdout_fails: u64::MAX,
            stdin_fails: u64::MAX,
            stdin: "",
        };
        for word in words.split_whitespace() {
            let (name, value) = word.split_once(':').unwrap_or((word, ""));
            setup = setup.with(name, value);
        }
        setup
    }

    // With what a word sets.
    fn with(mut self, name: &str, value: &'a str) -> Setup<'a> {
        match name {
            "stdin" => self.stdin = value,
            "policy" => self.policy = policy_of(value),
            _ => self.set(name, value.parse().unwrap_or(0)),
        }
        self
    }

    fn set(&mut self, name: &str, number: u64) {
        match name {
            "batch" => self.batch = u32::try_from(number).unwrap_or(1),
            "page" => self.page = number,
            "max" => self.max = number,
            "writes" => self.writes = number,
            "acks" => self.acks = number,
            "dead" => self.dead = number,
            _ => self.set_calls(name, number),
        }
    }

    fn set_calls(&mut self, name: &str, number: u64) {
        match name {
            "steps" => self.steps = number,
            "left" => self.left = Some(number),
            "opening" => self.opening_fails = number,
            "store" => self.store_fails = Some(number),
            "out" => self.stdout_fails = number,
            "in" => self.stdin_fails = number,
            _ => {}
        }
    }

    /// What it says of the line.
    pub fn limits(&self) -> LineLimits {
        LineLimits {
            workers: WORKERS,
            batch: self.batch.max(1),
            page_capacity: self.page,
            max_bytes: self.max,
            writes: self.writes,
            acknowledged: self.acks,
            dead_max_bytes: self.dead,
            policy: self.policy,
        }
    }
}

fn policy_of(word: &str) -> Policy {
    match word {
        "drop_newer" => Policy::DropNewer,
        "drop_older" => Policy::DropOlder,
        _ => Policy::Hold,
    }
}
