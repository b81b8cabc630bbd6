// Scanning a regular expression byte by byte for where groups may begin.
ghost use Rattle.std.specs.Prelude.{◌≡◌, ◌+◌, IfOk};
ghost use Rattle.grok_patterns.specs.Scans as spec;

use std::alloc::AllocError;

/// Where a regular expression stands behind some of its bytes.
#[derive(Clone, Copy)]
pub enum ScanState {
    /// Where a group may begin.
    Plain,
    /// Behind a backslash.
    Escaped,
    /// Behind a `(`, of which the next byte tells what group it begins.
    Opened,
    /// Behind `(?`.
    Flagged,
    /// In brackets.
    Class,
    /// In brackets, behind a backslash.
    ClassEscaped,
    /// Behind the `[` of brackets.
    ClassOpened,
    /// Behind the `[^` of brackets.
    ClassNegated,
}

/// What was read of a regular expression up to a byte.
#[derive(Clone, Copy)]
pub struct Scan {
    pub place: ScanState,
    /// How many brackets are open.
    pub brackets: usize,
    /// How many groups with a number have begun; a `(` of which nothing else is known isn't counted yet.
    pub groups: usize,
}

impl Scan {
    /// In front of the first byte.
    pub fn start() -> Scan
        ensures { result ≡ spec.start }
    {
        Scan {
            place: ScanState::Plain,
            brackets: 0,
            groups: 0,
        }
    }

    /// Whether a `(` that comes next begins a group.
    pub fn may_open(self) -> bool
        ensures { result ≡ spec.may_open self }
    {
        match self.place {
            ScanState::Plain | ScanState::Opened | ScanState::Flagged => true,
            ScanState::Escaped
            | ScanState::Class
            | ScanState::ClassEscaped
            | ScanState::ClassOpened
            | ScanState::ClassNegated => false,
        }
    }

    /// Behind a `(` that begins a group with a number, where one may begin.
    pub fn opened(self) -> Result<Scan, AllocError>
        ensures { IfOk result (λ scan. scan ≡ spec.opened self) }
    {
        let scan = self.step(b'(')?;
        scan.counted()
    }

    /// Behind more bytes.
    #[tactic(auto, using(crate::proofs::Scanning::scanning))]
    pub fn over(self, bytes: &[u8]) -> Result<Scan, AllocError>
        ensures { IfOk result (λ scan. scan ≡ spec.over bytes.now self) }
    {
        let mut scan = self;
        for byte in bytes {
            scan = scan.step(*byte)?;
        }
        Ok(scan)
    }

    fn step(self, byte: u8) -> Result<Scan, AllocError>
        ensures { IfOk result (λ scan. scan ≡ spec.step byte self) }
    {
        match self.place {
            ScanState::Plain => Ok(self.plain_step(byte)),
            ScanState::Escaped => Ok(self.at(ScanState::Plain)),
            ScanState::Opened => self.opened_step(byte),
            ScanState::Flagged => self.flagged_step(byte),
            ScanState::Class => self.class_step(byte),
            ScanState::ClassEscaped => Ok(self.at(ScanState::Class)),
            ScanState::ClassOpened => self.class_opened_step(byte),
            ScanState::ClassNegated => self.class_negated_step(byte),
        }
    }

    fn at(self, place: ScanState) -> Scan
        ensures { result ≡ spec.at place self }
    {
        Scan { place, ..self }
    }

    fn plain_step(self, byte: u8) -> Scan
        ensures { result ≡ spec.plain_step byte self }
    {
        match byte {
            b'\\' => self.at(ScanState::Escaped),
            b'(' => self.at(ScanState::Opened),
            b'[' => self.at(ScanState::ClassOpened),
            _ => self.at(ScanState::Plain),
        }
    }

    fn opened_step(self, byte: u8) -> Result<Scan, AllocError>
        ensures { IfOk result (λ scan. scan ≡ spec.opened_step byte self) }
    {
        if byte == b'?' {
            Ok(self.at(ScanState::Flagged))
        } else {
            Ok(self.counted()?.plain_step(byte))
        }
    }

    fn flagged_step(self, byte: u8) -> Result<Scan, AllocError>
        ensures { IfOk result (λ scan. scan ≡ spec.flagged_step byte self) }
    {
        if byte == b'P' {
            self.counted()
        } else {
            Ok(self.plain_step(byte))
        }
    }

    fn class_step(self, byte: u8) -> Result<Scan, AllocError>
        ensures { IfOk result (λ scan. scan ≡ spec.class_step byte self) }
    {
        match byte {
            b'\\' => Ok(self.at(ScanState::ClassEscaped)),
            b'[' => self.bracketed(),
            b']' => Ok(self.unbracketed()),
            _ => Ok(self.at(ScanState::Class)),
        }
    }

    fn class_opened_step(self, byte: u8) -> Result<Scan, AllocError>
        ensures { IfOk result (λ scan. scan ≡ spec.class_opened_step byte self) }
    {
        if byte == b'^' {
            Ok(self.at(ScanState::ClassNegated))
        } else {
            self.class_negated_step(byte)
        }
    }

    // A `]` that stands first in brackets stands for itself.
    fn class_negated_step(self, byte: u8) -> Result<Scan, AllocError>
        ensures { IfOk result (λ scan. scan ≡ spec.class_negated_step byte self) }
    {
        match byte {
            b'\\' => Ok(self.at(ScanState::ClassEscaped)),
            b'[' => self.bracketed(),
            _ => Ok(self.at(ScanState::Class)),
        }
    }

    fn bracketed(self) -> Result<Scan, AllocError>
        ensures { IfOk result (λ scan. scan ≡ spec.bracketed self) }
    {
        Ok(Scan {
            place: ScanState::ClassOpened,
            brackets: next(self.brackets)?,
            groups: self.groups,
        })
    }

    fn unbracketed(self) -> Scan
        ensures { result ≡ spec.unbracketed self }
    {
        if self.brackets == 0 {
            return self.at(ScanState::Plain);
        }
        Scan {
            place: ScanState::Class,
            brackets: self.brackets - 1,
            groups: self.groups,
        }
    }

    fn counted(self) -> Result<Scan, AllocError>
        ensures { IfOk result (λ scan. scan ≡ spec.counted self) }
    {
        Ok(Scan {
            place: ScanState::Plain,
            brackets: self.brackets,
            groups: next(self.groups)?,
        })
    }
}

// A count past 64 bits is more than memory can hold.
fn next(count: usize) -> Result<usize, AllocError>
    ensures { IfOk result (λ more. more ≡ count + 1) }
{
    match count.checked_add(1) {
        Some(more) => Ok(more),
        None => Err(AllocError),
    }
}
