// A control that gives the answers of a list.
ghost use Rattle.std.specs.Prelude.{◌≡◌, ◌⊎◌, Some, None, [], IfOk};
ghost use Rattle.std.specs.Option.{option_map};

use io_traits::{Control, Said};
use std::alloc::{AllocError, Global};
use std::marker::Model;

/// A control that gives the answers of a list, and past the list Go. It tells the answers that it
/// gave, until it finds no memory to keep one, and those that are left.
#[derive(Drop)]
pub struct ListControl {
    answers: Vec<Said>,
    at: usize,
    given: Vec<Said>,
    tells: bool,
}

impl Model for ListControl {
    ghost use Rattle.std.specs.Prelude.{◌≤◌, drop, vec_len, Some, None, if◌then◌else◌};
    ghost use Rattle.io_memory.specs.Controls.{Saying};

    ghost Value = { Saying };

    ghost view = { λ k. record {
      left = drop k.at k.answers.items;
      given = if k.tells then Some k.given.items else None;
    } };

    ghost invariant = { λ k. k.at ≤ vec_len k.answers };
}

impl ListControl {
    ghost use Rattle.io_memory.specs.Controls.{first_said, after_next, said_more};

    /// A control that gives these answers.
    pub fn new(alloc: Global, answers: &[Said]) -> Result<ListControl, AllocError>
        ensures { IfOk result (λ k. k ≡ record { left = answers.now; given = Some [] }) }
    {
        Ok(ListControl {
            answers: Vec::from_slice(alloc, answers)?,
            at: 0,
            given: Vec::new(alloc),
            tells: true,
        })
    }

    /// The answers that it gave, in their order; None once it found no memory to keep one.
    pub fn given(&self) -> Option<&[Said]>
        ensures { option_map (λ answers. answers.now) result ≡ self.now.given }
    {
        if self.tells { Some(&self.given) } else { None }
    }

    /// The answers that are left.
    pub fn left(&self) -> &[Said]
        ensures { result.now ≡ self.now.left }
    {
        &self.answers[self.at..]
    }

    /// The next answer.
    pub fn next(&mut self) -> Said
        ensures answer { result ≡ first_said self.old.left }
        ensures state { (self.new ≡ after_next self.old (said_more self.old))
            ⊎ (self.new ≡ after_next self.old None) }
    {
        let mut said = Said::Go;
        if self.at < self.answers.len() {
            said = self.answers[self.at];
            self.at += 1;
        }
        if self.given.push(said).is_err() {
            self.tells = false;
        }
        said
    }
}

impl Control for ListControl {
    ghost given = { λ k. k.given };

    ghost left = { λ k. Some k.left };

    fn next(&mut self) -> Said {
        self.next()
    }
}
