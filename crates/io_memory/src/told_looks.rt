// Where looks for connections were made.
ghost use Rattle.io_memory.specs.Links.{NotesLook};

use plain_data::Text;
use std::alloc::{AllocError, Global};
use std::marker::Model;

/// The hosts and the ports of looks in their order, which are told until there was no memory for one.
#[derive(Drop)]
pub struct ToldLooks {
    alloc: Global,
    looks: Vec<(Text, u16)>,
    tells: bool,
}

impl Model for ToldLooks {
    ghost use Rattle.std.specs.Prelude.{ℕ, List, Option, Some, None, if◌then◌else◌};

    ghost Value = { Option (List (List ℕ × ℕ)) };

    ghost view = { λ s. if s.tells then Some s.looks.items else None };
}

impl ToldLooks {
    ghost use Rattle.std.specs.Prelude.{◌≡◌, Some, [], ◌∷◌, ◌++◌, OnOk};
    ghost use Rattle.std.specs.Option.{option_map};

    pub fn new(alloc: Global) -> ToldLooks
        ensures { result ≡ Some [] }
    {
        ToldLooks {
            alloc,
            looks: Vec::new(alloc),
            tells: true,
        }
    }

    /// The looks; None once there was no memory for one.
    pub fn told(&self) -> Option<&[(Text, u16)]>
        ensures { option_map (λ looks. looks.now) result ≡ self.now }
    {
        if self.tells { Some(&self.looks) } else { None }
    }

    /// Notes a look.
    pub fn note(&mut self, host: &str, port: u16)
        ensures { NotesLook self.old self.new host.now port }
    {
        if self.push(host, port).is_err() {
            self.tells = false;
        }
    }

    fn push(&mut self, host: &str, port: u16) -> Result<(), AllocError>
        ensures { OnOk result
            (self.new ≡ option_map (λ looks. looks ++ (host.now, port) ∷ []) self.old) }
    {
        let host = Text::of(self.alloc, host)?;
        if self.looks.push((host, port)).is_err() {
            return Err(AllocError);
        }
        Ok(())
    }
}
