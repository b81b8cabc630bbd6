// The search of a compiled pattern: by lazy tables, and state by state where these are full.
ghost use Rattle.std.specs.Prelude.{◌≡◌, ◌+◌, ◌-◌, ◌*◌, ◌^◌, ◌≤◌, length, vec_len, option_map, IfOk, IfSome};
ghost use Rattle.regex_hir.specs.Find.{find};
ghost use Rattle.regex_hir.specs.Meaning.{meaning};
ghost use Rattle.regex_nfa.specs.Sizes.{table_bytes};
ghost use Rattle.regex_compile.specs.Implements.{Implements};
ghost use Rattle.regex_tagged.specs.Valid.{IsFor};
ghost use Rattle.regex_vm.specs.Found.{first_match, span, group_cells};

use regex_compile::Error;
use regex_dfa::Dfa;
use regex_hir::Hir;
use regex_tagged::{Near, Tagged};
use regex_vm::{Backtracker, PikeVm};
use std::alloc::Global;

/// How many bytes the tables of a compiled pattern may take, which is the limit of `regex`.
const SIZE_LIMIT: usize = 10 << 20;

/// A compiled pattern, with what its searches write to.
pub struct Searcher {
    /// What the pattern means.
    pub(crate) hir: Hir,
    pub(crate) dfa: Dfa,
    tagged: Tagged,
    backtracker: Backtracker,
    pikevm: PikeVm,
    ghost implements: { ∥ Implements dfa.nfa (meaning hir) ∥₁ },
    ghost tagged_runs: { IsFor tagged dfa },
    ghost pikevm_states: { pikevm.states ≡ vec_len dfa.nfa.states },
    ghost pikevm_groups: { pikevm.groups ≡ dfa.nfa.slot_count - 2 },
}

impl Searcher {
    // `groups` counts the groups, the whole match included.
    pub(crate) fn new(alloc: Global, hir: Hir, groups: u32) -> Result<Searcher, Error>
        ensures hir { IfOk result (λ searcher. searcher.hir ≡ hir) }
        ensures slots { IfOk result (λ searcher. searcher.dfa.nfa.slot_count ≡ 2 * groups) }
        // The two states with which each table begins are not counted.
        ensures limit { IfOk result (λ searcher. table_bytes searcher.dfa.nfa ≤ 10 * 2 ^ 20 + 24) }
    {
        let nfa = regex_compile::compile(alloc, &hir, groups, SIZE_LIMIT)?;
        let dfa = Dfa::new(alloc, nfa)?;
        let tagged = Tagged::new(alloc, &dfa)?;
        let backtracker = Backtracker::new(alloc);
        let pikevm = PikeVm::new(alloc, &dfa.nfa)?;
        Ok(Searcher {
            hir,
            dfa,
            tagged,
            backtracker,
            pikevm,
        })
    }

    // The span of the leftmost match from `start` on, at any byte. `cells` gets the ends of the
    // groups from group 1 on, as many as it has room for: a position plus one, or 0 for none.
    pub(crate) fn find(
        &mut self,
        hay: &[u8],
        start: usize,
        cells: &mut [usize],
    ) -> Option<(usize, usize)>
        requires within { start ≤ length hay.now }
        requires width { length cells.old ≤ self.old.dfa.nfa.slot_count - 2 }
        ensures found { result ≡ option_map span (find (meaning self.old.hir) hay.now start) }
        ensures cells { IfSome (find (meaning self.old.hir) hay.now start)
            (λ m. cells.new ≡ group_cells m (length cells.old)) }
        ensures hir { self.new.hir ≡ self.old.hir }
        ensures dfa { self.new.dfa ≡ self.old.dfa }
    {
        match self
            .tagged
            .find_near(&self.dfa, hay, start, usize::MAX, cells)
        {
            Ok(near) => match near {
                Near::Done(found) => found,
                Near::Idle(_) => self.step_by_step(hay, start, cells),
            },
            Err(_) => self.step_by_step(hay, start, cells),
        }
    }

    // The same, state by state, where the tables of the other way are full.
    #[cold]
    fn step_by_step(
        &mut self,
        hay: &[u8],
        start: usize,
        cells: &mut [usize],
    ) -> Option<(usize, usize)>
        requires within { start ≤ length hay.now }
        requires width { length cells.old ≤ self.old.dfa.nfa.slot_count - 2 }
        ensures found { result ≡ option_map span
            (first_match self.old.dfa.nfa hay.now (length hay.now) start (length hay.now)) }
        ensures cells { IfSome
            (first_match self.old.dfa.nfa hay.now (length hay.now) start (length hay.now))
            (λ m. cells.new ≡ group_cells m (length cells.old)) }
        ensures hir { self.new.hir ≡ self.old.hir }
        ensures dfa { self.new.dfa ≡ self.old.dfa }
    {
        let dfa = &self.dfa;
        let end = hay.len();
        match self.backtracker.find(&dfa.nfa, hay, start, end, end, cells) {
            Ok(found) => found,
            Err(_) => self.pikevm.find(&dfa.nfa, hay, start, end, end, cells),
        }
    }
}

// Written out, so that a caller's proof sees one call and not the drop of each field.
impl Drop for Searcher {
    fn drop(self) {
        let Searcher {
            hir: _hir,
            dfa: _dfa,
            tagged: _tagged,
            backtracker: _backtracker,
            pikevm: _pikevm,
        } = self;
    }
}
