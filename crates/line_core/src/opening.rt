// A line that is opened.
ghost use Rattle.std.specs.Prelude.{◌≡◌, ◌⊎◌, ℕ, [], map, IsTrue, Err, IfOk, IfErr, IsOk, OnOk};
ghost use Rattle.std.specs.List.{AllByRecursion};
ghost use Rattle.io_traits.specs.Counts.{HasCause, Rose};
ghost use Rattle.io_traits.specs.Folders.{folder_start};
ghost use Rattle.io_traits.specs.Moments.{EachMoment, NowOrSynced};
ghost use Rattle.io_traits.specs.declared.queue_faults.Damage.{Damage as DamageValue};
ghost use Rattle.graph_checks.specs.Plans.{IsPlanOf};
ghost use Rattle.line_folder.specs.Openings.{FindsDamage};
ghost use Rattle.line_folder.specs.Readiness.{IsFolderReady};
ghost use Rattle.line_machine.specs.declared.calls.LineFault.TheVariants as fault;
ghost use Rattle.line_core.specs.Jobs.{AreOut};
ghost use Rattle.line_core.specs.Openings.{AreOpened, AreOutside, AreShort, FindsPosition, HasBoxes, HasNone, IsShort, opened_at};
ghost use Rattle.line_core.specs.Parts.{folder_of, inputs_of, path_of};
ghost use Rattle.line_core.specs.Readiness.{CanDeliver, InputsReady, IsReady, connections_by};

use crate::generation::Generation;
use crate::line::{Line, LineInput, LineLimits, SinceMark};
use foreign_parts::Place;
use graph_checks::{Drawn, Plan, PlannedInput};
use history_book::{Book, Entry};
use in_file::OpenFault;
use io_traits::{Files, QueueFault, Store};
use line_folder::LineFolder;
use line_inputs::OpenInput;
use line_jobs::Kits;
use line_machine::LineFault;
use line_outputs::{BoxedOutput, BoxedOutputs, OutputCall};
use plain_data::Names;
use queue_core::Limits;
use std::alloc::{AllocError, Global};

impl<F: Drop, O: OutputCall> Line<F, O> {
    /// Opens a pipeline in a folder, whose path ends with a slash, by a plan: its queue, its dead letters, and then its inputs in
    /// their order. It is told behind the last opening; which rows were found is not told yet. Behind an error it can be
    /// opened again.
    ///
    /// - `Store` comes where the count of the store's faults rose, `Input` only where that of the files' did.
    /// - `Damaged` comes only where a file of the queue, of the dead letters or of a position is damaged so.
    pub fn open_on<S: Store, P: Files, B: Book>(
        alloc: Global,
        slot: u32,
        limits: LineLimits,
        folder: &str,
        plan: Plan<F, O>,
        store: &mut S,
        files: &mut P,
        book: &mut B,
    ) -> Result<Line<F, O>, LineFault>
        requires path { folder_start folder.now ≡ folder.now }
        requires plan { (workers : ℕ) × IsPlanOf O.number plan.config workers plan }
        requires outside { AreOutside folder.now plan.outgoing }
        requires short { AreShort plan.inputs }
        ensures ready { IfOk result (λ l. IsReady S.Store l store.new) }
        ensures can { IfOk result (CanDeliver O.number) }
        ensures none { IfOk result (λ l. AreOut l []) }
        ensures path { IfOk result (λ l. path_of l ≡ folder.now) }
        ensures connections { IfOk result (λ l.
            AllByRecursion HasNone (connections_by (inputs_of l))) }

        // When each fault comes.
        ensures damaged { (damage : DamageValue) → result ≡ Err (fault.Damaged damage)
            → IsTrue S.tells → FindsDamage folder.now (S.seen store.old) damage
            ⊎ FindsPosition (S.seen store.new) damage }
        ensures failed { (n : ℕ) → result ≡ Err (fault.Input n)
            → Rose (P.faults files.old) (P.faults files.new) }
        ensures read { OnOk result (P.faults files.new ≡ P.faults files.old) }
        ensures cause { HasCause (S.faults store.old) (S.faults store.new)
            (result ≡ Err fault.Store) }
    {
        let Plan {
            config,
            graph,
            inputs: planned,
            outgoing,
            kits,
            outputs,
            draws,
            ..
        } = plan;
        let generation = Generation {
            number: 1,
            config,
            draws,
            graph,
            outgoing,
            kits: Kits::new(kits),
        };
        match open_folder(alloc, store, folder, limits) {
            Ok(stands) => {
                let inputs = open_inputs(alloc, store, files, folder, planned.into_vec());
                Line::begin(
                    alloc, slot, limits, stands, inputs, generation, outputs, book,
                )
            }
            Err(fault) => Err(fault),
        }
    }

    // A line that begins, where its inputs are open; it is told.
    fn begin<B: Book>(
        alloc: Global,
        slot: u32,
        limits: LineLimits,
        stands: LineFolder,
        inputs: Result<Vec<LineInput>, LineFault>,
        generation: Generation<F>,
        outputs: Vec<Drawn<O>>,
        book: &mut B,
    ) -> Result<Line<F, O>, LineFault>
        requires boxes { HasBoxes O.number generation outputs.items }
        requires outside { AreOutside stands.queue.folder generation.outgoing }
        ensures folder { IfOk result (λ l. folder_of l ≡ stands) }
        ensures inputs { IfOk result (λ l. IfOk inputs (λ made. inputs_of l ≡ made.items)) }
        ensures open { OnOk result (IsOk inputs) }
        ensures can { IfOk result (CanDeliver O.number) }
        ensures none { IfOk result (λ l. AreOut l []) }
        ensures err { IfErr result (λ e. (inputs ≡ Err e) ⊎ (e ≡ fault.Memory)) }
        ensures lost { IfErr inputs (λ e. result ≡ Err e) }
    {
        let inputs = inputs?;
        let boxes = box_outputs(alloc, outputs)?;
        let line = line_of(alloc, slot, limits, stands, inputs, generation, boxes);
        line.tell_opened(book);
        Ok(line)
    }

    // Tells that it was opened, and by which configuration its batches go.
    fn tell_opened<B: Book>(&self, book: &mut B) {
        let opened = Entry::Opened {
            rows: &[],
            limit: self.limits.dead_max_bytes,
            policy: self.limits.policy,
        };
        book.tell(self.slot, opened);
        let adopted = Entry::Adopt {
            generation: self.generation.number,
            config: &self.generation.config,
            draws: self.generation.draws.as_slice(),
        };
        book.tell(self.slot, adopted);
    }
}

// A line as it begins, of its parts.
fn line_of<F: Drop, O: OutputCall>(
    alloc: Global,
    slot: u32,
    limits: LineLimits,
    folder: LineFolder,
    inputs: Vec<LineInput>,
    generation: Generation<F>,
    boxes: BoxedOutputs<O>,
) -> Line<F, O>
    ensures folder { result.folder ≡ folder }
    ensures inputs { result.inputs ≡ inputs }
    ensures generation { result.generation ≡ generation }
    ensures boxes { result.boxes ≡ boxes }
    ensures batches { result.batches.items ≡ [] }
{
    Line {
        alloc,
        slot,
        limits,
        folder,
        inputs,
        generation,
        boxes,
        letters: Place::Dead,
        batches: Vec::new(alloc),
        kept: None,
        next_batch: 1,
        since: SinceMark {
            written: 0,
            acknowledged: 0,
            front: 0,
        },
        read_refused: false,
    }
}

// Opens what stands in the folder.
fn open_folder<S: Store>(
    alloc: Global,
    store: &mut S,
    folder: &str,
    limits: LineLimits,
) -> Result<LineFolder, LineFault>
    requires { folder_start folder.now ≡ folder.now }
    ensures ready { IfOk result (λ l. IsFolderReady S.Store l store.new) }
    ensures path { IfOk result (λ l. l.queue.folder ≡ folder.now) }
    ensures damaged { (damage : DamageValue) → result ≡ Err (fault.Damaged damage)
        → IsTrue S.tells → FindsDamage folder.now (S.seen store.old) damage }
    ensures input { (n : ℕ) → result ≡ Err (fault.Input n) → ⊥ }
    ensures cause { HasCause (S.faults store.old) (S.faults store.new)
        (result ≡ Err fault.Store) }
{
    let queue = Limits {
        page_capacity: limits.page_capacity,
        max_bytes: limits.max_bytes,
    };
    let most = limits.dead_max_bytes;
    match LineFolder::open_on(alloc, store, folder, queue, most, limits.policy) {
        Ok(opened) => Ok(opened),
        Err(QueueFault::Fault) => Err(LineFault::Store),
        Err(QueueFault::Damaged(damage)) => Err(LineFault::Damaged(damage)),
        Err(QueueFault::Memory) => Err(LineFault::Memory),
    }
}

// Opens the inputs in their order. One that takes no lines is left out.
fn open_inputs<S: Store, P: Files>(
    alloc: Global,
    store: &mut S,
    files: &mut P,
    folder: &str,
    planned: Vec<PlannedInput>,
) -> Result<Vec<LineInput>, LineFault>
    requires short { AreShort planned.items }
    ensures ready { IfOk result (λ inputs.
        InputsReady S.Store folder.now inputs.items store.new) }
    ensures connections { IfOk result (λ inputs.
        AllByRecursion HasNone (connections_by inputs.items)) }
    ensures damaged { (damage : DamageValue) → result ≡ Err (fault.Damaged damage)
        → IsTrue S.tells → FindsPosition (S.seen store.new) damage }
    ensures failed { (n : ℕ) → result ≡ Err (fault.Input n)
        → Rose (P.faults files.old) (P.faults files.new) }
    ensures read { OnOk result (P.faults files.new ≡ P.faults files.old) }
    ensures reads { IsTrue S.tells → S.seen store.new ≡ S.seen store.old }
    ensures any_moment { EachMoment S.Store store.old store.new (NowOrSynced S.Store store.old) }
    ensures cause { HasCause (S.faults store.old) (S.faults store.new)
        (result ≡ Err fault.Store) }
{
    let mut watched = Names::new(alloc);
    let mut inputs = Vec::new(alloc);
    for input in planned {
        open_input(
            alloc,
            store,
            files,
            folder,
            input,
            &mut watched,
            &mut inputs,
        )?;
    }
    Ok(inputs)
}

// Opens an input behind others, unless it takes no lines.
fn open_input<S: Store, P: Files>(
    alloc: Global,
    store: &mut S,
    files: &mut P,
    folder: &str,
    mut planned: PlannedInput,
    watched: &mut Names,
    inputs: &mut Vec<LineInput>,
) -> Result<(), LineFault>
    requires short { IsShort planned }
    requires opened { AreOpened S.Store folder.now watched.old inputs.old.items store.old }
    ensures opened { OnOk result
        (AreOpened S.Store folder.now watched.new inputs.new.items store.new) }
    ensures damaged { (damage : DamageValue) → result ≡ Err (fault.Damaged damage)
        → IsTrue S.tells → FindsPosition (S.seen store.new) damage }
    ensures failed { (n : ℕ) → result ≡ Err (fault.Input n)
        → Rose (P.faults files.old) (P.faults files.new) }
    ensures read { OnOk result (P.faults files.new ≡ P.faults files.old) }
    ensures reads { IsTrue S.tells → S.seen store.new ≡ S.seen store.old }
    ensures any_moment { EachMoment S.Store store.old store.new (NowOrSynced S.Store store.old) }
    ensures cause { HasCause (S.faults store.old) (S.faults store.new)
        (result ≡ Err fault.Store) }
{
    inputs.reserve(1)?;
    let id = planned.id.copy()?;
    let opened = OpenInput::open_on(alloc, store, files, folder, &mut planned.input, watched);
    match at_input(opened, inputs.len()) {
        Ok(Some(open)) => {
            inputs.push_reserved(LineInput {
                id,
                open,
                held: None,
                settled: false,
                behind: false,
                refused: false,
            });
            Ok(())
        }
        Ok(None) => Ok(()),
        Err(fault) => Err(fault),
    }
}

// What the opening of the input at this place came to.
fn at_input<T: Drop>(opened: Result<T, OpenFault>, at: usize) -> Result<T, LineFault>
    ensures { result ≡ opened_at at opened }
{
    match opened {
        Ok(made) => Ok(made),
        Err(OpenFault::Store) => Err(LineFault::Store),
        Err(OpenFault::Files) => Err(LineFault::Input(at)),
        Err(OpenFault::Damaged(damage)) => Err(LineFault::Damaged(damage)),
        Err(OpenFault::Memory) => Err(LineFault::Memory),
    }
}

// The boxed outputs of a plan.
fn box_outputs<O: OutputCall>(
    alloc: Global,
    outputs: Vec<Drawn<O>>,
) -> Result<BoxedOutputs<O>, AllocError>
    ensures { IfOk result (λ boxes.
        map (λ b. O.number b.output) boxes.outputs.items
        ≡ map (λ d. O.number d.plugged) outputs.items) }
{
    let mut boxes = Vec::new(alloc);
    for drawn in outputs {
        boxes.push(box_output(drawn)?)?;
    }
    Ok(BoxedOutputs { outputs: boxes })
}

// The boxed output that a box is which was drawn for it.
fn box_output<O: OutputCall>(drawn: Drawn<O>) -> Result<BoxedOutput<O>, AllocError>
    ensures { IfOk result (λ made. made.output ≡ drawn.plugged) }
{
    let kind = drawn.want.name.copy()?;
    let id = drawn.want.id.copy()?;
    Ok(BoxedOutput {
        kind,
        id,
        output: drawn.plugged,
    })
}
