//! The calls that a program in C makes: each makes one of `embedded_machine`, and says its clauses again.
#![tactic(auto)]

ghost use Rattle.std.specs.Prelude.{◌≡◌, ◌≢◌, ◌<◌, ◌⊎◌, IfSome, None, pos, length, take};
ghost use Rattle.command_files.specs.FaultText.{fault_text};
ghost use Rattle.node_states.specs.Active.{is_active};
ghost use Rattle.embedded_machine.specs.Cells.{HoldControl};
ghost use Rattle.embedded_machine.specs.Refusals.{
  AreForControl,
  AreForTick,
  ClosedOrMemory,
  HasState,
  HaveRoom,
  HeldLacks,
  HeldLacksOrMemory,
  HoldRestOf,
  TellNames,
};
ghost use Rattle.embedded_machine.specs.Ticks.{Holds, IsFirst, ResetHeld, RestoredHeld, TickedHeld};
ghost use Rattle.embedded_machine.specs.declared.fault.MachineFault.TheVariants as fault;
ghost use Rattle.embedded_machine.specs.Texts.{SpellsItsImage};
ghost use Rattle.sct_c.specs.Told.{
  IsCounted,
  OpensImage,
  OpensText,
  Tells,
  TellsRefused,
  TellsWhy,
  status_of,
};

use command_files::LoadFault;
use embedded_machine::{
    MachineFault, MachineHandle, Opened, VariableRow, close, image_of_text, names_of, open_machine,
    opened_image, opened_text, put_beginning, put_bytes, react, reset, restore, save,
    state_is_active, tell_names,
};
use std::alloc::Global;

// Statuses, as sct.h has them.
const OK: i32 = 0;

const CLOSED: i32 = 1;

const MEMORY: i32 = 2;

const TEXT: i32 = 3;

const IMAGE: i32 = 4;

const NUMBER: i32 = 5;

const KIND: i32 = 7;

const BUFFER: i32 = 8;

const CONTROL: i32 = 9;

/// How many bytes there are of what a call gives, and of the words of a fault.
#[repr(C)]
#[derive(Clone, Copy)]
pub struct Lengths {
    pub given: usize,
    pub words: usize,
}

/// What an image counts: variables and threads, the states of its chart, and the bytes of the names of both, a zero
/// byte behind each.
#[repr(C)]
#[derive(Clone, Copy)]
pub struct Counts {
    pub variables: usize,
    pub threads: usize,
    pub names: usize,
    pub states: usize,
    pub state_names: usize,
}

fn status_of(fault: MachineFault) -> i32
    ensures status { result ≡ status_of fault }
    ensures some { result ≢ pos 0 }
{
    match fault {
        MachineFault::Closed => CLOSED,
        MachineFault::Number => NUMBER,
        MachineFault::Control => CONTROL,
        MachineFault::Input => KIND,
        MachineFault::Room => BUFFER,
        MachineFault::Memory => MEMORY,
    }
}

// Puts as much of the words of a fault into a buffer as has room there. The status, or that memory was refused for
// them.
fn put_words(
    alloc: Global,
    fault: &LoadFault,
    words: &mut [u8],
    length: &mut usize,
    status: i32,
) -> i32
    requires { (status ≡ pos 3) ⊎ (status ≡ pos 4) }
    ensures status { (result ≡ status) ⊎ (result ≡ pos 2) }
    ensures told { result ≢ pos 2 → TellsWhy (fault_text fault.now) words.new length.new }
{
    match format!(in alloc; "{fault}") {
        Ok(text) => {
            put_beginning(text.as_bytes(), words);
            *length = text.len();
            status
        }
        Err(_) => MEMORY,
    }
}

/// Compiles a text into the bytes of an image. 0: the first of the bytes in `image`, as many as `lengths` says, spell
/// the image of the text. 8: there is no room for so many, and nothing else was written. 3: the text is refused, for
/// the fault whose words `words` begins with, or all of them, as many as `lengths` says. 2: memory was refused.
#[unsafe(no_mangle)]
pub extern "C" fn sct_text_compile(
    alloc: Global,
    text: &[u8],
    image: &mut [u8],
    words: &mut [u8],
    lengths: &mut Lengths,
) -> i32
    ensures compiled { result ≡ pos 0 → SpellsItsImage text.now (take lengths.new.given image.new) }
    ensures kept { result ≢ pos 0 → image.new ≡ image.old }
    ensures fault { result ≡ pos 3 → TellsRefused text.now words.new lengths.new.words }
{
    match image_of_text(alloc, text) {
        Ok(bytes) => {
            lengths.given = bytes.len();
            if put_bytes(&bytes, image) { OK } else { BUFFER }
        }
        Err(fault) => put_words(alloc, &fault, words, &mut lengths.words, TEXT),
    }
}

// Opens a machine of what is opened behind a handle, and counts what there is of it.
fn hold(alloc: Global, opened: Opened, machine: &mut MachineHandle, counts: &mut Counts) -> i32
    ensures first { result ≡ pos 0 → Holds machine.new.machine (IsFirst opened) }
    ensures counted { result ≡ pos 0 → IsCounted opened counts.new }
    ensures same { result ≢ pos 0 → machine.new.machine ≡ machine.old.machine }
    ensures uncounted { result ≢ pos 0 → counts.new ≡ counts.old }
    ensures status { (result ≡ pos 0) ⊎ (result ≡ pos 2) }
{
    let Some(counted) = counts_of(alloc, &opened) else {
        return MEMORY;
    };
    match open_machine(alloc, opened, machine) {
        Ok(()) => {
            *counts = counted;
            OK
        }
        Err(_) => MEMORY,
    }
}

// What there is of an image. None: memory was refused.
fn counts_of(alloc: Global, opened: &Opened) -> Option<Counts>
    ensures { IfSome result (IsCounted opened.now) }
{
    let program = opened.verified().image().program();
    let Ok(names) = names_of(alloc, program.variables()) else {
        return None;
    };
    let Ok(state_names) = opened.states().names(alloc) else {
        return None;
    };
    Some(Counts {
        variables: program.variables().len(),
        threads: program.thread_count() as usize,
        names: names.len(),
        states: opened.states().count(),
        state_names: state_names.len(),
    })
}

/// Opens a machine of the image in these bytes behind a handle, before its first tick. 0: the image is valid, and the
/// handle holds its machine. 4: it is none, and `words` begins with the words why. 2: memory was refused. Where it is
/// refused the handle is as it was.
#[unsafe(no_mangle)]
pub extern "C" fn sct_image_open(
    alloc: Global,
    bytes: &[u8],
    words: &mut [u8],
    lengths: &mut Lengths,
    machine: &mut MachineHandle,
    counts: &mut Counts,
) -> i32
    ensures opened { result ≡ pos 0 → OpensImage bytes.now machine.new.machine counts.new }
    ensures same { result ≢ pos 0 → machine.new.machine ≡ machine.old.machine }
    ensures uncounted { result ≢ pos 0 → counts.new ≡ counts.old }
    ensures status { (result ≡ pos 0) ⊎ ((result ≡ pos 2) ⊎ (result ≡ pos 4)) }
{
    match opened_image(alloc, bytes) {
        Ok(opened) => hold(alloc, opened, machine, counts),
        Err(fault) => put_words(alloc, &fault, words, &mut lengths.words, IMAGE),
    }
}

/// Compiles a text and opens a machine of its image behind a handle, with the states of its chart. 0, 2: as
/// `sct_image_open`. 3: the text is refused, and `words` begins with the words why.
#[unsafe(no_mangle)]
pub extern "C" fn sct_text_open(
    alloc: Global,
    text: &[u8],
    words: &mut [u8],
    lengths: &mut Lengths,
    machine: &mut MachineHandle,
    counts: &mut Counts,
) -> i32
    ensures opened { result ≡ pos 0 → OpensText text.now machine.new.machine counts.new }
    ensures fault { result ≡ pos 3 → TellsRefused text.now words.new lengths.new.words }
    ensures same { result ≢ pos 0 → machine.new.machine ≡ machine.old.machine }
    ensures uncounted { result ≢ pos 0 → counts.new ≡ counts.old }
    ensures status { (result ≡ pos 0) ⊎ ((result ≡ pos 2) ⊎ (result ≡ pos 3)) }
{
    match opened_text(alloc, text) {
        Ok(opened) => hold(alloc, opened, machine, counts),
        Err(fault) => put_words(alloc, &fault, words, &mut lengths.words, TEXT),
    }
}

/// The variables of the machine behind a handle, and their names and those of its chart's states, a zero byte behind
/// each. 8: there are not as many rows, or there is no room for the names. 1: there is no machine. 2: memory was
/// refused.
#[unsafe(no_mangle)]
pub extern "C" fn sct_machine_names(
    alloc: Global,
    machine: &mut MachineHandle,
    rows: &mut [VariableRow],
    names: &mut [u8],
    states: &mut [u8],
) -> i32
    ensures told { result ≡ pos 0 → Holds machine.new.machine (TellNames rows.new names.new states.new) }
    ensures asked { result ≡ pos 0 → Holds machine.old.machine (HaveRoom rows.old names.old states.old) }
    ensures lacks { result ≢ pos 0 → Tells result
        (HeldLacksOrMemory (HaveRoom rows.old names.old states.old) fault.Room machine.old.machine) }
    ensures rows { result ≢ pos 0 → rows.new ≡ rows.old }
    ensures names { result ≢ pos 0 → names.new ≡ names.old }
    ensures states { result ≢ pos 0 → states.new ≡ states.old }
    ensures same { machine.new.machine ≡ machine.old.machine }
{
    match tell_names(alloc, machine, rows, names, states) {
        Ok(()) => OK,
        Err(fault) => status_of(fault),
    }
}

/// One tick of the machine behind a handle, by the inputs in cells. The values of its variables go into cells. It takes
/// no memory. 7: the cell of an input holds no value of its kind, or there are not as many cells. 1: there is no
/// machine.
#[unsafe(no_mangle)]
pub extern "C" fn sct_machine_react(
    alloc: Global,
    machine: &mut MachineHandle,
    inputs: &[i32],
    values: &mut [i32],
    steps: &mut u64,
) -> i32
    ensures ticked { result ≡ pos 0
        → TickedHeld inputs.now values.new steps.new machine.old.machine machine.new.machine }
    ensures asked { result ≡ pos 0 → Holds machine.old.machine (AreForTick inputs.now values.old) }
    ensures lacks { result ≢ pos 0 → Tells result
        (HeldLacks (AreForTick inputs.now values.old) fault.Input machine.old.machine) }
    ensures same { result ≢ pos 0 → machine.new.machine ≡ machine.old.machine }
    ensures values { result ≢ pos 0 → values.new ≡ values.old }
    ensures steps { result ≢ pos 0 → steps.new ≡ steps.old }
{
    match react(alloc, machine, inputs, values) {
        Ok(count) => {
            *steps = count;
            OK
        }
        Err(fault) => status_of(fault),
    }
}

/// Puts the configuration of the machine behind a handle into cells. 8: there are not as many. 1: there is no machine.
#[unsafe(no_mangle)]
pub extern "C" fn sct_machine_save(
    alloc: Global,
    machine: &mut MachineHandle,
    values: &mut [i32],
    statuses: &mut [u32],
) -> i32
    ensures saved { result ≡ pos 0
        → Holds machine.new.machine (λ m. HoldControl values.new statuses.new m.control) }
    ensures asked { result ≡ pos 0
        → Holds machine.old.machine (λ m. AreForControl values.old statuses.old m.control) }
    ensures lacks { result ≢ pos 0 → Tells result
        (HeldLacks (λ m. AreForControl values.old statuses.old m.control) fault.Room machine.old.machine) }
    ensures values { result ≢ pos 0 → values.new ≡ values.old }
    ensures statuses { result ≢ pos 0 → statuses.new ≡ statuses.old }
    ensures same { machine.new.machine ≡ machine.old.machine }
{
    match save(alloc, machine, values, statuses) {
        Ok(()) => OK,
        Err(fault) => status_of(fault),
    }
}

/// Puts the machine behind a handle into the configuration in these cells, in which it rests. 9: they hold none. 1, 2:
/// as `sct_machine_names`.
#[unsafe(no_mangle)]
pub extern "C" fn sct_machine_restore(
    alloc: Global,
    machine: &mut MachineHandle,
    values: &[i32],
    statuses: &[u32],
) -> i32
    ensures restored { result ≡ pos 0
        → RestoredHeld values.now statuses.now machine.old.machine machine.new.machine }
    ensures lacks { result ≢ pos 0 → Tells result
        (HeldLacksOrMemory (HoldRestOf values.now statuses.now) fault.Control machine.old.machine) }
    ensures same { result ≢ pos 0 → machine.new.machine ≡ machine.old.machine }
{
    match restore(alloc, machine, values, statuses) {
        Ok(()) => OK,
        Err(fault) => status_of(fault),
    }
}

/// Whether the state of this number of the machine's chart is active, as 1 or 0. 5: there is none of this number. 1:
/// there is no machine.
#[unsafe(no_mangle)]
pub extern "C" fn sct_machine_active(
    alloc: Global,
    machine: &mut MachineHandle,
    number: u32,
    active: &mut bool,
) -> i32
    ensures active { result ≡ pos 0 → Holds machine.new.machine (λ m.
        (active.new ≡ is_active m.opened.states.nodes m.control number) × (number < length m.opened.states.paths)) }
    ensures lacks { result ≢ pos 0 → Tells result (HeldLacks (HasState number) fault.Number machine.old.machine) }
    ensures untold { result ≢ pos 0 → active.new ≡ active.old }
    ensures same { machine.new.machine ≡ machine.old.machine }
{
    match state_is_active(alloc, machine, number) {
        Ok(is) => {
            *active = is;
            OK
        }
        Err(fault) => status_of(fault),
    }
}

/// Puts the machine behind a handle before its first tick again. 1, 2: as `sct_machine_names`.
#[unsafe(no_mangle)]
pub extern "C" fn sct_machine_reset(alloc: Global, machine: &mut MachineHandle) -> i32
    ensures first { result ≡ pos 0 → ResetHeld machine.old.machine machine.new.machine }
    ensures lacks { result ≢ pos 0 → Tells result (ClosedOrMemory machine.old.machine) }
    ensures same { result ≢ pos 0 → machine.new.machine ≡ machine.old.machine }
{
    match reset(alloc, machine) {
        Ok(()) => OK,
        Err(fault) => status_of(fault),
    }
}

/// Closes the machine behind a handle, which holds none then.
#[unsafe(no_mangle)]
pub extern "C" fn sct_machine_close(alloc: Global, machine: &mut MachineHandle)
    ensures { machine.new.machine ≡ None }
{
    close(alloc, machine);
}
