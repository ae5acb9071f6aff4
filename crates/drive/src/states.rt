// Document 01, 'Drive states': the commands of 6040h, and what each does in each state.

ghost use Rattle.std.specs.Prelude.{◌≡◌, ◌/◌, ◌%◌, ◌<◌, ◌&&◌, not, eqb};
ghost use Rattle.drive.specs.DriveStates.{command, next, resets, from_disabled, from_powered, from_quick_stop, from_fault, is_not_ready};
ghost use Rattle.drive.specs.DriveStates.{is_at_rest};
ghost use Rattle.drive.specs.DriveStates.{is_enabled, is_quick_stop, is_reaction, is_faulty, is_fault_reset, state_word};

use crate::{Command, DriveState};

// The bits of 6040h, by their weights.
const SWITCH_ON: u16 = 1;

const VOLTAGE: u16 = 2;

const QUICK_STOP: u16 = 4;

const ENABLE: u16 = 8;

const FAULT_RESET: u16 = 128;

// Is the bit of that weight set in the word.
// Stays a division: `ensures` speaks of every weight over 0, and where one is no power of two, `word & weight != 0` says another thing.
pub fn has(word: u16, weight: u16) -> bool
    requires { 0 < weight }
    ensures { result ≡ eqb (word / weight % 2) 1 }
{
    word / weight % 2 == 1
}

// What a control word asks of the drive; `old` is the word before it. "Bit 7 set: Fault reset if it was 0 before, else none. Otherwise: bit 1 zero,
// Disable voltage; bit 1 one, bit 2 zero, Quick stop; 1 1 0 (bits 2-0) Shutdown; 0111 Switch on; 1111 Enable."
#[tactic(auto, unfolding(crate::specs::DriveStates::command))]
pub fn command(old: u16, word: u16) -> Command
    ensures { result ≡ command old word }
{
    if has(word, FAULT_RESET) {
        return if has(old, FAULT_RESET) {
            Command::None
        } else {
            Command::FaultReset
        };
    }
    if !has(word, VOLTAGE) {
        return Command::DisableVoltage;
    }
    if !has(word, QUICK_STOP) {
        return Command::QuickStop;
    }
    if !has(word, SWITCH_ON) {
        return Command::Shutdown;
    }
    if has(word, ENABLE) {
        Command::Enable
    } else {
        Command::SwitchOn
    }
}

// The tables of the states stay a function each: each is one sentence of document 01 and one definition.

// "Switch on disabled: Shutdown to Ready."
fn from_disabled(c: Command) -> DriveState
    ensures { result ≡ from_disabled c }
{
    match c {
        Command::Shutdown => DriveState::ReadyToSwitchOn,
        _ => DriveState::SwitchOnDisabled,
    }
}

// "Ready, Switched on, Operation enabled: Shutdown to Ready, Switch on to Switched on, Enable to Operation enabled; Disable
// voltage to disabled"; where Quick stop leads is the caller's to say.
fn from_powered(present: DriveState, stopped: DriveState, c: Command) -> DriveState
    ensures { result ≡ from_powered present stopped c }
{
    match c {
        Command::None | Command::FaultReset => present,
        Command::DisableVoltage => DriveState::SwitchOnDisabled,
        Command::QuickStop => stopped,
        Command::Shutdown => DriveState::ReadyToSwitchOn,
        Command::SwitchOn => DriveState::SwitchedOn,
        Command::Enable => DriveState::OperationEnabled,
    }
}

// "Quick stop active: Enable back; Disable voltage .. to disabled."
fn from_quick_stop(c: Command) -> DriveState
    ensures { result ≡ from_quick_stop c }
{
    match c {
        Command::DisableVoltage => DriveState::SwitchOnDisabled,
        Command::Enable => DriveState::OperationEnabled,
        _ => DriveState::QuickStopActive,
    }
}

// "Fault: Fault reset without cause to disabled"
fn from_fault(cause: bool, c: Command) -> DriveState
    ensures { result ≡ from_fault cause c }
{
    match c {
        Command::FaultReset if !cause => DriveState::SwitchOnDisabled,
        _ => DriveState::Fault,
    }
}

// The state after a command; the flag says whether a fault's cause is present. Quick stop leads to disabled, "but from
// Operation enabled to Quick stop active".
#[tactic(auto, unfolding(crate::specs::DriveStates::next))]
pub fn next(cause: bool, s: DriveState, c: Command) -> DriveState
    ensures { result ≡ next cause s c }
{
    match s {
        DriveState::NotReady | DriveState::FaultReactionActive => s,
        DriveState::SwitchOnDisabled => from_disabled(c),
        DriveState::ReadyToSwitchOn | DriveState::SwitchedOn => from_powered(
            s,
            DriveState::SwitchOnDisabled,
            c,
        ),
        DriveState::OperationEnabled => from_powered(s, DriveState::QuickStopActive, c),
        DriveState::QuickStopActive => from_quick_stop(c),
        DriveState::Fault => from_fault(cause, c),
    }
}

// Is the drive in Not ready.
pub fn is_not_ready(s: DriveState) -> bool
    ensures { result ≡ is_not_ready s }
{
    matches!(s, DriveState::NotReady)
}

// Is the drive in Not ready or Switch on disabled, where a configuration may be loaded.
pub fn is_at_rest(s: DriveState) -> bool
    ensures { result ≡ is_at_rest s }
{
    matches!(s, DriveState::NotReady | DriveState::SwitchOnDisabled)
}

// Is the drive in Operation enabled.
pub fn is_enabled(s: DriveState) -> bool
    ensures { result ≡ is_enabled s }
{
    matches!(s, DriveState::OperationEnabled)
}

// Is the drive in Quick stop active.
pub fn is_quick_stop(s: DriveState) -> bool
    ensures { result ≡ is_quick_stop s }
{
    matches!(s, DriveState::QuickStopActive)
}

// Is the drive in Fault reaction active.
pub fn is_reaction(s: DriveState) -> bool
    ensures { result ≡ is_reaction s }
{
    matches!(s, DriveState::FaultReactionActive)
}

// Is the drive in one of "the two fault states".
pub fn is_faulty(s: DriveState) -> bool
    ensures { result ≡ is_faulty s }
{
    matches!(s, DriveState::FaultReactionActive | DriveState::Fault)
}

// Does this command reset a fault whose cause may be present.
fn clears(cause: bool, c: Command) -> bool
    ensures { result ≡ (is_fault_reset c && not cause) }
{
    matches!(c, Command::FaultReset) && !cause
}

// Does this command reset a fault: in Fault, and without cause.
#[tactic(auto, unfolding(crate::specs::DriveStates::resets))]
pub fn resets(cause: bool, s: DriveState, c: Command) -> bool
    ensures { result ≡ resets cause s c }
{
    matches!(s, DriveState::Fault) && clears(cause, c)
}

// The state's part of the status word.
pub fn state_word(s: DriveState) -> u16
    ensures { result ≡ state_word s }
{
    s as u16
}
