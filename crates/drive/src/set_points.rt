// Document 01, 'Set-points': the store, the two marks, and the rule at the rising edge of bit 4; 6060h and 6040h, acted on.

ghost use Rattle.std.specs.Prelude.{◌≡◌, true, false, cond, not, ◌&&◌, length};
ghost use Rattle.rules_dictionary.specs.Table.{dictionary_length};
ghost use Rattle.drive.specs.SetPoints.{with_state, with_mode, with_cause, with_store, with_marks, with_stay, is_position, positions, emptied};
ghost use Rattle.drive.specs.SetPoints.{is_empty, is_queued, is_moving, last_target, behind, reached, moved_on, offered, set_point_rule, enters};
ghost use Rattle.drive.specs.SetPoints.{mode_of, mode_written, control_written, with_taken};
ghost use Rattle.drive.specs.Words.{aim_of, set_point_to};

use crate::states::{command, has, is_enabled, next, resets};
use crate::words::aim;
use crate::{Controlled, Drive, DriveState, SetPoint, Store};
use dictionary::objects;
use rules_dictionary::{Mode, PROFILE_POSITION, PROFILE_VELOCITY};

// The bits of 6040h in mode 1.
pub const NEW_SET_POINT: u16 = 16;

const AT_ONCE: u16 = 32;

const RELATIVE: u16 = 64;

impl Store {
    // Is nothing held.
    pub fn is_empty(self) -> bool
        ensures { result ≡ is_empty self }
    {
        matches!(self, Store::Empty)
    }

    // Are there two set-points.
    pub fn is_queued(self) -> bool
        ensures { result ≡ is_queued self }
    {
        matches!(self, Store::Queued(_, _))
    }

    // Is there a set-point to move to: Moving or Queued.
    pub fn is_moving(self) -> bool
        ensures { result ≡ is_moving self }
    {
        matches!(self, Store::Moving(_) | Store::Queued(_, _))
    }

    // The last taken target; where there is none, the position, 6064h.
    pub fn last_target(self, here: u32) -> u32
        ensures { result ≡ last_target here self }
    {
        match self {
            Store::Empty => here,
            Store::Rested(t) => t,
            Store::Moving(a) | Store::Queued(_, a) => a.target,
        }
    }

    // A set-point taken behind what is there: "Moving, or Queued behind one".
    pub fn behind(self, p: SetPoint) -> Store
        ensures { result ≡ behind self p }
    {
        match self {
            Store::Empty | Store::Rested(_) => Store::Moving(p),
            Store::Moving(a) => Store::Queued(a, p),
            Store::Queued(_, _) => self,
        }
    }

    // "Event 6 moves on, or to Rested."
    pub fn reached(self) -> Store
        ensures { result ≡ reached self }
    {
        match self {
            Store::Empty | Store::Rested(_) => self,
            Store::Moving(a) => Store::Rested(a.target),
            Store::Queued(_, b) => Store::Moving(b),
        }
    }
}

// Is the mode 1, profile position.
fn is_position(m: Mode) -> bool
    ensures { result ≡ is_position m }
{
    matches!(m, Mode::ProfilePosition)
}

// The mode of a legal 6060h. Stays a `match`: the definition `mode_of` gives every other number `NoMode`, where TryFrom would bring an error
// that nobody tells.
pub fn mode_of(number: u8) -> Mode
    ensures { result ≡ mode_of number }
{
    match number {
        PROFILE_POSITION => Mode::ProfilePosition,
        PROFILE_VELOCITY => Mode::ProfileVelocity,
        _ => Mode::NoMode,
    }
}

// The drive with one part changed.
impl Drive {
    // The drive in that state, and all else as it was.
    pub fn with_state(self, s: DriveState) -> Drive
        ensures { result ≡ with_state s self }
    {
        Drive { state: s, ..self }
    }

    // The drive in that mode, and all else as it was.
    pub fn with_mode(self, m: Mode) -> Drive
        ensures { result ≡ with_mode m self }
    {
        Drive { mode: m, ..self }
    }

    // A fault's cause present or not, and all else as it was.
    pub fn with_cause(self, present: bool) -> Drive
        ensures { result ≡ with_cause present self }
    {
        Drive {
            cause: present,
            ..self
        }
    }

    // That store, and all else as it was.
    pub fn with_store(self, s: Store) -> Drive
        ensures { result ≡ with_store s self }
    {
        Drive { store: s, ..self }
    }

    // That count of ticks inside the window, and all else as it was.
    pub fn with_stay(self, ticks: u16) -> Drive
        ensures { result ≡ with_stay ticks self }
    {
        Drive {
            stay: ticks,
            ..self
        }
    }

    // Those two marks, taken and limit, and all else as it was.
    pub fn with_marks(self, taken: bool, limit: bool) -> Drive
        ensures { result ≡ with_marks taken limit self }
    {
        Drive {
            taken,
            limit,
            ..self
        }
    }
}

// The rules of the store.
impl Drive {
    // Is the drive in Operation enabled with mode 1.
    pub fn positions(self) -> bool
        ensures { result ≡ positions self }
    {
        is_enabled(self.state) && is_position(self.mode)
    }

    // "It empties, and both marks clear, on leaving Operation enabled or mode 1."
    #[tactic(auto, unfolding(crate::specs::SetPoints::emptied))]
    pub fn emptied(self) -> Drive
        ensures { result ≡ emptied self }
    {
        if self.positions() {
            self
        } else {
            self.with_store(Store::Empty).with_marks(false, false)
        }
    }

    // Event 6. Of two set-points the second becomes the active one, and ticks inside the window are counted from 0 again.
    #[tactic(auto, unfolding(crate::specs::SetPoints::moved_on))]
    pub fn moved_on(self) -> Drive
        ensures { result ≡ moved_on self }
    {
        let next = self.with_store(self.store.reached());
        if self.store.is_queued() {
            next.with_stay(0)
        } else {
            next
        }
    }

    // The drive in that state, left as the rules leave it.
    #[tactic(auto, unfolding(crate::specs::SetPoints::enters))]
    pub fn enters(self, s: DriveState) -> Drive
        ensures { result ≡ enters s self }
    {
        self.with_state(s).emptied()
    }

    // 6060h, acted on as it now stands in the dictionary.
    #[tactic(auto, unfolding(crate::specs::SetPoints::mode_written))]
    pub fn mode_written(self, d: &[u8]) -> Drive
        requires { length d.now ≡ dictionary_length }
        ensures { result ≡ mode_written d.now self }
    {
        self.with_mode(mode_of(objects::mode(d))).emptied()
    }
}

// Where a target counts from: with bit 6 the last taken target, else 0.
fn base(relative: bool, held: Store, here: u32) -> u32
    ensures { result ≡ cond relative (last_target here held) 0 }
{
    if relative { held.last_target(here) } else { 0 }
}

// "target is 607Ah, or with bit 6 the last taken target (Empty: 6064h) plus 607Ah", where it is inside 607Dh.
#[tactic(auto, unfolding(crate::specs::Words::aim_of, crate::specs::SetPoints::target))]
fn aim_of(d: &[u8], word: u16, held: Store) -> Option<u32>
    requires { length d.now ≡ dictionary_length }
    ensures { result ≡ aim_of d.now word held }
{
    aim(
        base(has(word, RELATIVE), held, objects::position(d)),
        objects::target_position(d),
        objects::minimum_position(d),
        objects::maximum_position(d),
    )
}

// A set-point to that target, "taken with 6081h, 6083h, 6084h".
#[tactic(auto, unfolding(crate::specs::Words::set_point_to))]
fn set_point(d: &[u8], target: u32) -> SetPoint
    requires { length d.now ≡ dictionary_length }
    ensures { result ≡ set_point_to d.now target }
{
    SetPoint {
        target,
        velocity: objects::profile_velocity(d),
        acceleration: objects::profile_acceleration(d),
        deceleration: objects::profile_deceleration(d),
    }
}

// No room for a set-point: bit 5 zero, and Queued.
fn is_full(at_once: bool, held: Store) -> bool
    ensures { result ≡ (not at_once && is_queued held) }
{
    !at_once && held.is_queued()
}

// The edge of bit 4, and 6040h acted on.
impl Drive {
    // The store with a set-point newly taken: "Taken sets the taken mark and clears the limit mark".
    fn holds(self, s: Store) -> Drive
        ensures { result ≡ with_marks true false (with_store s self) }
    {
        self.with_store(s).with_marks(true, false)
    }

    // "bit 5 replaces all, else Moving, or Queued behind one". For a new active set-point ticks inside the window are counted from 0 again.
    #[tactic(auto, unfolding(crate::specs::SetPoints::with_taken))]
    fn take(self, word: u16, p: SetPoint) -> Drive
        ensures { result ≡ with_taken word p self }
    {
        if has(word, AT_ONCE) {
            return self.holds(Store::Moving(p)).with_stay(0);
        }
        let holding = self.holds(self.store.behind(p));
        if self.store.is_moving() {
            holding
        } else {
            holding.with_stay(0)
        }
    }

    // "with bit 5 zero and Queued, not taken; .. outside 607Dh or i32, not taken, limit mark set. Otherwise taken".
    #[tactic(auto, unfolding(crate::specs::SetPoints::open_set_points, crate::specs::Words::set_point_to, crate::specs::Words::aim_of, crate::specs::Words::aimed))]
    fn offered(self, d: &[u8], word: u16) -> Drive
        requires { length d.now ≡ dictionary_length }
        ensures { result ≡ offered d.now word self }
    {
        if is_full(has(word, AT_ONCE), self.store) {
            return self;
        }
        match aim_of(d, word, self.store) {
            Some(target) => self.take(word, set_point(d, target)),
            None => self.with_marks(self.taken, true),
        }
    }

    // "if enabled in mode 1 and bit 4 rose against the old 6040h"; "bit 4 zero clears the taken mark".
    #[tactic(auto, unfolding(crate::specs::SetPoints::set_point_rule))]
    fn set_point_rule(self, d: &[u8], old: u16, word: u16) -> Drive
        requires { length d.now ≡ dictionary_length }
        ensures { result ≡ set_point_rule d.now old word self }
    {
        if !has(word, NEW_SET_POINT) {
            return self.with_marks(false, self.limit);
        }
        if self.positions() && !has(old, NEW_SET_POINT) {
            self.offered(d, word)
        } else {
            self
        }
    }

    // 6040h, acted on as it now stands in the dictionary: the drive command first, then the set-point. `old` is 6040h before the write.
    #[tactic(auto, unfolding(crate::specs::SetPoints::control_written))]
    pub fn control_written(self, d: &[u8], old: u16) -> Controlled
        requires { length d.now ≡ dictionary_length }
        ensures { result ≡ control_written d.now old self }
    {
        let word = objects::control_word(d);
        let asked = command(old, word);
        let entered = self.enters(next(self.cause, self.state, asked));
        Controlled {
            drive: entered.set_point_rule(d, old, word),
            reset: resets(self.cause, self.state, asked),
        }
    }
}
