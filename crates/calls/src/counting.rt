// The ticks inside the window, counted at the end of a call, before 6041h is made.
ghost use Rattle.std.specs.Prelude.{◌≡◌, true, length};
ghost use Rattle.rules_dictionary.specs.Table.{dictionary_length};
ghost use Rattle.drive.specs.Window.{counted};
ghost use Rattle.rules.specs.Sound.{stay_sound};
ghost use Rattle.form.specs.Form.{state_length, state_of};
ghost use Rattle.form.specs.Holding.{Holds};
ghost use Rattle.calls.specs.Ending.{counted_in, with_ticks, comes, left_by};

use dictionary::objects;
use drive::window::one_more;
use form::{is_position_inside, put_stay, read_stay};
use output::Done;

// The ticks inside the window at the end of a call, which was a tick or was none.
fn counted(ticked: bool, state: &[u8], d: &[u8]) -> u16
    requires { (length state.now ≡ state_length) × (length d.now ≡ dictionary_length) }
    ensures { result ≡ counted ticked (state_of state.now).axis.drive d.now }
{
    let before = read_stay(state);
    if !is_position_inside(state, d) {
        return 0;
    }
    if ticked { one_more(before) } else { before }
}

// The same of a tick that finds them sound: where some were counted the position is inside.
fn counted_more(state: &[u8], d: &[u8]) -> u16
    requires lengths { (length state.now ≡ state_length) × (length d.now ≡ dictionary_length) }
    requires sound { stay_sound (state_of state.now).axis.drive d.now ≡ true }
    ensures { result ≡ counted true (state_of state.now).axis.drive d.now }
{
    let before = read_stay(state);
    if before == 0 {
        return counted(true, state, d);
    }
    one_more(before)
}

// They are put, as the end of a call leaves them. Without a tick none are counted where none were.
fn count(ticked: bool, state: &mut [u8], d: &[u8])
    requires { Holds state.old (state_of state.old) × ((length state.old ≡ state_length) × (length d.now ≡ dictionary_length)) }
    ensures { Holds state.new
        (with_ticks (counted ticked (state_of state.old).axis.drive d.now) (state_of state.old)) }
{
    let before = read_stay(state);
    if (before == 0) & !ticked {
        return;
    }
    let stay = counted(ticked, state, d);
    put_stay(state, stay);
}

// They are put after a tick that left nothing else to do. Whether they came to the window time with it, so that bit 10 shows.
fn count_quietly(state: &mut [u8], d: &[u8]) -> bool
    requires holds { Holds state.old (state_of state.old) × ((length state.old ≡ state_length) × (length d.now ≡ dictionary_length)) }
    requires sound { stay_sound (state_of state.old).axis.drive d.now ≡ true }
    ensures counted { Holds state.new
        (with_ticks (counted true (state_of state.old).axis.drive d.now) (state_of state.old)) }
    ensures value { result ≡ comes (state_of state.old).axis.drive d.now }
{
    let stay = counted_more(state, d);
    if stay == read_stay(state) {
        return false;
    }
    put_stay(state, stay);
    stay == objects::window_time(d)
}

// The ticks inside the window are put, before all else. Whether anything is left to do then: not so after a quiet service, but where bit 10 shows
// by a tick.
pub fn is_left(done: Done, state: &mut [u8], d: &[u8]) -> bool
    requires holds { Holds state.old (state_of state.old) × ((length state.old ≡ state_length) × (length d.now ≡ dictionary_length)) }
    requires sound { done.quiet ≡ true → stay_sound (state_of state.old).axis.drive d.now ≡ true }
    ensures counted { Holds state.new (counted_in done.occasion d.now (state_of state.old)) }
    ensures value { result ≡ left_by done (state_of state.old).axis.drive d.now }
{
    let ticked = done.occasion.is_ticked();
    if !done.quiet {
        count(ticked, state, d);
        return true;
    }
    if !ticked {
        return false;
    }
    count_quietly(state, d)
}
