// Ticket 2: the position inside the window 6067h, and the ticks that it has been there.

ghost use Rattle.std.specs.Prelude.{◌≡◌, length};
ghost use Rattle.drive.specs.Window.{near, inside, one_more};
ghost use Rattle.rules_dictionary.specs.Table.{dictionary_length};

use crate::Store;
use crate::words::is_within;
use dictionary::objects;

// Is the target within 6067h of 6064h.
#[tactic(auto, unfolding(crate::specs::Window::near))]
pub fn is_near(target: u32, d: &[u8]) -> bool
    requires { length d.now ≡ dictionary_length }
    ensures { result ≡ near target d.now }
{
    is_within(objects::position_window(d), target, objects::position(d))
}

// Is the position "inside 6067h of the active target (Rested: of the target at rest)".
#[tactic(auto, unfolding(crate::specs::Window::inside))]
pub fn is_inside(store: Store, d: &[u8]) -> bool
    requires { length d.now ≡ dictionary_length }
    ensures { result ≡ inside store d.now }
{
    match store {
        Store::Empty => false,
        Store::Rested(target) => is_near(target, d),
        Store::Moving(a) | Store::Queued(a, _) => is_near(a.target, d),
    }
}

// One tick more, "to 65,535 at most".
pub fn one_more(ticks: u16) -> u16
    ensures { result ≡ one_more ticks }
{
    ticks.saturating_add(1)
}
