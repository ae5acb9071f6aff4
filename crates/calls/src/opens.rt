// The refusals that come first: the lengths of what is lent, then of power-up the node-ID, of every other call soundness.
ghost use Rattle.std.specs.Prelude.{◌≡◌, cond, length};
ghost use Rattle.state.specs.declared.Refusal.TheVariants.{NotSound};
ghost use Rattle.rules_dictionary.specs.Table.{dictionary_length};
ghost use Rattle.calls.specs.Opening.{refused_for, not_refused, lending, powering, holds_sound, opening_of, loadable_of};

use dictionary::places::DICTIONARY_LENGTH;
use form::layout::STATE_LENGTH;
use output::OUTPUT_LENGTH;
use soundness::is_sound;
use state::{FIRST_NODE, LAST_NODE, Refusal};

// Of every call: what is lent is long enough.
fn lent(d: &[u8], output: &[u8]) -> Result<(), Refusal>
    ensures { result ≡ lending d.now output.now }
{
    if d.len() != DICTIONARY_LENGTH {
        return Err(Refusal::DictionaryLength);
    }
    if output.len() < OUTPUT_LENGTH {
        return Err(Refusal::OutputLength);
    }
    Ok(())
}

// Of power-up: and the node-ID is one. No type of node-IDs: the clause speaks of every number n, and soundness tests a byte of the state.
pub fn powering(n: u32, d: &[u8], output: &[u8]) -> Result<(), Refusal>
    ensures { result ≡ powering n d.now output.now }
{
    lent(d, output)?;
    if !(FIRST_NODE..=LAST_NODE).contains(&n) {
        return Err(Refusal::NodeId);
    }
    Ok(())
}

// The bytes hold a state, which is sound with the dictionary.
fn held(state: &[u8], d: &[u8]) -> Result<(), Refusal>
    requires { length d.now ≡ dictionary_length }
    ensures { result ≡ cond (holds_sound state.now d.now) not_refused (refused_for NotSound) }
{
    if state.len() != STATE_LENGTH {
        return Err(Refusal::NotSound);
    }
    if !is_sound(state, d) {
        return Err(Refusal::NotSound);
    }
    Ok(())
}

// Of a frame or an event: and the bytes hold a sound state.
pub fn opened(state: &[u8], d: &[u8], output: &[u8]) -> Result<(), Refusal>
    ensures { result ≡ opening_of state.now d.now output.now }
{
    lent(d, output)?;
    held(state, d)
}

// Of a load, which is lent no output: the dictionary's length, and then the same.
pub fn loadable(state: &[u8], d: &[u8]) -> Result<(), Refusal>
    ensures { result ≡ loadable_of state.now d.now }
{
    // By a name: the wrong edit `dictionary_of_390` changes the test in `lent`, which it knows by its text.
    let length = d.len();
    if length != DICTIONARY_LENGTH {
        return Err(Refusal::DictionaryLength);
    }
    held(state, d)
}
