// The bench program of document 01: records from standard input to the node, its answers as lines on standard output.
// What is read and written is std's, with no buffer between; every call of the node is one of crate cendurak. docs/BENCH.md says how to use it.

#![tactic(auto)]

mod batches; // what one read brings
mod lines; // the lines of an answer
mod records; // one record

use batches::{Place, batch};
use dictionary::places::DICTIONARY_LENGTH;
use form::layout::STATE_LENGTH;
use lines::{INPUT_LENGTH, Text};
use output::OUTPUT_LENGTH;

// Batch after batch. A loop has to end: this one counts to a number that no input uses up.
fn main(rt: HostRuntime) {
    let mut reader = rt.stdin();
    let mut writer = rt.stdout();
    let mut state = [0u8; STATE_LENGTH];
    let mut dictionary = [0u8; DICTIONARY_LENGTH];
    let mut output = [0u8; OUTPUT_LENGTH];
    let mut input = [0u8; INPUT_LENGTH];
    let mut text = Text::new();
    let mut place = Place { kept: 0, number: 1 };
    for _ in 0..u64::MAX {
        let next = batch(
            &mut reader,
            &mut writer,
            &mut input,
            &mut text,
            &mut state,
            &mut dictionary,
            &mut output,
            place,
        );
        let Some(next) = next else { return };
        place = next;
    }
}
