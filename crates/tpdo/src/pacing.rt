// When a transmit PDO is sent.
ghost use Rattle.std.specs.Prelude.{◌≡◌, true, ◌+◌, ◌<◌, length};
ghost use Rattle.rules_dictionary.specs.Table.{each_way, dictionary_length};
ghost use Rattle.rules_dictionary.specs.Legal.{is_cyclic};
ghost use Rattle.rules_services.specs.PdoTraffic.{paced, cyclic, acyclic, pace_of, type_of};
ghost use Rattle.mapping.specs.Working.{is_open};
ghost use Rattle.tpdo.specs.Sending.{open_pace};

use dictionary::choices::LAST_SYNCHRONOUS;
use dictionary::places::EACH_WAY;
use dictionary::records;
use mapping::is_open;
use rules_services::Paced;
use state::{Occasion, Pace};

// Whether it is sent, and what is kept of it: stays a flag beside a value, since the value is kept whether or not it is sent.
fn paced(send: bool, count: u8, due: bool) -> Paced
    ensures { result ≡ paced send count due }
{
    Paced {
        send,
        kept: Pace { count, due },
    }
}

// "Type 1..240: each n-th SYNC since entering Operational."
fn cyclic(kind: u8, synced: bool, count: u8) -> Paced
    requires { count < kind }
    ensures { result ≡ cyclic kind synced count }
{
    if !synced {
        return paced(false, count, false);
    }
    let next = count + 1;
    if next == kind {
        return paced(true, 0, false);
    }
    paced(false, next, false)
}

// "Type 0: if any call, this one included, changed its ready frame since last sent, or none was sent since entering."
fn acyclic(synced: bool, due: bool) -> Paced
    ensures { result ≡ acyclic synced due }
{
    if synced {
        return paced(due, 0, false);
    }
    paced(false, 0, due)
}

// The pace by type; `changed` is: this call changed the ready frame or entered Operational.
fn pace_of(kind: u8, occasion: Occasion, changed: bool, kept: Pace) -> Paced
    requires { is_cyclic kind ≡ true → kept.count < kind }
    ensures { result ≡ pace_of kind occasion changed kept }
{
    if LAST_SYNCHRONOUS < kind {
        return paced(changed, 0, false);
    }
    let synced = occasion.is_synced();
    if 0 < kind {
        return cyclic(kind, synced, kept.count);
    }
    if changed {
        return acyclic(synced, true);
    }
    acyclic(synced, kept.due)
}

// The pace of transmit PDO t, 0 to 3, at the end of a call that ends Operational; `kept` is what was kept of it.
pub fn pace(d: &[u8], t: usize, occasion: Occasion, changed: bool, kept: Pace) -> Paced
    requires { (length d.now ≡ dictionary_length) × ((t < each_way)
        × (is_open d.now (each_way + t) ≡ true → is_cyclic (type_of d.now (each_way + t)) ≡ true → kept.count < type_of d.now (each_way + t))) }
    ensures { result ≡ open_pace d.now t occasion changed kept }
{
    let p = EACH_WAY + t;
    if !is_open(d, p) {
        return paced(false, 0, false);
    }
    pace_of(records::transmission_type(d, p), occasion, changed, kept)
}
