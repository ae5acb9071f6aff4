// A value for an entry: its range, then what further rule the entry's role gives.
ghost use Rattle.std.specs.Prelude.{◌≡◌, length};
ghost use Rattle.rules_dictionary.specs.Table.{dictionary_length};
ghost use Rattle.dictionary.specs.Sizes.{IsPdo};
ghost use Rattle.sdo.specs.Verdicts.{result_of, bad_if, limits_verdict, pdo_of, role_verdict, value_verdict_of};

use crate::aborts::Abort;
use crate::identifiers::bad_identifier;
use crate::mappings::{count_verdict, entry_verdict};
use dictionary::choices::{is_mode, is_type};
use dictionary::{Entry, objects};
use drive::words::is_at_most;
use rules_dictionary::Role;

// The verdict on a value that is bad, or not, for another reason than its range.
fn bad_if(bad: bool) -> Result<(), Abort>
    ensures { result ≡ result_of (bad_if bad) }
{
    if bad {
        return Err(Abort::BadValue);
    }
    Ok(())
}

// The verdict on a minimum beside a maximum: equal ones are in order.
fn limits_verdict(minimum: u32, maximum: u32) -> Result<(), Abort>
    ensures { result ≡ result_of (limits_verdict minimum maximum) }
{
    if is_at_most(minimum, maximum) {
        return Ok(());
    }
    Err(Abort::LimitsSwapped)
}

// What the rule of a role gives for a value. A limit is judged beside the other one as it stands.
fn role_verdict(d: &[u8], role: Role, v: u32) -> Result<(), Abort>
    requires { (length d.now ≡ dictionary_length) × IsPdo (pdo_of role) }
    ensures { result ≡ result_of (role_verdict d.now role v) }
{
    match role {
        Role::Plain => Ok(()),
        Role::ModeOfOperation => bad_if(!is_mode(v)),
        Role::MinimumLimit => limits_verdict(v, objects::maximum_position(d)),
        Role::MaximumLimit => limits_verdict(objects::minimum_position(d), v),
        Role::PdoIdentifier(p) => bad_if(bad_identifier(d, p as usize, v)),
        Role::PdoType(_) => bad_if(!is_type(v)),
        Role::MappingCount(p) => count_verdict(d, p as usize, v),
        Role::MappingEntry(p) => entry_verdict(p as usize, v),
    }
}

// What an SDO write of that value to the entry gives.
pub fn value_verdict(d: &[u8], e: Entry, v: u32) -> Result<(), Abort>
    requires { (length d.now ≡ dictionary_length) × IsPdo (pdo_of e.role) }
    ensures { result ≡ result_of (value_verdict_of d.now e v) }
{
    if v < e.least {
        return Err(Abort::BelowRange);
    }
    if e.greatest < v {
        return Err(Abort::AboveRange);
    }
    role_verdict(d, e.role, v)
}
