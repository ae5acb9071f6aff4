// What a download offers an entry, and the tests of it, in order; the first that fires decides.
ghost use Rattle.std.specs.Prelude.{◌≡◌, not, ◌||◌, length};
ghost use Rattle.rules_dictionary.specs.declared.Role.TheVariants.{MappingEntry};
ghost use Rattle.rules_dictionary.specs.Table.{identifier, dictionary_length, is_writable};
ghost use Rattle.rules_dictionary.specs.Values.{read};
ghost use Rattle.rules_dictionary.specs.Legal.{is_valid};
ghost use Rattle.state.specs.NmtStates.{is_pre_operational};
ghost use Rattle.rules_services.specs.Sdo.{is_wrong_time};
ghost use Rattle.dictionary.specs.Sizes.{IsSize, IsPdo};
ghost use Rattle.sdo.specs.Verdicts.{result_of, pdo_of};
ghost use Rattle.sdo.specs.Requests.{offered_by, offer_verdict_of};

use crate::aborts::Abort;
use crate::identifiers::is_valid;
use crate::values::value_verdict;
use crate::{Brought, Offer};
use dictionary::{Entry, read, records};
use rules_dictionary::{Access, Role};
use state::NmtState;

// What a download offers an entry of that size: as many bytes as it tells, else as many as the entry has.
pub fn offered(brought: Brought, size: u8) -> Offer
    requires { IsSize size }
    ensures { result ≡ offered_by brought size }
{
    Offer {
        size: brought.count.unwrap_or(size),
        value: read(&brought.bytes, 0, size),
    }
}

// Whether an entry may be written.
fn may_write(access: Access) -> bool
    ensures { result ≡ is_writable access }
{
    matches!(access, Access::Writable)
}

// "mappings outside Pre-operational; mappings while that PDO is valid".
fn is_mapping_shut(nmt: NmtState, d: &[u8], p: usize) -> bool
    requires { (length d.now ≡ dictionary_length) × IsPdo p }
    ensures { result ≡ (not (is_pre_operational nmt) || is_valid (read d.now (identifier p))) }
{
    !nmt.is_pre_operational() || is_valid(records::identifier(d, p))
}

// "entries while :0 is not 0".
fn is_entry_shut(nmt: NmtState, d: &[u8], p: usize) -> bool
    requires { (length d.now ≡ dictionary_length) × IsPdo p }
    ensures { result ≡ is_wrong_time nmt d.now (MappingEntry p) }
{
    is_mapping_shut(nmt, d, p) || records::map_count(d, p) != 0
}

// Whether an entry of that role may not be written now.
fn is_wrong_time(nmt: NmtState, d: &[u8], role: Role) -> bool
    requires { (length d.now ≡ dictionary_length) × IsPdo (pdo_of role) }
    ensures { result ≡ is_wrong_time nmt d.now role }
{
    // Identifier and type have an arm each: document 01 has a rule for each.
    match role {
        Role::Plain | Role::ModeOfOperation | Role::MinimumLimit | Role::MaximumLimit => false,
        Role::PdoIdentifier(_) => !nmt.is_pre_operational(),
        Role::PdoType(_) => !nmt.is_pre_operational(),
        Role::MappingCount(p) => is_mapping_shut(nmt, d, p as usize),
        Role::MappingEntry(p) => is_entry_shut(nmt, d, p as usize),
    }
}

// What an offer to an entry gives.
pub fn offer_verdict(nmt: NmtState, d: &[u8], e: Entry, offer: Offer) -> Result<(), Abort>
    requires { (length d.now ≡ dictionary_length) × IsPdo (pdo_of e.role) }
    ensures { result ≡ result_of (offer_verdict_of nmt d.now e offer) }
{
    if !may_write(e.access) {
        return Err(Abort::NoWriting);
    }
    if e.size < offer.size {
        return Err(Abort::TooLong);
    }
    if offer.size < e.size {
        return Err(Abort::TooShort);
    }
    if is_wrong_time(nmt, d, e.role) {
        return Err(Abort::WrongTime);
    }
    value_verdict(d, e, offer.value)
}
