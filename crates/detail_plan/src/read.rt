//! The detail table that bytes declare.

ghost use Rattle.std.specs.Prelude.{◌≡◌, ◌≢◌, Err, Ok, None, Some, IfErr, IfOk, IsUtf8, OnOk};
ghost use Rattle.toml.specs.View.{table_view};
ghost use Rattle.schema_read.specs.Document.{document};
ghost use Rattle.detail_plan.specs.Reading.{declared, declared_by};
ghost use Rattle.detail_plan.specs.Form.{columns_under, detail_given, detail_of};
ghost use Rattle.detail_plan.specs.declared.read.DetailReadFault.TheVariants.{Memory as OutOfMemory};

use crate::detail::{Detail, DetailColumns};
use crate::wanted::TOP_KEYS;
use out_of_memory::Memory;
use schema_read::{SchemaKey, has_right_keys, list_if_any, text_at, whole_at};
use std::alloc::Global;
use toml::Table;

/// Why bytes declare no detail table.
#[derive(Clone, Copy, Debug, PartialEq, Eq)]
pub enum DetailReadFault {
    /// The bytes aren't a TOML document.
    Syntax,
    /// The document has a wrong key. A key is missing, is of another type, or has no place there.
    WrongForm,
    /// No memory was left to read the document.
    Memory,
}

impl From<Memory> for DetailReadFault {
    ghost from_gives = { λ _ e. e ≡ OutOfMemory };

    fn from(_e: Memory) -> DetailReadFault {
        DetailReadFault::Memory
    }
}

/// Reads the detail table that the keys of a document declare, with these columns.
fn detail_of(alloc: Global, members: &Table, columns: DetailColumns) -> Result<Detail, Memory>
    ensures { IfOk result (λ read. read ≡ detail_of (table_view members.now) columns) }
{
    let name = text_at(alloc, members, SchemaKey::Name)?;
    let parent = text_at(alloc, members, SchemaKey::Parent)?;
    Ok(Detail {
        seed: whole_at(members, SchemaKey::Seed),
        lo: whole_at(members, SchemaKey::Lo),
        hi: whole_at(members, SchemaKey::Hi),
        name,
        parent,
        columns,
    })
}

/// Reads the columns of a document. Returns None if one of them has a wrong key.
fn columns_under(alloc: Global, members: &Table) -> Result<Option<DetailColumns>, Memory>
    ensures { IfOk result (λ found. found ≡ columns_under (table_view members.now)) }
{
    list_if_any(alloc, members, SchemaKey::Column)
}

/// Reads the detail table that a document declares. Returns None if one of its keys is wrong.
fn detail_given(alloc: Global, members: &Table) -> Result<Option<Detail>, Memory>
    ensures { IfOk result (λ found. found ≡ detail_given (table_view members.now)) }
{
    if !has_right_keys(members, &TOP_KEYS, &[]) {
        return Ok(None);
    }
    match columns_under(alloc, members)? {
        Some(columns) => Ok(Some(detail_of(alloc, members, columns)?)),
        None => Ok(None),
    }
}

/// Parses the bytes as a TOML document. Refuses bytes that aren't one. Refuses too if memory is wanting.
fn parse(alloc: Global, bytes: &[u8]) -> Result<Table, DetailReadFault>
    ensures read { IfOk result (λ t. document bytes.now ≡ Some (table_view t)) }
    ensures refused { IfErr result (λ fault. fault ≢ DetailReadFault.Memory → (fault ≡ DetailReadFault.Syntax) × (document bytes.now ≡ None)) }
    ensures text { OnOk result (IsUtf8 bytes.now) }
    ensures memory { result ≡ Err DetailReadFault.Memory → IsUtf8 bytes.now }
{
    let text = match std::str::from_utf8(bytes) {
        Ok(text) => text,
        Err(_) => return Err(DetailReadFault::Syntax),
    };
    match toml::table_from_str(alloc, text) {
        Ok(table) => Ok(table),
        Err(error) => {
            if error.is_memory() {
                Err(DetailReadFault::Memory)
            } else {
                Err(DetailReadFault::Syntax)
            }
        }
    }
}

/// Reads the detail table that a document declares. Refuses a document with a wrong key. Refuses too if memory is wanting.
fn detail_of_table(alloc: Global, members: &Table) -> Result<Detail, DetailReadFault>
    ensures read { IfOk result (λ detail. declared_by (Some (table_view members.now)) ≡ Ok detail) }
    ensures refused { IfErr result (λ fault. fault ≢ DetailReadFault.Memory → declared_by (Some (table_view members.now)) ≡ Err fault) }
{
    match detail_given(alloc, members)? {
        Some(detail) => Ok(detail),
        None => Err(DetailReadFault::WrongForm),
    }
}

/// Reads the detail table that the bytes declare. `Syntax` comes only if they are no TOML document, and `WrongForm` only if the document
/// has a wrong key. Whether the rules hold isn't tried here.
#[tactic(auto, unfolding(crate::specs::Reading::declared))]
pub fn read_detail(alloc: Global, bytes: &[u8]) -> Result<Detail, DetailReadFault>
    ensures read { IfOk result (λ detail. declared bytes.now ≡ Ok detail) }
    ensures refused { IfErr result (λ fault. fault ≢ DetailReadFault.Memory → declared bytes.now ≡ Err fault) }
    ensures memory { result ≡ Err DetailReadFault.Memory → IsUtf8 bytes.now }
{
    let members = parse(alloc, bytes)?;
    detail_of_table(alloc, &members)
}
