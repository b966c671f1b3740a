//! The schema that bytes give.

ghost use Rattle.std.specs.Prelude.{◌≡◌, ◌≢◌, Ok, Err, Some, None, IfOk, IfErr, IsOk, IsUtf8};
ghost use Rattle.toml.specs.View.{table_view};
ghost use Rattle.schema_read.specs.Document.{document};
ghost use Rattle.schema_read.specs.Schema.{schema_of_document, schema_of};
ghost use Rattle.schema_read.specs.declared.read.ReadSchemaFault.TheVariants.{Memory as OutOfMemory};

use crate::document::read_document;
use crate::fault::{Expected, Place, Wrong};
use crate::schema_key::SchemaKey;
use crate::wrong_key::first_wrong_key;
use out_of_memory::Memory;
use schema_model::Schema;
use std::alloc::Global;

/// Why bytes give no schema.
#[derive(Clone, Copy, Debug, PartialEq, Eq)]
pub enum ReadSchemaFault {
    /// The bytes aren't a TOML document.
    Syntax,
    /// The document has a wrong key, and this is the first. It is missing, is of another type than expected, or has no
    /// place there. Places go depth first, each with its known keys in order and then any further key.
    Shape {
        /// The place at which the key is wrong.
        place: Place,
        /// The key. It is `Other` if a key has no place there.
        key: SchemaKey,
        /// The type that the key wants.
        expected: Expected,
    },
    /// No memory was left to parse the bytes, so it is unknown whether they are a document.
    ParseMemory,
    /// No memory was left for the schema. Each key of the document is right.
    Memory,
}

impl From<Memory> for ReadSchemaFault {
    ghost from_gives = { λ _ e. e ≡ OutOfMemory };

    fn from(_e: Memory) -> ReadSchemaFault {
        ReadSchemaFault::Memory
    }
}

/// Parses the bytes as a TOML document. Refuses bytes that aren't one. Refuses too if memory is wanting.
fn parse(alloc: Global, bytes: &[u8]) -> Result<toml::Table, ReadSchemaFault>
    ensures read { IfOk result (λ t. document bytes.now ≡ Some (table_view t)) }
    ensures refused { IfErr result (λ fault. fault ≢ ReadSchemaFault.ParseMemory → (fault ≡ ReadSchemaFault.Syntax) × (document bytes.now ≡ None)) }
    ensures memory { result ≡ Err ReadSchemaFault.ParseMemory → IsUtf8 bytes.now }
{
    let text = match std::str::from_utf8(bytes) {
        Ok(text) => text,
        Err(_) => return Err(ReadSchemaFault::Syntax),
    };
    match toml::table_from_str(alloc, text) {
        Ok(table) => Ok(table),
        Err(error) => {
            if error.is_memory() {
                Err(ReadSchemaFault::ParseMemory)
            } else {
                Err(ReadSchemaFault::Syntax)
            }
        }
    }
}

/// Reads the schema of a document, or refuses the document for its first wrong key. Refuses too if memory is wanting.
fn schema_of_table(alloc: Global, table: &toml::Table) -> Result<Schema, ReadSchemaFault>
    ensures read { IfOk result (λ read. schema_of_document (Some (table_view table.now)) ≡ Ok read) }
    ensures refused { IfErr result (λ fault. fault ≢ ReadSchemaFault.Memory → schema_of_document (Some (table_view table.now)) ≡ Err fault) }
    ensures memory { result ≡ Err ReadSchemaFault.Memory → IsOk (schema_of_document (Some (table_view table.now))) }
{
    match first_wrong_key(table) {
        Some(
            Wrong {
                place,
                key,
                expected,
            },
        ) => Err(ReadSchemaFault::Shape {
            place,
            key,
            expected,
        }),
        None => Ok(read_document(alloc, table)?),
    }
}

/// Reads the schema from the bytes of its text. A key that is missing gives its default. Whether the schema is accepted
/// isn't tried here.
#[tactic(auto, unfolding(crate::specs::Schema::schema_of))]
pub fn read_schema(alloc: Global, bytes: &[u8]) -> Result<Schema, ReadSchemaFault>
    ensures read { IfOk result (λ schema. schema_of bytes.now ≡ Ok schema) }
    ensures refused { IfErr result (λ fault. fault ≢ ReadSchemaFault.Memory → fault ≢ ReadSchemaFault.ParseMemory → schema_of bytes.now ≡ Err fault) }
    ensures memory { result ≡ Err ReadSchemaFault.Memory → IsOk (schema_of bytes.now) }
    ensures parse_memory { result ≡ Err ReadSchemaFault.ParseMemory → IsUtf8 bytes.now }
{
    let table = parse(alloc, bytes)?;
    schema_of_table(alloc, &table)
}
