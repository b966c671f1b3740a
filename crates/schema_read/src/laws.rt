//! Laws of the definitions that the contracts cite. Each law is the contract of a function without a body.

ghost use Rattle.std.specs.Prelude.{◌≡◌, ℕ, ◌↔◌, List, map, Option, Some, None, Ok, Err};
ghost use Rattle.std.specs.List.{enumerate_from};
ghost use Rattle.toml.specs.Data.{Members};
ghost use Rattle.schema_model.specs.declared.table.Schema.{Schema};
ghost use Rattle.schema_read.specs.declared.fault.Expected.{Expected};
ghost use Rattle.schema_read.specs.declared.fault.Place.{Place};
ghost use Rattle.schema_read.specs.declared.fault.Wrong.{Wrong};
ghost use Rattle.schema_read.specs.declared.kind_name.KindName.{KindName};
ghost use Rattle.schema_read.specs.declared.kind_name.LeafName.{LeafName};
ghost use Rattle.schema_read.specs.declared.read.ReadSchemaFault.TheVariants.{Syntax, Shape};
ghost use Rattle.schema_read.specs.declared.schema_key.SchemaKey.{SchemaKey};
ghost use Rattle.schema_read.specs.Document.{document};
ghost use Rattle.schema_read.specs.Kinds.{kind_named, kind_text, leaf_named, leaf_text};
ghost use Rattle.schema_read.specs.Order.{AreRight, IsFirstOf, TellsFirst, place_readings, document_readings};
ghost use Rattle.schema_read.specs.Schema.{schema_of};
ghost use Rattle.schema_read.specs.Shape.{first_wrong_key, schema};
ghost use Rattle.schema_read.specs.declared.wanted.Wanted.{Wanted};
ghost use Rattle.schema_read.specs.Wanted.{wrong_at, wrong_key, first_of, first_wrong, each_from};

/// Of a table's wanted keys the first wrong one is told, or none if each is right. If each is right, a further key is
/// told.
pub fn the_first_wrong_key_of_a_table_is_told()
    ensures wanted { (place : Place) (wanted : List Wanted) (members : Members) →
        TellsFirst (first_of place wanted members) (map (λ w. wrong_key place w members) wanted) }
    ensures further { (place : Place) (wanted : List Wanted) (members : Members) →
        TellsFirst (first_wrong place wanted members) (place_readings place wanted members) }
{}

/// Of tables in order, the first table with a wrong key decides what is told.
pub fn the_first_table_with_a_wrong_key_is_told()
    ensures { (wrong : ℕ → Members → Option Wrong) (n : ℕ) (tables : List Members) →
        TellsFirst (each_from wrong n tables) (map (λ numbered. wrong numbered.0 numbered.1) (enumerate_from n tables)) }
{}

/// The first wrong key of a document is told, or none if each is right. The document's own keys come first. Each table's
/// keys come before those of its columns, and each column's keys before those of its branches.
pub fn the_first_wrong_key_of_a_document_is_told()
    ensures { (members : Members) → TellsFirst (first_wrong_key members) (document_readings members) }
{}

/// Bytes that are no document have no schema. A document is refused for its first wrong key: each key before it is right.
/// If bytes have a schema, each key is right.
pub fn bytes_are_refused_for_the_first_wrong_key()
    ensures syntax { (bytes : List ℕ) → (schema_of bytes ≡ Err Syntax) ↔ (document bytes ≡ None) }
    ensures refused { (bytes : List ℕ) (place : Place) (key : SchemaKey) (expected : Expected) →
        schema_of bytes ≡ Err (Shape place key expected) →
        (members : Members) × (document bytes ≡ Some members)
        × IsFirstOf (wrong_at place key expected) (document_readings members) }
    ensures read { (bytes : List ℕ) (read : Schema) → schema_of bytes ≡ Ok read →
        (members : Members) × (document bytes ≡ Some members) × AreRight (document_readings members)
        × (read ≡ schema members) }
{}

/// The name of a kind names that kind.
pub fn kinds_are_named_by_their_names()
    ensures kinds { (kind : KindName) → kind_named (kind_text kind) ≡ Some kind }
    ensures leaves { (kind : LeafName) → leaf_named (leaf_text kind) ≡ Some kind }
{}
