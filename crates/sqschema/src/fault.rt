//! What can be wrong with a row of the schema (own).
ghost use Rattle.std.specs.Prelude.{◌≡◌};
ghost use Rattle.sqschema.specs.SchemaFaults.{number_of, name_of};

use thiserror::Error;

/// What can be wrong with a row of the schema.
#[derive(Clone, Copy, Debug, PartialEq, Eq, Error)]
pub enum SchemaFault {
    /// It hasn't five columns: three texts, an integer or NULL, and a text or NULL.
    #[error("a row of the schema has other columns")]
    RowForm,
    /// Its type is none of table, index, view and trigger.
    #[error("an object has no type that there is")]
    ObjectType,
    /// Its text doesn't begin with CREATE; or it has none, and isn't an index that a constraint made.
    #[error("an object has no text that makes it")]
    CreateText,
    /// It names a root, and is a view, a trigger or a virtual table; or it names none, and is another one.
    #[error("an object has a root where it has no tree, or none where it has one")]
    RootNumber,
    /// Its name is that of a row before it: tables, views and indexes share their names, triggers have theirs.
    #[error("two objects have the same name")]
    NameTwice,
    /// It belongs to a table, or as a trigger to a view, that isn't there; or it is one, and names another.
    #[error("an object belongs to no table that is there")]
    TableName,
    /// Its root is no page, or begins a tree of another kind.
    #[error("the tree of an object is of another kind")]
    RootKind,
}

impl SchemaFault {
    /// The fault's number, from 50 to 56.
    pub fn number(&self) -> u8
        ensures { result ≡ number_of self.now }
    {
        match self {
            SchemaFault::RowForm => 50,
            SchemaFault::ObjectType => 51,
            SchemaFault::CreateText => 52,
            SchemaFault::RootNumber => 53,
            SchemaFault::NameTwice => 54,
            SchemaFault::TableName => 55,
            SchemaFault::RootKind => 56,
        }
    }

    /// The fault's name, as reports print it.
    pub fn name(&self) -> &'static str
        ensures { result.now ≡ name_of self.now }
    {
        match self {
            SchemaFault::RowForm => "RowForm",
            SchemaFault::ObjectType => "ObjectType",
            SchemaFault::CreateText => "CreateText",
            SchemaFault::RootNumber => "RootNumber",
            SchemaFault::NameTwice => "NameTwice",
            SchemaFault::TableName => "TableName",
            SchemaFault::RootKind => "RootKind",
        }
    }
}
