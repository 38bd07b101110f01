//! Tests of the readers of CREATE texts, by their public calls: texts whose tokens SQLite's documents give, and texts
//! that do harm in a script if they aren't changed; tables and indexes, as sqlite3 reads them.
#![tactic(auto)]

#[cfg(test)]
mod index_tests;
#[cfg(test)]
mod made_tests;
#[cfg(test)]
mod printable_tests;
#[cfg(test)]
mod scripts_tests;
#[cfg(test)]
mod table_tests;
#[cfg(test)]
mod tokens_tests;
