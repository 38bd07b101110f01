//! A row beside what the columns of its table keep to (SQLite's lang_createtable, stricttables and datatype3).
ghost use Rattle.std.specs.Prelude.{◌≡◌, ◌≢◌, true, None, MatchBool, MatchOption, option_map};
ghost use Rattle.sqlite_record.specs.Record.{decode};
ghost use Rattle.sqlite_value.specs.Value.{owned};
ghost use Rattle.sqlite_value.specs.Order.{Row};
ghost use Rattle.sqindex.specs.RowsKept.{takes, fault_under, fault_at, fault_by, fault_of};
ghost use Rattle.sqindex.specs.RowsKept.{IsFaultless, HasFault, IsClear, IsUnclear};

use crate::fields::lent;
use crate::number::is_number;
use crate::row_fault::RowFault;
use sqkeys::{Accepts, ColumnRule};
use sqlite_record::fields::Fields;
use sqlite_value::value::ValueRef;

/// Whether a column that accepts these takes a value that isn't NULL.
#[inline(always)]
fn takes(accepts: Accepts, value: ValueRef<'_>) -> bool
    ensures { result ≡ takes accepts (owned value.entry) }
{
    match (accepts, value) {
        (Accepts::All, _) => true,
        (Accepts::Integers | Accepts::Numbers, ValueRef::Int(_)) => true,
        (Accepts::Numbers, ValueRef::Real(_)) => true,
        (Accepts::Texts | Accepts::NotNumbers, ValueRef::Text(_)) => true,
        (Accepts::Blobs | Accepts::NotNumbers, ValueRef::Blob(_)) => true,
        (Accepts::NotNumericTexts, ValueRef::Text(text)) => !is_number(text),
        (Accepts::NotNumericTexts, ValueRef::Int(_) | ValueRef::Real(_) | ValueRef::Blob(_)) => {
            true
        }
        _ => false,
    }
}

/// What is wrong with a value that a column doesn't take.
fn fault_under(accepts: Accepts) -> RowFault
    ensures { result ≡ fault_under accepts }
{
    match accepts {
        Accepts::NotNumbers => RowFault::NumberUnderText,
        Accepts::NotNumericTexts => RowFault::TextUnderNumeric,
        _ => RowFault::TypeUnderStrict,
    }
}

/// What is wrong with a value in its column.
#[inline(always)]
fn fault_at(rule: &ColumnRule, value: ValueRef<'_>) -> Option<RowFault>
    ensures { result ≡ fault_at rule.now (owned value.entry) }
{
    match value {
        ValueRef::Null => {
            if rule.not_null {
                Some(RowFault::NullUnderNotNull)
            } else {
                None
            }
        }
        _ => {
            if takes(rule.accepts, value) {
                None
            } else {
                Some(fault_under(rule.accepts))
            }
        }
    }
}

/// What is wrong with the default of a column that isn't stored.
fn fault_of_default(rule: &ColumnRule) -> Option<RowFault>
    ensures { result ≡ fault_by rule.now rule.now.default }
{
    match &rule.default {
        Some(value) => fault_at(rule, lent(value)),
        None => None,
    }
}

/// What is wrong with what a row stores in a column, or with its default.
#[inline(always)]
fn fault_of(rule: &ColumnRule, stored: Option<ValueRef<'_>>) -> Option<RowFault>
    ensures { result ≡ fault_of rule.now (option_map owned stored.entry) }
{
    match stored {
        Some(value) => fault_at(rule, value),
        None => fault_of_default(rule),
    }
}

/// What is wrong with a row, in the first of its columns where something is.
pub(crate) fn first_fault(rules: &[ColumnRule], row: &[u8]) -> Option<RowFault>
    ensures { MatchOption result (IsFaultless rules.now (decode row.now)) (HasFault rules.now (decode row.now)) }
{
    let mut fields = Fields::new(row);
    'rules: for rule in rules {
        let fault = fault_of(rule, fields.next());
        if fault.is_some() {
            return fault;
        }
    }
    None
}

/// Whether a row doesn't store a column, and its default isn't known.
fn is_open(rule: &ColumnRule, stored: Option<ValueRef<'_>>) -> bool
    ensures { MatchBool result ((option_map owned stored.entry ≡ None) × (rule.now.default ≡ None))
        (option_map owned stored.entry ≡ None → rule.now.default ≢ None) }
{
    stored.is_none() && rule.default.is_none()
}

/// Whether it is known what stands in each column of a row.
pub(crate) fn is_clear(rules: &[ColumnRule], row: &[u8]) -> bool
    ensures { MatchBool result (IsClear rules.now (decode row.now)) (IsUnclear rules.now (decode row.now)) }
{
    let mut fields = Fields::new(row);
    'rules: for rule in rules {
        if is_open(rule, fields.next()) {
            return false;
        }
    }
    true
}

/// Whether the default of each column is known, so that it is known what stands in each column of any row.
pub(crate) fn are_known(rules: &[ColumnRule]) -> bool
    ensures { result ≡ true → (values : Row) → IsClear rules.now values }
{
    'rules: for rule in rules {
        if rule.default.is_none() {
            return false;
        }
    }
    true
}
