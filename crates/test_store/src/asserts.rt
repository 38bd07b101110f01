//! What is found is held against what is wanted.
use std::fmt::Debug;
use std::process::Abort;

/// Fails the test, with both, where they differ. An `assert_eq!` is proved wherever it stands, this one only once.
pub(crate) fn same<T: PartialEq + Debug + Drop>(rt: &impl Abort, found: T, wanted: T) {
    assert_eq!(rt; found, wanted);
}
