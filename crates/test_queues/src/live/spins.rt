//! That how long a seat gives way can be measured by the host's clock.
use wq_live::Spins;

/// A clock that answers is measured by: no error comes.
#[test]
fn spins_are_measured(rt: HostRuntime) {
    assert!(rt; Spins::measured(&rt).is_ok());
}
