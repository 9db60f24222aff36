//! When answers go out, and when peers are closed.

use iso_script::{Behaviour, Deed};
use iso_script_peers::{Bounds, Going, Standing, going_of, is_done, pause_of};

/// When what was written goes out that came at the moment 10.
fn going_at_ten(deed: Deed) -> Going {
    going_of(&Behaviour::Ruled { rule: 1, deed }, 10)
}

#[test]
fn when_answers_go_out(rt: HostRuntime) {
    assert!(rt; going_of(&Behaviour::Honest, 10) == Going::Now);
    assert!(rt; going_at_ten(Deed::Delay(1_500)) == Going::At(1_510));
    assert!(rt; going_at_ten(Deed::Silent) == Going::Now);
    assert!(rt; going_at_ten(Deed::Garbage) == Going::Now);
    assert!(rt; going_at_ten(Deed::Cut) == Going::Cut);
    assert!(rt; pause_of(false, Some(110), 10) == 100);
}

/// How a peer stands, how many bytes wait and are held back, whether it takes bytes, and whether it is closed.
const STANDINGS: &[(Standing, usize, usize, bool, bool)] = &[
    (Standing::Open, 0, 0, true, false),
    (Standing::Ended, 0, 1, true, false),
    (Standing::Ended, 1, 0, true, false),
    (Standing::Ended, 0, 0, true, true),
    (Standing::Cut, 1, 0, true, false),
    (Standing::Cut, 1, 0, false, true),
    (Standing::Cut, 0, 1, true, true),
    (Standing::Closed, 1, 1, true, true),
];

#[test]
fn when_peers_are_closed(rt: HostRuntime) {
    for (standing, waiting, held, takes, wanted) in STANDINGS {
        assert!(rt;
            is_done(*standing, *waiting, *held, *takes) == *wanted,
            "{standing:?}"
        );
    }
}

/// How many bytes wait and are held back under a bound of 100, and whether nothing more is taken.
const FULL: &[(usize, usize, bool)] = &[
    (0, 0, false),
    (99, 0, false),
    (100, 0, true),
    (60, 39, false),
    (60, 40, true),
    (0, 100, true),
];

#[test]
fn when_nothing_more_is_taken(rt: HostRuntime) {
    let bounds = Bounds {
        peers: 2,
        waiting: 100,
    };
    for (waiting, held, wanted) in FULL {
        assert!(rt;
            bounds.is_full(*waiting, *held) == *wanted,
            "{waiting} {held}"
        );
    }
    assert!(rt; bounds.lets_in(1) && !bounds.lets_in(2));
}
