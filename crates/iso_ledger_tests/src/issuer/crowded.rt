//! Keys that fall into the same slots of the issuer's table.
use super::*;

/// Trace numbers whose purchases fall into the same 16 slots of the smallest table, more of them than slots.
const CROWD: &[u32] = &[
    4, 50, 75, 121, 146, 217, 288, 359, 430, 501, 526, 572, 597, 643, 668, 714, 739, 810, 881, 952,
];

/// Trace numbers of so many more purchases that the table grows twice.
const MORE: &[u32] = &[
    1001, 1002, 1003, 1004, 1005, 1006, 1007, 1008, 1009, 1010, 1011, 1012, 1013, 1014, 1015, 1016,
    1017, 1018, 1019, 1020, 1021, 1022, 1023, 1024, 1025, 1026, 1027, 1028, 1029, 1030, 1031, 1032,
    1033, 1034, 1035, 1036, 1037, 1038, 1039, 1040, 1041, 1042, 1043, 1044, 1045, 1046, 1047, 1048,
    1049, 1050, 1051, 1052, 1053, 1054, 1055, 1056, 1057, 1058, 1059, 1060, 1061, 1062, 1063, 1064,
    1065, 1066, 1067, 1068, 1069, 1070, 1071, 1072, 1073, 1074, 1075, 1076, 1077, 1078, 1079, 1080,
];

/// Whether a purchase is granted at this place in the journal.
fn is_granted(issuer: &mut Issuer, stan: u32, seq: u32) -> bool {
    match order(&plain_of(&Debit(200, stan, 1))) {
        Some(order) => is_told(told_of(issuer, order), granted!(seq)),
        None => false,
    }
}

/// Whether purchases are granted one after the other, the first of them at this place in the journal.
fn are_granted(issuer: &mut Issuer, stans: &[u32], first: u32) -> bool {
    let mut seq = first;
    for stan in stans {
        if !is_granted(issuer, *stan, seq) {
            return false;
        }
        seq = seq.saturating_add(1);
    }
    true
}

/// The name of what is wrong first: each purchase is new once, and then a repeat, also in a larger table.
fn wrong_in_a_crowd(alloc: Global) -> Option<&'static str> {
    let Some(mut issuer) = issuer(alloc, OF_5000, MOST_ORDERS) else {
        return Some("the account");
    };
    let steps = [
        ("new keys of the same slots", CROWD, 1),
        ("their repeats", CROWD, 1),
        ("many more keys", MORE, 21),
        ("the repeats of the first ones", CROWD, 1),
        ("the repeats of all", MORE, 21),
    ];
    for (name, stans, first) in steps {
        if !are_granted(&mut issuer, stans, first) {
            return Some(name);
        }
    }
    None
}

#[test]
fn keys_of_the_same_slots_are_told_apart(rt: HostRuntime) -> Result<(), Fail> {
    match wrong_in_a_crowd(rt.alloc()) {
        Some(name) => check(false, name),
        None => Ok(()),
    }
}
