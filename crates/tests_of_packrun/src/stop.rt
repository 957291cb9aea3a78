//! Statuses.

use crate::support::Ended;
use packrun_lines::stop::{Stop, status};

const STATUSES: [(Ended, u8); 4] = [
    (Ok(()), 0),
    (Err(Stop::IoFailed), 1),
    (Err(Stop::BadLine(7)), 2),
    (Err(Stop::NoMemory), 3),
];

#[test]
fn statuses(rt: HostRuntime) {
    for (ended, number) in &STATUSES {
        assert_eq!(rt; status(*ended), *number);
    }
}
