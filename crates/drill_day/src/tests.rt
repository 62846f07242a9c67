//! Made logs, against values from outside.
use crate::minutes::write_symbols;
use crate::writer::LogWriter;
use memory_links::MemorySink;
use std::fmt::Debug;
use std::process::Abort;
use std::test::Fail;
use tick_units::{Plan, Symbol};

// What `assert_eq!` does, as a call: where a test has many, calls are proved in a third of the time.
fn same<T: PartialEq + Debug + Drop>(rt: &impl Abort, left: T, right: T) {
    assert_eq!(*rt; left, right);
}

// 2026-03-01 00:00 UTC.
const FIRST: u64 = 3_981_312_000;

// Bit B alone, which no minute of a made log has. By NPL's table the carrier is off for 100 ms, on for 100 ms and off for 100 ms
// more. The first number of the generator for MSF is 238199713, which is 673 modulo 2001.
#[test]
fn a_second_in_two_parts(rt: HostRuntime) -> Result<(), Fail> {
    let mut out = MemorySink::new(rt.alloc(), Vec::new(rt.alloc()));
    let mut log = LogWriter::new(Plan::Msf, 7);
    same(&rt, log.write(2, &[Symbol::OnlyB], &mut out), Ok(()));
    same(&rt, log.lines(), 2);
    same(
        &rt,
        out.bytes(),
        b"7000673 100000\n7200673 100000\n".as_slice(),
    );
    Ok(())
}

// Every fiftieth minute is damaged, beginning with the seed's own one; the first of all never is.
#[test]
fn a_minute_is_damaged_by_the_seed(rt: HostRuntime) {
    for (seed, minute, damaged) in [
        (0, 0, false),
        (0, 49, false),
        (0, 50, true),
        (7, 7, true),
        (7, 8, false),
        (7, 32, false),
        (7, 57, true),
        (50, 0, false),
        (50, 50, true),
        (57, 7, true),
        (4294967295, 45, true),
        (4294967295, 1395, true),
        (4294967295, 1439, false),
    ] {
        let mut symbols = [Symbol::Zero; 61];
        assert!(rt; minute < 1440);
        let count = write_symbols(Plan::Dcf, FIRST, seed, minute, &mut symbols);
        same(&rt, count, 59);
        assert_eq!(rt;
            symbols[30] == Symbol::Odd,
            damaged,
            "minute {minute} by {seed}"
        );
    }
}
