//! Made days, against another program.
use crate::shared::{SUM_OF_NONE, same, sum_on};
use drill_day::make_logs;
use memory_links::SureSource;
use outside_traits::Source;
use std::process::Abort;
use std::test::Fail;

// The length of a log, and its FNV-1a checksum.
fn sum_of(log: &mut SureSource) -> (usize, u64) {
    let mut sum = SUM_OF_NONE;
    let mut length = 0usize;
    let mut piece = [0; 512];
    for _ in 0..6000 {
        let Ok(count) = log.read(&mut piece) else {
            return (0, 0);
        };
        sum = sum_on(sum, &piece[..count]);
        length = length.saturating_add(count);
    }
    (length, sum)
}

// The three logs of a day have these lengths and checksums.
fn have_sums(rt: &impl Abort, logs: &mut [SureSource], sums: [(usize, u64); 3]) {
    same(rt, logs.len(), 3);
    for place in 0..3usize {
        if let Some(log) = logs.get_mut(place) {
            same(rt, (place, sum_of(log)), (place, sums[place]));
        }
    }
}

const OF_SEED_7: [(usize, u64); 3] = [
    (1603346, 0x5682_d20d_7054_891d),
    (1630527, 0x4260_5b42_a5e3_f462),
    (1630523, 0x4ce8_2269_f975_c940),
];

const OF_SEED_0: [(usize, u64); 3] = [
    (1603347, 0xdd9d_a72a_23a9_4063),
    (1630528, 0xf8c5_7133_a9f8_22ba),
    (1630524, 0xb07f_a51a_f242_d808),
];

const OF_THE_LAST_SEED: [(usize, u64); 3] = [
    (1603347, 0x7e54_89f2_5b71_4e39),
    (1630528, 0xd96b_8ad9_b8e0_d587),
    (1630524, 0x467f_d524_0d56_1162),
];

// The lengths and the checksums of logs that a separate program made by the same description, for three seeds.
#[test]
fn days_are_those_of_another_program(rt: HostRuntime) -> Result<(), Fail> {
    let mut logs = make_logs(&rt, rt.alloc(), 7)?;
    have_sums(&rt, &mut logs, OF_SEED_7);
    let mut logs = make_logs(&rt, rt.alloc(), 0)?;
    have_sums(&rt, &mut logs, OF_SEED_0);
    let mut logs = make_logs(&rt, rt.alloc(), 4294967295)?;
    have_sums(&rt, &mut logs, OF_THE_LAST_SEED);
    Ok(())
}
