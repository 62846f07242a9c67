//! The published list: the rows of `leap-seconds.list` as Debian's tzdata 2025b has it, with lines of the kinds that stand around them.
use crate::shared::same;
use leap_file::LeapReader;
use std::process::Abort;

// What the file says before its rows, and after them.
const HEAD: &[u8] =
    b"#\tATOMIC TIME\n#\n#@\t3991593600\n#$\t3676924800\n#NTP Time      DTAI    Day Month Year\n#\n";

const TAIL: &[u8] =
    b"#\n#\tA hash code has been generated\n#h\t49db2447 571e5e1b 2f002a53 9c8da8e4 39b8e49e\n";

const ROWS: [&[u8]; 28] = [
    b"2272060800      10      # 1 Jan 1972\n",
    b"2287785600      11      # 1 Jul 1972\n",
    b"2303683200      12      # 1 Jan 1973\n",
    b"2335219200      13      # 1 Jan 1974\n",
    b"2366755200      14      # 1 Jan 1975\n",
    b"2398291200      15      # 1 Jan 1976\n",
    b"2429913600      16      # 1 Jan 1977\n",
    b"2461449600      17      # 1 Jan 1978\n",
    b"2492985600      18      # 1 Jan 1979\n",
    b"2524521600      19      # 1 Jan 1980\n",
    b"2571782400      20      # 1 Jul 1981\n",
    b"2603318400      21      # 1 Jul 1982\n",
    b"2634854400      22      # 1 Jul 1983\n",
    b"2698012800      23      # 1 Jul 1985\n",
    b"2776982400      24      # 1 Jan 1988\n",
    b"2840140800      25      # 1 Jan 1990\n",
    b"2871676800      26      # 1 Jan 1991\n",
    b"2918937600      27      # 1 Jul 1992\n",
    b"2950473600      28      # 1 Jul 1993\n",
    b"2982009600      29      # 1 Jul 1994\n",
    b"3029443200      30      # 1 Jan 1996\n",
    b"3076704000      31      # 1 Jul 1997\n",
    b"3124137600      32      # 1 Jan 1999\n",
    b"3345062400      33      # 1 Jan 2006\n",
    b"3439756800      34      # 1 Jan 2009\n",
    b"3550089600      35      # 1 Jul 2012\n",
    b"3644697600      36      # 1 Jul 2015\n",
    b"3692217600      37      # 1 Jan 2017\n",
];

// Python's datetime gave the second of the date in each row's remark, except for the first row.
const SECONDS: [u64; 27] = [
    2287785600, 2303683200, 2335219200, 2366755200, 2398291200, 2429913600, 2461449600, 2492985600,
    2524521600, 2571782400, 2603318400, 2634854400, 2698012800, 2776982400, 2840140800, 2871676800,
    2918937600, 2950473600, 2982009600, 3029443200, 3076704000, 3124137600, 3345062400, 3439756800,
    3550089600, 3644697600, 3692217600,
];

// The reader takes a piece of a file without a bad line. Its leap seconds go to `found`, which has this many so far.
fn take_piece(
    reader: &mut LeapReader,
    piece: &[u8],
    found: &mut [u64],
    count: usize,
) -> Result<usize, &'static str> {
    let mut count = count;
    for byte in piece {
        match reader.take(*byte) {
            Ok(Some(second)) => {
                match found.get_mut(count) {
                    Some(place) => *place = second,
                    None => return Err("more leap seconds than rows"),
                }
                count += 1;
            }
            Ok(None) => {}
            Err(_) => return Err("a bad line"),
        }
    }
    Ok(count)
}

// Takes pieces, and returns how many leap seconds they name.
fn take_pieces(
    reader: &mut LeapReader,
    pieces: &[&[u8]],
    found: &mut [u64],
    count: usize,
) -> Result<usize, &'static str> {
    let mut count = count;
    for piece in pieces {
        count = take_piece(reader, piece, found, count)?;
    }
    Ok(count)
}

// The list has `count` leap seconds.
fn are_found(rt: &impl Abort, found: Result<usize, &'static str>, count: usize) {
    same(rt, found, Ok(count));
}

#[test]
fn the_published_list_reports_of_27_leap_seconds(rt: HostRuntime) {
    let mut found = [0; 28];
    let mut reader = LeapReader::new();
    are_found(&rt, take_piece(&mut reader, HEAD, &mut found, 0), 0);
    are_found(&rt, take_pieces(&mut reader, &ROWS, &mut found, 0), 27);
    assert!(rt; found.starts_with(&SECONDS));
    are_found(&rt, take_piece(&mut reader, TAIL, &mut found, 27), 27);
    same(&rt, reader.finish(), Ok(None));
}
