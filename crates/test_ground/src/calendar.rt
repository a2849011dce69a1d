//! Tests of sz_calendar: dates that other software gives (GNU `date -u -d @SECONDS`), by second and back.

use sz_calendar::DateTime;

// A day, and a time of it.
type Time = ((i16, u8, u8), (u8, u8, u8));

// A second and its time, of which either may be without the other.
static ROWS: [(Option<i64>, Option<Time>); 26] = [
    (Some(0), Some(((1970, 1, 1), (0, 0, 0)))),
    (Some(-1), Some(((1969, 12, 31), (23, 59, 59)))),
    (Some(2_524_607_999), Some(((2049, 12, 31), (23, 59, 59)))),
    (Some(-631_152_000), Some(((1950, 1, 1), (0, 0, 0)))),
    (Some(951_827_696), Some(((2000, 2, 29), (12, 34, 56)))),
    (Some(-2_203_891_201), Some(((1900, 2, 28), (23, 59, 59)))),
    (Some(-2_203_891_200), Some(((1900, 3, 1), (0, 0, 0)))),
    (Some(-62_135_596_800), Some(((1, 1, 1), (0, 0, 0)))),
    (Some(-62_167_219_200), Some(((0, 1, 1), (0, 0, 0)))),
    (Some(-62_167_219_201), Some(((-1, 12, 31), (23, 59, 59)))),
    (Some(-62_288_352_000), Some(((-4, 2, 29), (0, 0, 0)))),
    (Some(-377_705_116_800), Some(((-9999, 1, 1), (0, 0, 0)))),
    (Some(253_402_300_799), Some(((9999, 12, 31), (23, 59, 59)))),
    (Some(-377_705_116_801), None),
    (Some(253_402_300_800), None),
    (None, Some(((1900, 2, 29), (0, 0, 0)))),
    (None, Some(((2023, 2, 29), (0, 0, 0)))),
    (None, Some(((2024, 4, 31), (0, 0, 0)))),
    (None, Some(((2024, 0, 1), (0, 0, 0)))),
    (None, Some(((2024, 13, 1), (0, 0, 0)))),
    (None, Some(((2024, 1, 0), (0, 0, 0)))),
    (None, Some(((2024, 1, 255), (0, 0, 0)))),
    (None, Some(((10_000, 1, 1), (0, 0, 0)))),
    (None, Some(((2024, 1, 1), (24, 0, 0)))),
    (None, Some(((2024, 1, 1), (0, 60, 0)))),
    (None, Some(((2016, 12, 31), (23, 59, 60)))),
];

fn date_time(((year, month, day), (hour, minute, second)): Time) -> DateTime {
    DateTime {
        year,
        month,
        day,
        hour,
        minute,
        second,
    }
}

// Whether the second has this time, and the time this second.
fn agree(second: Option<i64>, time: Option<DateTime>) -> bool {
    second.is_none_or(|second| DateTime::from_unix_seconds(second) == time)
        && time.is_none_or(|time| time.to_unix_seconds() == second)
}

#[test]
fn seconds_and_times_are_told_from_one_another(rt: HostRuntime) {
    for (second, time) in &ROWS {
        assert!(rt; agree(*second, time.map(date_time)));
    }
}
