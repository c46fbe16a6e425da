//! Dates and times against the rules.
use nntp_words::read_moment;

/// A date and a time as a client sends them, the year in which it does, and the moment.
type MomentCase = (&'static [u8], &'static [u8], u16, Option<i64>);

/// Dates of two and of four digits, and what is no date or time.
static MOMENTS: [MomentCase; 31] = [
    (b"20240201", b"100140", 2024, Some(1_706_781_700)),
    (b"240201", b"100140", 2024, Some(1_706_781_700)),
    (b"240229", b"123059", 2024, Some(1_709_209_859)),
    (b"240229", b"123060", 2024, Some(1_709_209_859)),
    (b"250101", b"000000", 2024, Some(-1_420_070_400)),
    (b"250101", b"000000", 2025, Some(1_735_689_600)),
    (b"710101", b"000000", 1970, Some(-3_124_137_600)),
    (b"000229", b"000000", 2000, Some(951_782_400)),
    (b"990101", b"000000", 9999, Some(253_370_764_800)),
    (b"000101", b"000000", 9999, Some(250_246_627_200)),
    (b"19691231", b"235959", 2024, Some(-1)),
    (b"19700101", b"000000", 2024, Some(0)),
    (b"00000101", b"000000", 2024, Some(-62_167_219_200)),
    (b"99991231", b"235960", 2024, Some(253_402_300_799)),
    (b"19000301", b"000000", 2024, Some(-2_203_891_200)),
    (b"230229", b"000000", 2024, None),
    (b"19000229", b"000000", 2024, None),
    (b"20240230", b"000000", 2024, None),
    (b"20240431", b"000000", 2024, None),
    (b"20241301", b"000000", 2024, None),
    (b"20240001", b"000000", 2024, None),
    (b"20240100", b"000000", 2024, None),
    (b"20240201", b"240000", 2024, None),
    (b"20240201", b"236000", 2024, None),
    (b"20240201", b"235961", 2024, None),
    (b"20240201", b"0000", 2024, None),
    (b"20240201", b"00000000", 2024, None),
    (b"2024021", b"000000", 2024, None),
    (b"2402011", b"000000", 2024, None),
    (b"24o201", b"000000", 2024, None),
    (b"", b"", 2024, None),
];

/// Returns whether a date and a time spell this moment.
fn spells(case: &MomentCase) -> bool {
    if case.2 < 1970 || case.2 > 9999 {
        return false;
    }
    read_moment(case.0, case.1, case.2) == case.3
}

#[test]
fn dates_and_times_are_moments(rt: HostRuntime) {
    for case in &MOMENTS {
        assert!(rt; spells(case));
    }
}
