//! Dates worked out by hand and by `date -u -d`.
ghost use Rattle.std.specs.Prelude.{◌≤◌};
ghost use Rattle.mail_date.specs.Dates.{last_second};
ghost use Rattle.mail_date.specs.Pieces.{IsZone};

use fixtures::{Case, cases};
use mail_date::{Moment, print_imap, print_page, print_rfc3339, read};

/// Values that are read, and their moments.
const READ: [Case<Moment>; 34] = cases![
    b"Thu, 31 Dec 1998 23:59:60 +0000" => Moment { secs: 915_148_799, zone: 0 },
    b"Thu, 1 Feb 2024 11:59:57 +0100 (CET)" => Moment { secs: 1_706_785_197, zone: 60 },
    b"Thu,1 Feb 2024 11:59:57 +0100" => Moment { secs: 1_706_785_197, zone: 60 },
    b" \t\r\nThu, \t 01\tFeb\r2024\n11:59:57  +0100 \t" => Moment { secs: 1_706_785_197, zone: 60 },
    b"1 Feb 2024 11:59:57 +0100\n(CET) and (anything" => Moment { secs: 1_706_785_197, zone: 60 },
    b"1 Feb 2024 11:59:57 +0100 (\0" => Moment { secs: 1_706_785_197, zone: 60 },
    b"tHU, 1 fEB 2024 11:59:57 +0100" => Moment { secs: 1_706_785_197, zone: 60 },
    b"Mon, 1 FEB 2024 11:59:57 +0100" => Moment { secs: 1_706_785_197, zone: 60 },
    b"1 Feb 2024 10:01:40 -0000" => Moment { secs: 1_706_781_700, zone: 0 },
    b"1 Feb 2024 10:00 +0000" => Moment { secs: 1_706_781_600, zone: 0 },
    b"1 Jan 2024 00:04:60 +0059" => Moment { secs: 1_704_063_959, zone: 59 },
    b"9 Mar 2021 07:08:09 -0330" => Moment { secs: 1_615_286_289, zone: -210 },
    b"29 Feb 2024 12:00:00 +0000" => Moment { secs: 1_709_208_000, zone: 0 },
    b"29 Feb 2000 00:00 +0000" => Moment { secs: 951_782_400, zone: 0 },
    b"1 Jan 1970 00:00:00 +0000" => Moment { secs: 0, zone: 0 },
    b"1 Jan 1970 00:01 +0001" => Moment { secs: 0, zone: 1 },
    b"1 Jan 1970 23:59 +2359" => Moment { secs: 0, zone: 1439 },
    b"31 Dec 9999 23:59:59 +0000" => Moment { secs: 253_402_300_799, zone: 0 },
    b"31 Dec 9999 00:00:59 -2359" => Moment { secs: 253_402_300_799, zone: -1439 },
    // Named zones and other months.
    b"1 Feb 2024 11:59:57 GMT" => Moment { secs: 1_706_788_797, zone: 0 },
    b"1 Feb 2024 11:59:57 ut" => Moment { secs: 1_706_788_797, zone: 0 },
    b"1 Feb 2024 11:59:57 EST" => Moment { secs: 1_706_806_797, zone: -300 },
    b"1 Feb 2024 11:59:57 EDT" => Moment { secs: 1_706_803_197, zone: -240 },
    b"1 Feb 2024 11:59:57 CST" => Moment { secs: 1_706_810_397, zone: -360 },
    b"1 Feb 2024 11:59:57 CDT" => Moment { secs: 1_706_806_797, zone: -300 },
    b"1 Feb 2024 11:59:57 MST" => Moment { secs: 1_706_813_997, zone: -420 },
    b"1 Feb 2024 11:59:57 mdt" => Moment { secs: 1_706_810_397, zone: -360 },
    b"1 Feb 2024 11:59:57 PST" => Moment { secs: 1_706_817_597, zone: -480 },
    b"1 Feb 2024 11:59:57 PDT" => Moment { secs: 1_706_813_997, zone: -420 },
    b"Fri, 31 Jul 2020 00:00 GMT" => Moment { secs: 1_596_153_600, zone: 0 },
    b"Sat, 15 Aug 2020 00:00 GMT" => Moment { secs: 1_597_449_600, zone: 0 },
    b"Sun, 30 Nov 2020 00:00 GMT" => Moment { secs: 1_606_694_400, zone: 0 },
    b"Tue, 30 Jun 2020 00:00 GMT" => Moment { secs: 1_593_475_200, zone: 0 },
    b"Wed, 30 Sep 2020 00:00 GMT" => Moment { secs: 1_601_424_000, zone: 0 },
];

/// Values that are refused.
const REFUSED: [&[u8]; 40] = [
    b"",
    b"Thu,",
    b"1 Feb 2024 11:59:57",
    b"1 Feb 2024 11:59:57 +0100(CET)",
    b"1 Feb 2024 11:59:57 +0100 CET",
    b"Thu , 1 Feb 2024 11:59:57 +0100",
    b"Thu 1 Feb 2024 11:59:57 +0100",
    b"Thu, Thu, 1 Feb 2024 11:59:57 +0100",
    b"Thx, 1 Feb 2024 11:59:57 +0100",
    b"Thursday, 1 Feb 2024 11:59:57 +0100",
    b"1 Feb 2024\x0011:59:57 +0100",
    b"1\0Feb 2024 11:59:57 +0100",
    b"1 Feb 2024 11:59:57 UTC",
    b"1 Feb 2024 11:59:57 Z",
    b"1 Feb 2024 11:59:57 A",
    b"1 Feb 2024 11:59:57 CET",
    b"1 Feb 2024 11:59:57 0100",
    b"1 Feb 2024 11:59:57 +100",
    b"1 Feb 2024 11:59:57 +2400",
    b"1 Feb 2024 11:59:57 +0060",
    b"1 Feb 24 11:59:57 +0100",
    b"1 Feb 02024 11:59:57 +0100",
    b"001 Feb 2024 11:59:57 +0100",
    b"30 Feb 2024 11:59:57 +0100",
    b"29 Feb 2100 11:59:57 +0100",
    b"31 Apr 2024 11:59:57 +0100",
    b"0 Feb 2024 11:59:57 +0100",
    b"1 Foo 2024 11:59:57 +0100",
    b"1 February 2024 11:59:57 +0100",
    b"1 Feb 2024 24:00:00 +0100",
    b"1 Feb 2024 11:60:00 +0100",
    b"1 Feb 2024 11:59:61 +0100",
    b"1 Feb 2024 1:59:57 +0100",
    b"1 Feb 2024 11:59: 57 +0100",
    b"1 Feb 2024 11:59:5 +0100",
    b"31 Dec 1969 23:59:59 +0000",
    b"31 Dec 1969 23:59:59 -0100",
    b"1 Jan 1970 00:00 +0001",
    b"31 Dec 9999 23:59:59 -0001",
    b"1 Feb-2024 11:59:57 +0100",
];

#[test]
fn dates_are_read(rt: HostRuntime) {
    for case in &READ {
        assert!(rt; read(case.given) == Some(case.wanted));
    }
}

#[test]
fn other_values_are_refused(rt: HostRuntime) {
    for value in &REFUSED {
        assert!(rt; read(value).is_none());
    }
}

/// Returns whether a moment is printed so for a mailbox.
fn is_printed(secs: u64, zone: i16, text: &[u8]) -> bool
    requires secs { secs ≤ last_second }
    requires zone { IsZone zone }
{
    print_imap(&Moment { secs, zone }).as_slice() == text
}

#[test]
fn moments_are_printed_for_a_mailbox(rt: HostRuntime) {
    assert!(rt; is_printed(1_706_781_700, 0, b" 1-Feb-2024 10:01:40 +0000"));
    assert!(rt; is_printed(1_615_286_289, -210, b" 9-Mar-2021 07:08:09 -0330"));
    assert!(rt; is_printed(0, -1, b" 1-Jan-1970 00:00:00 +0000"));
    assert!(rt; is_printed(253_402_300_799, 1, b"31-Dec-9999 23:59:59 +0000"));
    assert!(rt; is_printed(253_402_300_799, -1439, b"31-Dec-9999 00:00:59 -2359"));
}

#[test]
fn seconds_are_printed(rt: HostRuntime) {
    assert!(rt; print_rfc3339(1).as_slice() == b"1970-01-01T00:00:01Z".as_slice());
    assert!(rt; print_rfc3339(253_402_300_799).as_slice() == b"9999-12-31T23:59:59Z".as_slice());
    assert!(rt; print_page(1_706_781_600).as_slice() == b"2024-02-01 10:00".as_slice());
    assert!(rt; print_page(0).as_slice() == b"1970-01-01 00:00".as_slice());
}
