// Moments in text beside their seconds.
use sdb_base::Text;
use sdb_time::{TimeFault, read_moment};
use std::test::Fail;

#[test]
fn moments_have_their_seconds(rt: HostRuntime) -> Result<(), Fail> {
    for (text, wanted) in [
        ("2010-01-01T00:00:00Z", Ok(1_262_304_000)),
        ("2010-01-01T00:00:00.000Z", Ok(1_262_304_000)),
        ("2010-01-01T00:00:00", Ok(1_262_304_000)),
        ("2012-02-29T23:59:59-01:30", Ok(1_330_565_399)),
        ("2000-02-29T05:30:00.123456789+05:30", Ok(951_782_400)),
        ("1969-12-31T23:59:00-00:01", Ok(0)),
        ("9999-12-31T23:59:59Z", Ok(253_402_300_799)),
        ("9999-12-31T23:59:59-23:59", Ok(253_402_387_139)),
        ("2010-02-30T00:00:00Z", Err(TimeFault::NoSuchMoment)),
        ("2100-02-29T00:00:00Z", Err(TimeFault::NoSuchMoment)),
        ("1970-01-01T00:00:00+00:01", Err(TimeFault::NoSuchMoment)),
        ("0000-01-01T00:00:00Z", Err(TimeFault::NoSuchMoment)),
        ("2010-01-01T00:00:60Z", Err(TimeFault::NoSuchMoment)),
        ("2010-01-01T24:00:00Z", Err(TimeFault::NoSuchMoment)),
        ("2010-01-01T00:00:00+24:00", Err(TimeFault::NoSuchMoment)),
        ("2010-1-1", Err(TimeFault::BadForm)),
        ("", Err(TimeFault::BadForm)),
        ("2010-01-01T00:00:00z", Err(TimeFault::BadForm)),
        ("2010-01-01T00:00:00.Z", Err(TimeFault::BadForm)),
        ("2010-01-01T00:00:00.0123456789Z", Err(TimeFault::BadForm)),
        ("2010-01-01T00:00:00+0130", Err(TimeFault::BadForm)),
        ("2010-01-01T00:00:00Z ", Err(TimeFault::BadForm)),
    ] {
        let text = Text::from_str(rt.alloc(), text)?;
        assert_eq!(rt; read_moment(&text), wanted, "{text:?}");
    }
    Ok(())
}

fn days_of(year: u16, month: u8) -> u8 {
    let is_leap = year % 400 == 0 || (year % 4 == 0 && year % 100 != 0);
    match month {
        2 if is_leap => 29,
        2 => 28,
        4 | 6 | 9 | 11 => 30,
        _ => 31,
    }
}

// The day number is counted on from day to day.
#[test]
fn days_follow_one_another(rt: HostRuntime) -> Result<(), Fail> {
    let mut seconds: u64 = 0;
    for year in 1970..2410u16 {
        for month in 1..13u8 {
            for day in 1..=days_of(year, month) {
                let text = format!(in rt.alloc(); "{year:04}-{month:02}-{day:02}T00:00:00Z")?;
                assert_eq!(rt; read_moment(&Text::from_string(text)), Ok(seconds));
                seconds = seconds.wrapping_add(86_400);
            }
        }
    }
    Ok(())
}
