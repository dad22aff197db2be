use crate::{Kind, Range, join, percent_v, reduce};
use std::process::Abort;

/// Each row has the texts of all signals with one lower bound, from -7 on, by their upper bound.
const SHOWN: [&str; 15] = [
    "Su0 760 750 740 730 720 710 SuL 71X 72X 73X 74X 75X 76X SuX",
    "St0 650 640 630 620 610 StL 61X 62X 63X 64X 65X StX 67X",
    "Pu0 540 530 520 510 PuL 51X 52X 53X 54X PuX 56X 57X",
    "La0 430 420 410 LaL 41X 42X 43X LaX 45X 46X 47X",
    "We0 320 310 WeL 31X 32X WeX 34X 35X 36X 37X",
    "Me0 210 MeL 21X MeX 23X 24X 25X 26X 27X",
    "Sm0 SmL SmX 12X 13X 14X 15X 16X 17X",
    "HiZ SmH MeH WeH LaH PuH StH SuH",
    "Sm1 211 311 411 511 611 711",
    "Me1 321 421 521 621 721",
    "We1 431 531 631 731",
    "La1 541 641 741",
    "Pu1 651 751",
    "St1 761",
    "Su1",
];

fn shows(rt: &impl Abort, signal: Range, text: &str) {
    assert_eq!(rt; percent_v(signal).as_slice(), text.as_bytes());
}

fn shows_row(rt: &impl Abort, lo: i8, row: &str) {
    let mut texts = row.split(' ');
    for hi in lo..8 {
        let text = texts.next().expect(rt, "a text for each upper bound");
        assert!(rt; -7 <= lo && lo <= hi && hi <= 7);
        shows(rt, Range::new(lo, hi), text);
    }
    assert!(rt; texts.next().is_none());
}

#[test]
fn shows_every_signal(rt: HostRuntime) {
    for (lo, row) in (-7i8..8).zip(SHOWN.iter()) {
        shows_row(&rt, lo, row);
    }
}

#[test]
fn joins_two_drivers(rt: HostRuntime) {
    let pull_one = Range::new(5, 5);
    let strong_zero = Range::new(-6, -6);
    let strong_one = Range::new(6, 6);
    let strong_x = Range::new(-6, 6);
    let high_impedance = Range::new(0, 0);
    shows(&rt, join(pull_one, strong_zero, Kind::Plain), "St0");
    shows(&rt, join(strong_zero, strong_one, Kind::Plain), "StX");
    shows(&rt, join(strong_zero, strong_one, Kind::And), "St0");
    shows(&rt, join(strong_zero, strong_one, Kind::Or), "St1");
    shows(
        &rt,
        join(high_impedance, high_impedance, Kind::Plain),
        "HiZ",
    );
    shows(&rt, join(strong_x, strong_zero, Kind::And), "St0");
    shows(&rt, join(Range::new(-6, 0), pull_one, Kind::Plain), "65X");
    shows(
        &rt,
        join(Range::new(-5, -2), Range::new(-3, -3), Kind::Plain),
        "530",
    );
}

#[test]
fn weakens_supply(rt: HostRuntime) {
    let supply_one = Range::new(7, 7);
    shows(&rt, reduce(supply_one, false), "St1");
    shows(&rt, reduce(Range::new(-7, -7), false), "St0");
    let once = reduce(supply_one, true);
    let twice = reduce(once, true);
    let thrice = reduce(twice, true);
    shows(&rt, once, "Pu1");
    shows(&rt, twice, "We1");
    shows(&rt, thrice, "Me1");
    shows(&rt, reduce(thrice, true), "Sm1");
}
