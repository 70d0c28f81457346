use crate::numbers::number;
use sharing::{ByTime, ProRata, Share, SharingRule};
use std::process::Abort;
use units::Lots;

/// A line on which a share of 7 lots stands from before.
fn line(lots: u64) -> Share {
    Share {
        lots: Lots(lots),
        share: Lots(7),
    }
}

/// What a rule answers for one line of so many lots.
fn one_line<R: SharingRule>(rule: &R, lots: u64, total: u64) -> u8 {
    number(rule.share(&mut [line(lots)], Lots(total)))
}

/// The shares of three lines after a rule's call.
fn three_lines<R: SharingRule>(rule: &R, lots: [u64; 3], total: u64) -> [u64; 3] {
    let mut lines = lots.map(line);
    let _ = rule.share(&mut lines, Lots(total));
    lines.map(|line| line.share.0)
}

/// 41 over 512 lines, 42 over 1,000,000 lots, 43 above the sum; not at these.
fn refuses_past_the_edges<R: SharingRule>(rt: &impl Abort, rule: &R) {
    let mut lines = [line(1); 513];
    assert_eq!(rt; number(rule.share(&mut lines, Lots(1))), 41);
    assert_eq!(rt; number(rule.share(&mut lines[..512], Lots(512))), 0);
    assert_eq!(rt;
        [one_line(rule, 1_000_000, 1), one_line(rule, 1_000_001, 1)],
        [0, 42]
    );
    assert_eq!(rt;
        [
            one_line(rule, 5, 5),
            one_line(rule, 5, 6),
            one_line(rule, 5, u64::MAX),
        ],
        [0, 43, 43]
    );
}

#[test]
fn edges_by_time(rt: HostRuntime) {
    refuses_past_the_edges(&rt, &ByTime);
}

#[test]
fn edges_pro_rata(rt: HostRuntime) {
    refuses_past_the_edges(&rt, &ProRata);
}

#[test]
fn the_lowest_number_comes_first(rt: HostRuntime) {
    let mut lines = [line(1_000_001); 513];
    assert_eq!(rt; number(ProRata.share(&mut lines, Lots(u64::MAX))), 41);
    assert_eq!(rt; number(ProRata.share(&mut lines[..2], Lots(u64::MAX))), 42);
}

#[test]
fn a_refused_call_writes_nothing(rt: HostRuntime) {
    assert_eq!(rt; three_lines(&ByTime, [3, 4, 5], 13), [7, 7, 7]);
    assert_eq!(rt; three_lines(&ProRata, [3, 4, 5], 13), [7, 7, 7]);
}

#[test]
fn by_time_the_earlier_lines_are_filled(rt: HostRuntime) {
    assert_eq!(rt; three_lines(&ByTime, [50, 30, 20], 60), [50, 10, 0]);
    assert_eq!(rt; three_lines(&ByTime, [50, 30, 20], 100), [50, 30, 20]);
    assert_eq!(rt; three_lines(&ByTime, [50, 30, 20], 0), [0, 0, 0]);
}

// 0, 3 and 3 of 5: first shares of 0, 2.5 and 2.5, and the lot that is left passes over the line without lots.
#[test]
fn pro_rata_the_rest_goes_to_the_earliest_with_room(rt: HostRuntime) {
    assert_eq!(rt; three_lines(&ProRata, [1, 1, 1], 2), [1, 1, 0]);
    assert_eq!(rt; three_lines(&ProRata, [50, 30, 20], 33), [17, 10, 6]);
    assert_eq!(rt; three_lines(&ProRata, [0, 3, 3], 5), [0, 3, 2]);
    assert_eq!(rt; three_lines(&ProRata, [0, 0, 0], 0), [0, 0, 0]);
    assert_eq!(rt;
        three_lines(&ProRata, [1_000_000, 1_000_000, 1_000_000], 2_999_999),
        [1_000_000, 1_000_000, 999_999]
    );
}
