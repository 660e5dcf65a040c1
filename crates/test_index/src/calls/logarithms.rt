//! The logarithm of how many items one sample stands for, by the share of items. The clause of
//! `optimal_combined_sampling` pins it; the rows of the greatest 14 and 15 follow the tests of the original crate, and
//! the others are worked out by hand.
ghost use Rattle.std.specs.Prelude.{◌≤◌};

use bitm::optimal_combined_sampling;
use std::process::Abort;

/// Items, bits, and the logarithm.
type Row = (usize, usize, u8);

/// Compares the logarithms at this greatest one with the rows.
fn expect_rows(rt: &impl Abort, greatest: u8, rows: &[Row])
    requires low { 7 ≤ greatest }
    requires high { greatest ≤ 31 }
{
    for (items, len, log) in rows {
        let found = optimal_combined_sampling(*items, *len, greatest);
        assert!(rt; found == *log);
    }
}

#[test]
fn the_logarithm_follows_the_share_of_items_up_to_14(rt: HostRuntime) {
    let rows = [
        (4, 5, 14),
        (3, 4, 14),
        (299, 400, 13),
        (1, 2, 13),
        (101, 200, 13),
        (99, 200, 13),
        (3, 8, 13),
        (1, 4, 12),
        (10, 41, 12),
        (9, 41, 12),
        (1, 8, 11),
        (10, 81, 11),
        (9, 81, 11),
        (1, 10, 11),
        (1, 32, 9),
        (10, 321, 9),
        (9, 319, 9),
        (1, 100_000_000, 7),
        (1, 1_000_000_000_000_000_000, 7),
    ];
    expect_rows(&rt, 14, rows.as_slice());
}

#[test]
fn the_logarithm_follows_the_share_of_items_up_to_15(rt: HostRuntime) {
    let rows = [
        (4, 5, 15),
        (3, 4, 15),
        (299, 400, 14),
        (1, 2, 14),
        (101, 200, 14),
        (99, 200, 14),
        (3, 8, 14),
        (1, 4, 13),
        (1, 10, 12),
    ];
    expect_rows(&rt, 15, rows.as_slice());
}

#[test]
fn the_logarithm_is_exact_where_products_pass_64_bits(rt: HostRuntime) {
    let rows = [
        (1 << 62, 1 << 63, 13),
        (1 << 63, usize::MAX, 13),
        (usize::MAX, usize::MAX, 14),
        (0, usize::MAX, 7),
        (1, usize::MAX, 7),
    ];
    expect_rows(&rt, 14, rows.as_slice());
}

#[test]
fn no_bits_have_the_greatest_logarithm_and_no_items_the_least(rt: HostRuntime) {
    assert!(rt; optimal_combined_sampling(0, 0, 13) == 13);
    assert!(rt; optimal_combined_sampling(0, 64, 13) == 7);
    assert!(rt; optimal_combined_sampling(1, 2, 7) == 7);
}
