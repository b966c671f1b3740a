//! Values from outside: Random123's known answers for `philox4x32` with ten rounds (its file `kat_vectors`), and values from an
//! independent program. That program is written in Python from the paper's text, with unbounded integers.

use philox_seeds::{
    child, column_seed, draw, draws, key_order_seed, keyed_number, life_order_seed, philox4x32_10,
    reference_order_seed, row_seed, row_seeds, run_row_seeds, run_row_seeds_by_unit, table_seed,
    unit_seed, update_order_seed,
};

#[test]
fn blocks_are_the_known_answers(rt: HostRuntime) {
    let ones = 0xffff_ffff;
    let cases = [
        // Random123: zeros, ones, the digits of pi.
        (
            [0, 0, 0, 0],
            [0, 0],
            [0x6627_e8d5, 0xe169_c58d, 0xbc57_ac4c, 0x9b00_dbd8],
        ),
        (
            [ones, ones, ones, ones],
            [ones, ones],
            [0x408f_276d, 0x41c8_3b0e, 0xa20b_c7c6, 0x6d54_51fd],
        ),
        (
            [0x243f_6a88, 0x85a3_08d3, 0x1319_8a2e, 0x0370_7344],
            [0xa409_3822, 0x299f_31d0],
            [0xd16c_fe09, 0x94fd_cceb, 0x5001_e420, 0x2412_6ea1],
        ),
        // The Python program.
        (
            [1, 2, 3, 4],
            [5, 6],
            [0xc0c8_39bc, 0x889c_87c5, 0x6198_6739, 0x2d46_23d0],
        ),
        (
            [0x8000_0000, 0, ones, 1],
            [0xdead_beef, 0x00c0_ffee],
            [0x7cdf_179b, 0x6f89_5d3c, 0x6d21_af22, 0xb18e_2f48],
        ),
    ];
    for (counter, key, block) in cases {
        assert_eq!(rt; philox4x32_10(counter, key), block);
    }
}

// All values are from the Python program.
#[test]
fn seeds_go_down_the_tree(rt: HostRuntime) {
    let project = 0x0123_4567_89ab_cdef;
    let table = table_seed(project, 3);
    let unit = unit_seed(column_seed(table, 64), 12);
    let row = row_seed(unit, 0xff_ffff_ffff);
    let cases = [
        (
            "child",
            child(project, 7, 0xfedc_ba98_7654_3210),
            0xec0e_cc54_ff09_c848,
        ),
        (
            "keyed number",
            keyed_number(project, [0x7654_3210, 0xfedc_ba98, 7, 0]),
            0xec0e_cc54_ff09_c848,
        ),
        ("table", table, 0x88d7_e3d6_d20f_49ea),
        ("unit", unit, 0x0663_a25b_d675_e282),
        ("row", row, 0xc4c7_f065_1b9b_c3b9),
        ("draw", draw(row, 9), 0x0cbb_3f4c_aaac_6a7f),
        ("keys", key_order_seed(project, 3, 12), unit),
        (
            "lives",
            life_order_seed(project, 3, 12),
            0x2297_dcb2_4ed2_5178,
        ),
        (
            "updates",
            update_order_seed(project, 3, 12),
            0x5192_c3a7_7e94_d38c,
        ),
        (
            "references",
            reference_order_seed(project, 3, 2, 12),
            0x9630_41f1_8317_0b97,
        ),
    ];
    for (name, seed, wanted) in cases {
        assert_eq!(rt; seed, wanted, "{name}");
    }
}

// The values are from the Python program.
#[test]
fn slices_hold_the_single_values(rt: HostRuntime) {
    let unit = 0x0663_a25b_d675_e282;
    let mut seeds = [0, 1, u64::MAX, unit];
    draws(&mut seeds, 9);
    assert!(rt;
        seeds
            == [
                0xce73_25a7_5884_3c5a,
                0xe002_1e48_db30_2758,
                0x60e2_88f5_ec05_5ef1,
                0xcd45_ac78_f0ec_9fed
            ],
        "the draws"
    );
    let mut seeds = [0, 1, 1 << 32, 0xff_ffff_ffff];
    row_seeds(unit, &mut seeds);
    assert!(rt;
        seeds
            == [
                0xe576_ac76_8ff7_465f,
                0x1a37_41bd_e5cc_a547,
                0xc020_354a_520b_624a,
                0xc4c7_f065_1b9b_c3b9
            ],
        "the rows"
    );
}

// The values are from the Python program.
#[test]
fn runs_hold_the_single_values(rt: HostRuntime) {
    let unit = 0x0663_a25b_d675_e282;
    let mut seeds = [0; 4];
    // The ordinals of a run pass 2^32, or end with the last one.
    run_row_seeds(unit, 0xffff_fffe, &mut seeds);
    assert!(rt;
        seeds
            == [
                0xb11a_8af5_a66d_f11b,
                0xf18a_12e7_9852_a7f7,
                0xc020_354a_520b_624a,
                0x1f72_76c7_f35d_e3ab
            ],
        "a run"
    );
    let mut last = [0; 2];
    run_row_seeds(unit, u64::MAX - 1, &mut last);
    assert!(rt;
        last == [0xadd6_db25_0ab8_5c34, 0xd068_a4a7_b63c_f1bd],
        "the last of a run"
    );
    let mut seeds = [unit, 0x88d7_e3d6_d20f_49ea, 0, unit];
    run_row_seeds_by_unit(0xffff_fffe, &mut seeds);
    assert!(rt;
        seeds
            == [
                0xb11a_8af5_a66d_f11b,
                0x8428_cb75_31b6_d8a4,
                0x5ca1_de91_0fae_8d51,
                0x1f72_76c7_f35d_e3ab
            ],
        "a run of units"
    );
}
