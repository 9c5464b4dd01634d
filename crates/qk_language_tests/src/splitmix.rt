//! Worked numbers, and each call that allocates with ample memory.

use qk_splitmix::{Gen, attempt_gens, choose};
use std::process::Abort;
use std::test::Fail;

fn is_at<R: Abort>(rt: &R, made: Gen, seed: u64, gamma: u64) {
    assert_eq!(rt; made.seed(), seed);
    assert_eq!(rt; made.gamma(), gamma);
}

// a number; its generator's seed and gamma, next word, and the right half of its split; by a computation apart from this program
const STARTS: [(u64, u64, u64, u64, u64, u64); 4] = [
    (
        0,
        0,
        0xe220_a839_7b1d_cdaf,
        0x9474_f0eb_06d7_9fd8,
        0x9474_f0eb_06d7_9fd8,
        0xd49f_fe2f_0ef9_0131,
    ),
    (
        1,
        0xb456_bcfc_34c2_cb2c,
        0x910a_2dec_8902_5cc1,
        0xe0e3_9dee_72a8_b9f5,
        0xe0e3_9dee_72a8_b9f5,
        0x4ddb_a5b6_fb3a_5783,
    ),
    (
        42,
        0x8108_7960_8e42_59cc,
        0xbdd7_3226_2feb_6e95,
        0x11b3_a82d_c43c_e230,
        0x11b3_a82d_c43c_e230,
        0x91ea_f22b_baf0_ca29,
    ),
    (
        u64::MAX,
        0x64b5_720b_4b82_5f21,
        0xe4d9_7177_1b65_2c21,
        0xb089_e30c_676d_082d,
        0xb089_e30c_676d_082d,
        0x4547_594e_b178_7635,
    ),
];

#[test]
fn starts(rt: HostRuntime) {
    for (number, seed, gamma, word, right_seed, right_gamma) in STARTS {
        let made = Gen::start(number);
        is_at(&rt, made, seed, gamma);
        let (drawn, after) = made.next();
        assert_eq!(rt; drawn, word);
        is_at(&rt, after, seed.wrapping_add(gamma), gamma);
        let (left, right) = made.split();
        is_at(
            &rt,
            left,
            seed.wrapping_add(gamma).wrapping_add(gamma),
            gamma,
        );
        is_at(&rt, right, right_seed, right_gamma);
    }
    is_at(
        &rt,
        Gen::start(0).split().0,
        0xc441_5072_f63b_9b5e,
        0xe220_a839_7b1d_cdaf,
    );
    is_at(
        &rt,
        Gen::start(12),
        0x88f5_2b38_44a8_b035,
        0x3e95_5356_3374_25a9,
    );
}

#[test]
fn chooses(rt: HostRuntime) {
    assert_eq!(rt; choose(0, -2, 2), -2);
    assert_eq!(rt; choose(u64::MAX, -2, 2), 2);
    assert_eq!(rt; choose(1 << 63, 0, 1), 1);
    assert_eq!(rt; choose(0, i64::MIN, i64::MAX), i64::MIN);
    assert_eq!(rt; choose(u64::MAX, i64::MIN, i64::MAX), i64::MAX);
}

#[test]
fn attempts(rt: HostRuntime) -> Result<(), Fail> {
    let made = attempt_gens(rt.alloc(), Gen::start(42), 4)?;
    let gens = made.gens.as_slice();
    assert_eq!(rt; gens.len(), 4);
    is_at(&rt, gens[0], 0xfcb6_ddac_ee19_36f6, 0xbdd7_3226_2feb_6e95);
    is_at(&rt, gens[1], 0x3589_8c85_3a1e_7682, 0x91ea_f22b_baf0_ca29);
    is_at(&rt, gens[2], 0x51df_9631_edfd_8231, 0xb6af_80af_960b_e9af);
    is_at(&rt, gens[3], 0x637a_26c2_6e72_cdad, 0x93e4_3ff0_1db0_b46f);
    is_at(&rt, made.rest, 0x8d09_8aa2_6d81_a55c, 0xd46b_419c_a278_786b);
    Ok(())
}

fn shared<T: Send + Sync>(_: &T) {}

#[test]
fn crosses_threads() {
    shared(&Gen::start(0));
}
