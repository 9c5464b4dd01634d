//! The mixing functions, on 64-bit words that wrap.
ghost use Rattle.std.specs.Prelude.{◌≡◌, ◌%◌, ◌<◌};
ghost use Rattle.qk_splitmix.specs.SplitMix.{shifted_onto, stirred, mix64 as mix64_of, mix13 as mix13_of, spread_bits, mix_gamma as mix_gamma_of};

fn shift_onto(shift: u32, z: u64) -> u64
    requires { shift < 64 }
    ensures { result ≡ shifted_onto shift z }
{
    z ^ (z >> shift)
}

#[tactic(auto, unfolding(crate::specs::SplitMix::stirred))]
fn stir(shift: u32, factor: u64, z: u64) -> u64
    requires { shift < 64 }
    ensures { result ≡ stirred shift factor z }
{
    shift_onto(shift, z).wrapping_mul(factor)
}

#[tactic(auto, unfolding(crate::specs::SplitMix::mix64))]
pub(crate) fn mix64(z: u64) -> u64
    ensures { result ≡ mix64_of z }
{
    let once = stir(33, 0xff51_afd7_ed55_8ccd, z);
    let twice = stir(33, 0xc4ce_b9fe_1a85_ec53, once);
    shift_onto(33, twice)
}

#[tactic(auto, unfolding(crate::specs::SplitMix::mix13))]
fn mix13(z: u64) -> u64
    ensures { result ≡ mix13_of z }
{
    let once = stir(30, 0xbf58_476d_1ce4_e5b9, z);
    let twice = stir(27, 0x94d0_49bb_1331_11eb, once);
    shift_onto(31, twice)
}

#[tactic(auto, unfolding(crate::specs::SplitMix::spread_bits))]
fn spread(gamma: u64) -> u64
    ensures { result ≡ spread_bits gamma }
{
    if shift_onto(1, gamma).count_ones() < 24 {
        gamma ^ 0xaaaa_aaaa_aaaa_aaaa
    } else {
        gamma
    }
}

#[tactic(auto, unfolding(crate::specs::SplitMix::mix_gamma))]
pub(crate) fn mix_gamma(z: u64) -> u64
    ensures exact { result ≡ mix_gamma_of z }
    ensures odd { result % 2 ≡ 1 }
{
    spread(mix13(z) | 1)
}
