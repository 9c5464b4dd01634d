//! The blocks that are taken out of a list, by number.
ghost use Rattle.std.specs.Prelude.{◌≡◌, ◌+◌, ◌*◌, ◌≤◌, length};
ghost use Rattle.qk_shrink.specs.Blocks.{blocks};
ghost use Rattle.qk_shrink.specs.Sought.{IfHere, sought};

use crate::sought::Sought;

/// Consecutive items of a list.
#[derive(Clone, Copy)]
pub(crate) struct Block {
    pub(crate) at: usize,
    pub(crate) size: usize,
}

/// How many blocks a list of so many items has.
pub(crate) fn count_blocks(items: usize) -> u64
    requires { items ≤ 65536 }
    ensures count { result ≡ length (blocks items) }
    ensures bounded { result ≤ 20 * items }
{
    let mut count = 0u64;
    let mut block = items;
    while block > 0 {
        count += (items / block) as u64;
        block /= 2;
    }
    count
}

/// Block `k` of a list of so many items. It costs a step for each size of blocks.
pub(crate) fn seek_block(items: usize, k: u64) -> Sought<Block>
    ensures found { result ≡ sought (blocks items) k }
    ensures inside { IfHere result (λ b. b.at + b.size ≤ items) }
{
    let mut left = k;
    let mut size = items;
    while size > 0 {
        let many = (items / size) as u64;
        if left < many {
            return Sought::Here(Block {
                at: left as usize * size,
                size,
            });
        }
        left -= many;
        size /= 2;
    }
    Sought::Past(left)
}
