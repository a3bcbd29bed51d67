// Sets of ranks as masks: bit r stands for the rank r.
ghost use Rattle.std.specs.Prelude.{◌≡◌, ◌<◌};
ghost use Rattle.counts.specs.HandOrder.{highest, leaving, row_foot};
ghost use Rattle.counts.specs.Kept.{ranks_in, Short};

// The ranks of a flush, and the ranks held at least once, twice, three and four times.
#[derive(Clone, Copy)]
pub struct Masks {
    pub flush: u64,
    pub once: u64,
    pub twice: u64,
    pub thrice: u64,
    pub fourfold: u64,
}

// The highest rank; 0 where there is none.
pub(crate) fn top(m: u64) -> u8
    requires { Short m }
    ensures is { result ≡ highest (ranks_in m) }
    ensures small { result < 15 }
{
    if m == 0 {
        return 0;
    }
    (63 - u64::leading_zeros(m)) as u8
}

// The ranks but one.
pub(crate) fn less(m: u64, r: u8) -> u64
    requires { Short m × (r < 15) }
    ensures are { ranks_in result ≡ leaving r (ranks_in m) }
    ensures short { Short result }
{
    m ^ (m & (1u64 << r))
}

// The lowest rank of the highest five in a row; 0 where there are none. An ace stands below the two as well.
pub(crate) fn row_foot(m: u64) -> u8
    requires { Short m }
    ensures is { result ≡ row_foot (ranks_in m) }
    ensures small { result < 15 }
{
    let a = m | m / 16384 * 2;
    let b = a / 2;
    let c = b / 2;
    let d = c / 2;
    top(a & (b & (c & (d & d / 2))))
}
