// The signed mapping. From src/encoding/varint.rs of bilrost.
#![tactic(auto)]

ghost use Rattle.std.specs.Prelude.{◌≡◌};
ghost use Rattle.wire.specs.Signed.{to_unsigned, to_signed};

// A signed number as an unsigned one: v at least 0 gives 2v, v below 0 gives -2v - 1.
pub fn i64_to_unsigned(v: i64) -> u64
    ensures { result ≡ to_unsigned v }
{
    if 0 <= v {
        (v as u64) * 2
    } else {
        (-(v + 1)) as u64 * 2 + 1
    }
}

// Its inverse.
pub fn u64_to_signed(u: u64) -> i64
    ensures { result ≡ to_signed u }
{
    let h = (u / 2) as i64;
    if u % 2 == 0 { h } else { -h - 1 }
}
