// Numbers with their bytes in the other order. Two functions, since no trait of std has `swap_bytes`: one for both
// would need a trait of ours with two impls.
ghost use Rattle.std.specs.Prelude.{◌≡◌};
ghost use Rattle.numbers.specs.Numbers.Order.{most_first};
ghost use Rattle.numbers.specs.Numbers.{le_value, bytes_in};

#[tactic(auto, unfolding(crate::specs::Numbers::le_value, crate::specs::Numbers::le_bytes))]
pub fn swap4(value: u32) -> u32
    ensures { result ≡ le_value (bytes_in most_first 4 value) }
{
    value.swap_bytes()
}

#[tactic(auto, unfolding(crate::specs::Numbers::le_value, crate::specs::Numbers::le_bytes))]
pub fn swap8(value: u64) -> u64
    ensures { result ≡ le_value (bytes_in most_first 8 value) }
{
    value.swap_bytes()
}
