// Numbers of 128 digits: product, sum, difference and order, for every input.
ghost use Rattle.std.specs.Prelude.{◌≡◌, ◌+◌, ◌-◌, ◌*◌, ◌%◌, ◌^◌, nat_lt};

pub fn product(a: u64, b: u64) -> u128
    ensures { result ≡ a * b }
{
    a as u128 * b as u128
}

pub fn plus(a: u128, b: u128) -> u128
    ensures { result ≡ (a + b) % 2 ^ 128 }
{
    a.wrapping_add(b)
}

pub fn minus(a: u128, b: u128) -> u128
    ensures { result ≡ (2 ^ 128 + a - b) % 2 ^ 128 }
{
    a.wrapping_sub(b)
}

pub fn less(a: u128, b: u128) -> bool
    ensures { result ≡ nat_lt a b }
{
    a < b
}
