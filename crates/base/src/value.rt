ghost use Rattle.std.specs.Prelude.{◌≡◌};
ghost use Rattle.base.specs.Values.{value_of, bits_of};

/// The value of sixteen bits, in two's complement: FFFF is -1, 8000 is -32,768, 7FFF is 32,767.
pub fn value_of(bits: u16) -> i16
    ensures value { result ≡ value_of bits }
    ensures back { bits_of result ≡ bits }
{
    bits.cast_signed()
}

/// The sixteen bits of a value, in two's complement.
pub fn bits_of(value: i16) -> u16
    ensures value { result ≡ bits_of value }
    ensures back { value_of result ≡ value }
{
    value.cast_unsigned()
}
