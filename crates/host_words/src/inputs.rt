// An input as a host in another language gives it: a number of 32 bits.
ghost use Rattle.std.specs.Prelude.{◌≡◌};
ghost use Rattle.host_words.specs.Inputs.{input_number};

// No number above 255 becomes a small one: it is handed on as 255, which is no input either.
pub fn number(input: u32) -> u8
    ensures { result ≡ input_number input }
{
    if input < 255 { input as u8 } else { 255 }
}
