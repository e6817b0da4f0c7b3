// Codes in sign and magnitude.
ghost use Rattle.std.specs.Prelude.{◌≡◌};
ghost use Rattle.terms.specs.Sign.{sign_magnitude};

// A code has no bit from here on.
const CODE_BITS: u8 = 16;

// What a code of a length stands for: its top bit is the sign, and the bits below it are the magnitude. Any length and any code are
// answered: a sign past the code's bits is never set.
pub fn sign_magnitude(len: u8, code: u16) -> i32
    ensures { result ≡ sign_magnitude len code }
{
    let sign = 1u32 << len.saturating_sub(1).min(CODE_BITS);
    let number = code as u32;
    if number < sign {
        return number as i32;
    }
    -((number - sign) as i32)
}
