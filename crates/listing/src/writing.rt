// Bytes, parts of a text and numbers, put into an output from a place on; each answers the place behind them.
// Where they do not fit nothing is said of the output, and the place is answered all the same.
ghost use Rattle.std.specs.Prelude.{[], ◌∷◌, ◌≡◌, min};
ghost use Rattle.text.specs.Fields.{decimal};
ghost use Rattle.listing.specs.Writing.{Countable, Writes};

// Where the part of an output behind those lines begins that end at a place: at the output's end if it is full.
pub fn behind(end: usize, room: usize) -> usize
    ensures { result ≡ min end room }
{
    end.min(room)
}

// One byte.
pub fn put_byte(out: &mut [u8], at: usize, b: u8) -> usize
    requires { Countable at (b ∷ []) }
    ensures { Writes (b ∷ []) at out.old out.new result }
{
    if out.len() <= at {
        return at + 1;
    }
    out[at] = b;
    at + 1
}

// A part of a text, as it stands there.
pub fn copy(out: &mut [u8], at: usize, part: &[u8]) -> usize
    requires { Countable at part.now }
    ensures { Writes part.now at out.old out.new result }
{
    let mut end = at;
    // No `copy_from_slice`: with it the library for C needs `memmove`.
    for byte in part {
        end = put_byte(out, end, *byte);
    }
    end
}

// A number in decimal digits: up to three in a row; few have more, and each further digit costs a call.
pub fn put_decimal(out: &mut [u8], at: usize, n: usize) -> usize
    requires { Countable at (decimal n) }
    ensures { Writes (decimal n) at out.old out.new result }
{
    if n < 10 {
        return put_byte(out, at, b'0' + n as u8);
    }
    let tens = n / 10;
    if tens < 10 {
        let end = put_byte(out, at, b'0' + tens as u8);
        return put_byte(out, end, b'0' + (n % 10) as u8);
    }
    if tens < 100 {
        let second = put_byte(out, at, b'0' + (tens / 10) as u8);
        let third = put_byte(out, second, b'0' + (tens % 10) as u8);
        return put_byte(out, third, b'0' + (n % 10) as u8);
    }
    let end = put_decimal(out, at, tens);
    put_byte(out, end, b'0' + (n % 10) as u8)
}
