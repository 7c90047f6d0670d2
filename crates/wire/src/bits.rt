// Prefix byte and header flags, taken apart by shifts and masks; callers see the arithmetic.
ghost use Rattle.std.specs.Prelude.{◌≡◌, cond, ◌+◌, ◌*◌, ◌%◌, ◌/◌, ◌<◌, ◌≤◌, eqb};
ghost use Rattle.wire.specs.Frame.{reserved_in, type_in, dropped_by};
ghost use Rattle.wire.specs.Flags.{flag_in, outside, both};
ghost use Rattle.wire.specs.Layout.{sized};

// Is the prefix's reserved bit set?
pub fn reserved(prefix: u8) -> bool
    ensures { result ≡ eqb (reserved_in prefix) 1 }
{
    prefix & 1 == 1
}

// The packet type, bits 1 to 4 of the prefix.
pub fn type_of(prefix: u8) -> u8
    ensures { result ≡ type_in prefix }
{
    (prefix >> 1) & 15
}

// How many bytes the prefix's short length drops from the datagram's end.
pub fn dropped(prefix: u8) -> usize
    ensures { (result ≡ dropped_by prefix) × (result ≤ 6) }
{
    let short = prefix >> 5;
    if short == 0 { 0 } else { 7 - short as usize }
}

// The flags of a header.
pub fn flags_of(header: u16) -> u16
    ensures { result ≡ header % 4096 }
{
    header & 4095
}

// The LogWindowSize of a header.
pub fn logwindow_of(header: u16) -> u8
    ensures { result ≡ header / 4096 }
{
    (header >> 12) as u8
}

// Is the flag at this place set?
pub fn flag(flags: u16, place: u32) -> bool
    requires { place < 16 }
    ensures { result ≡ flag_in place flags }
{
    (flags >> place) & 1 == 1
}

// Is there a flag outside the six?
pub fn has_others(flags: u16) -> bool
    ensures { result ≡ outside flags }
{
    let six = (flags & 1) + (flags & 4) + (flags & 8) + (flags & 16) + (flags & 64) + (flags & 256);
    flags != six
}

// The low four bits of a byte.
pub fn low_four(b: u8) -> u8
    ensures { result ≡ b % 16 }
{
    b & 15
}

// The high four bits of a byte.
pub fn high_four(b: u8) -> u8
    ensures { result ≡ b / 16 }
{
    b >> 4
}

// The low seven bits of a byte.
pub fn low_seven(b: u8) -> u8
    ensures { result ≡ b % 128 }
{
    b & 127
}

// Is a byte's highest bit set?
pub fn high_bit(b: u8) -> bool
    ensures { result ≡ eqb (b / 128 % 2) 1 }
{
    (b >> 7) & 1 == 1
}

// The prefix byte of a packet of type 0 with this short length.
pub fn prefix_of(short: u8) -> u8
    requires { short < 8 }
    ensures { result ≡ 32 * short }
{
    short << 5
}

// A header of these flags and this LogWindowSize.
pub fn header_of(flags: u16, logwindow: u8) -> u16
    requires { (flags < 4096) × (logwindow < 16) }
    ensures { result ≡ flags + 4096 * logwindow }
{
    ((logwindow as u16) << 12) | flags
}

// A byte of two halves.
pub fn halves(low: u8, high: u8) -> u8
    requires { (low < 16) × (high < 16) }
    ensures { result ≡ low + 16 * high }
{
    (high << 4) | low
}

// The vector's size byte: the size, and whether a time stamp is present.
pub fn size_byte(size: u8, timed: bool) -> u8
    requires { size < 128 }
    ensures { result ≡ size + 128 * cond timed 1 0 }
{
    ((timed as u8) << 7) | size
}

// A size where it is flagged, and 0 where it is not.
pub fn size_if(flag: bool, size: usize) -> usize
    ensures { (result ≡ sized flag size) × (result ≤ size) }
{
    if flag { size } else { 0 }
}

// Are ACK and ACKVEC both flagged?
pub fn both_flagged(ack: bool, vector: bool) -> bool
    ensures { result ≡ both ack vector }
{
    ack && vector
}
