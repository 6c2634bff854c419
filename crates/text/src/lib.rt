// Text put into a lent buffer, byte by byte, as far as there is room: bytes, numbers in decimal and in hex, names with
// their escapes. The length counts on also where the buffer is full. It wraps at 2^32; no listing is so long (crate
// `text_listing` proves it). No Display: what is written through one is not told from a buffer that is full.
#![tactic(auto)]

ghost use Rattle.std.specs.Prelude.{◌≡◌, [], ◌∷◌};
ghost use Rattle.format.specs.Listing.{decimal_in, decimal, hex_digit, hex_byte, hex_bytes, hex_type, is_plain};
ghost use Rattle.format.specs.Listing.{name_byte, name_bytes, number_line, integer};
ghost use Rattle.format.specs.RawLog.{hex_word};
ghost use Rattle.text.specs.Put.{Puts, Starts};

// A text in a lent buffer, and its length so far. Any buffer and any length go: a text may be gone on with.
#[derive(Drop)]
pub struct Text<'a> {
    pub out: &'a mut [u8],
    pub at: u32,
}

impl<'a> Text<'a> {
    // Nothing yet.
    pub fn new(out: &'a mut [u8]) -> Text<'a>
        ensures { Starts result out.entry }
    {
        Text { out, at: 0 }
    }

    // The length of all that was put, also of what had no room.
    pub fn len(&self) -> u32
        ensures { result ≡ self.now.at }
    {
        self.at
    }

    // One byte.
    #[tactic(auto, unfolding(crate::specs::Put::puts_of, crate::specs::Put::put_of))]
    pub fn put(&mut self, x: u8)
        ensures { Puts self.old self.new (x ∷ []) }
    {
        let place = self.at as usize;
        if place < self.out.len() {
            self.out[place] = x;
        }
        self.at = self.at.wrapping_add(1);
    }

    // Bytes, one after the other. Three methods here put something for each byte: with a closure for what, and its law,
    // they would be longer.
    #[tactic(auto, unfolding(crate::specs::Put::puts_of))]
    pub fn puts(&mut self, bytes: &[u8])
        ensures { Puts self.old self.new bytes.now }
    {
        for b in bytes {
            self.put(*b);
        }
    }

    // The last `left` digits of a number, with no zero in front.
    #[tactic(auto, unfolding(format::specs::Listing::decimal_in, crate::specs::Put::puts_of), using(crate::proofs::Joined::puts_append))]
    fn decimal_in(&mut self, left: u32, n: u32)
        ensures { Puts self.old self.new (decimal_in left n) }
    {
        if left == 0 {
            return;
        }
        if 10 <= n {
            self.decimal_in(left - 1, n / 10);
        }
        self.put((48 + n % 10) as u8);
    }

    // A word in decimal: it has at most ten digits.
    pub fn decimal(&mut self, n: u32)
        ensures { Puts self.old self.new (decimal n) }
    {
        self.decimal_in(10, n);
    }

    // A number with its sign in decimal.
    #[tactic(auto, unfolding(crate::specs::Put::puts_of))]
    pub fn integer(&mut self, z: i32)
        ensures { Puts self.old self.new (integer z) }
    {
        if z < 0 {
            self.puts(b"-");
        }
        self.decimal(z.unsigned_abs());
    }

    // A byte in hex.
    #[tactic(auto, unfolding(crate::specs::Put::puts_of))]
    pub fn hex_byte(&mut self, b: u8)
        ensures { Puts self.old self.new (hex_byte b) }
    {
        self.put(hex_digit(b as u32 / 16));
        self.put(hex_digit(b as u32));
    }

    // Bytes in hex.
    #[tactic(auto, unfolding(crate::specs::Put::puts_of, format::specs::Listing::hex_bytes))]
    pub fn hex_bytes(&mut self, bytes: &[u8])
        ensures { Puts self.old self.new (hex_bytes bytes.now) }
    {
        for b in bytes {
            self.hex_byte(*b);
        }
    }

    // A word in hex, eight digits.
    pub fn hex_word(&mut self, n: u32)
        ensures { Puts self.old self.new (hex_word n) }
    {
        self.hex_bytes(&word::be_bytes(n));
    }

    // A type in hex, three digits.
    #[tactic(auto, unfolding(crate::specs::Put::puts_of))]
    pub fn hex_type(&mut self, t: u32)
        ensures { Puts self.old self.new (hex_type t) }
    {
        self.put(hex_digit(t / 256));
        self.put(hex_digit(t / 16));
        self.put(hex_digit(t));
    }

    // ".. print as \xHH."
    #[tactic(auto, unfolding(format::specs::Listing::name_byte, crate::specs::Put::puts_of))]
    fn name_byte(&mut self, b: u8)
        ensures { Puts self.old self.new (name_byte b) }
    {
        if is_plain(b) {
            self.put(b);
        } else {
            self.puts(b"\\x");
            self.hex_byte(b);
        }
    }

    // A name.
    #[tactic(auto, unfolding(crate::specs::Put::puts_of, format::specs::Listing::name_bytes))]
    pub fn name_bytes(&mut self, bytes: &[u8])
        ensures { Puts self.old self.new (name_bytes bytes.now) }
    {
        for b in bytes {
            self.name_byte(*b);
        }
    }

    // A label, a number behind it, and the end of the line.
    #[tactic(auto, using(crate::proofs::Joined::puts_append), unfolding(format::specs::Listing::number_line))]
    pub fn number_line(&mut self, label: &[u8], n: u32)
        ensures { Puts self.old self.new (number_line label.now n) }
    {
        self.puts(label);
        self.decimal(n);
        self.puts(b"\n");
    }
}

// The last hex digit of a number, in lower case.
#[tactic(auto, unfolding(format::specs::Listing::hex_digit))]
fn hex_digit(n: u32) -> u8
    ensures { result ≡ hex_digit n }
{
    let d = (n % 16) as u8;
    if d < 10 {
        return 48 + d;
    }
    87 + d
}

// "Name bytes outside 0x21 to 0x7e, and the backslash": which bytes are shown as they are.
#[tactic(auto, unfolding(format::specs::Listing::is_plain))]
fn is_plain(b: u8) -> bool
    ensures { result ≡ is_plain b }
{
    (0x21 <= b) & (b <= 0x7e) & (b != 0x5c)
}
