//! Numbers of passes as 16 flags.

ghost use Rattle.std.specs.Prelude.{◌≡◌};
ghost use Rattle.gate_rule.specs.Flags.{how_many, least, either_flags};

// How many numbers are flagged.
pub(crate) fn how_many(flags: &[bool; 16]) -> u8
    ensures { result ≡ how_many flags.now }
{
    let mut count = 0;
    for place in 0..16 {
        if flags[place] {
            count += 1;
        }
    }
    count
}

// The least number that is flagged, and 16 where there is none.
pub(crate) fn least(flags: &[bool; 16]) -> u8
    ensures { result ≡ least flags.now }
{
    let mut place = 0;
    while place < 16 && !flags[place] {
        place += 1;
    }
    place as u8
}

// Flags the numbers that another list flags too.
pub(crate) fn add(flags: &mut [bool; 16], more: &[bool; 16])
    ensures { flags.new ≡ either_flags flags.old more.now }
{
    for place in 0..16 {
        flags[place] = flags[place] || more[place];
    }
}
